//! What a frame expects.

use py_check::Kind;
use py_objects::GotAnswer;

/// Which values may answer what a frame asked. A raise may always.
#[derive(Clone, Copy, Debug, PartialEq, Eq)]
pub enum Wanted {
    /// One of this kind.
    Of(Kind),
    /// True or False.
    Truth,
    /// An exception, or None.
    ExceptionOrNone,
    /// A tuple of so many items.
    Items(u32),
    /// A tuple of so many first items, a list, and so many last ones.
    Unpacked { before: u32, after: u32 },
    /// No value: only a raise answers.
    NoValue,
}

/// What a frame does next, or which input it expects.
#[derive(Clone, Copy, Debug, PartialEq, Eq)]
pub enum Expect {
    /// It hasn't begun, and is entered.
    Start,
    /// The next unit runs.
    Go,
    /// An answer.
    Answer(Wanted),
    /// A value that is sent, or an exception that is thrown in.
    Resume,
    /// It goes by what it heard.
    Heard(GotAnswer),
    /// Nothing: it has ended.
    Ended,
}
