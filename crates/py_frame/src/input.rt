//! What a frame is told and what it tells.

ghost use Rattle.std.specs.Prelude.{◌≡◌};
ghost use Rattle.py_frame.specs.Steps.{got_of};

use py_objects::{GotAnswer, PyBaseExceptionRef, PyObjectRef, Request};

/// What a frame is told.
#[derive(Clone, Copy, Debug, PartialEq, Eq)]
pub enum Input {
    /// It is entered.
    Start,
    /// It goes on.
    Go,
    /// It is resumed with a value.
    Send(PyObjectRef),
    /// An exception is thrown into it.
    Throw(PyBaseExceptionRef),
    /// What it asked is answered.
    Answer(Answer),
}

/// An answer to what a frame asked.
#[derive(Clone, Copy, Debug, PartialEq, Eq)]
pub enum Answer {
    Value(PyObjectRef),
    /// There is nothing more.
    Stop(Option<PyObjectRef>),
    /// The raise of an exception that the answer made.
    Fresh(PyBaseExceptionRef),
    /// The raise of an exception that came from elsewhere.
    Passed(PyBaseExceptionRef),
}

impl Answer {
    /// The answer as an event names it.
    pub fn got(self) -> GotAnswer
        ensures { result ≡ got_of self }
    {
        match self {
            Answer::Value(value) => GotAnswer::Value(value),
            Answer::Stop(value) => GotAnswer::Stop(value),
            Answer::Fresh(exception) => GotAnswer::Raise(exception),
            Answer::Passed(exception) => GotAnswer::Raise(exception),
        }
    }
}

/// What a frame tells: the next event of its activation, or that memory ran out.
#[derive(Drop)]
pub enum FrameStep {
    /// It asks, while it handles this exception.
    Ask(Request, Option<PyBaseExceptionRef>),
    /// A loop begins a round.
    Round,
    /// It yields a value.
    Yield(PyObjectRef),
    /// It ends by a value.
    Return(PyObjectRef),
    /// It ends by an exception.
    Raise(PyBaseExceptionRef),
    NoMemory,
}
