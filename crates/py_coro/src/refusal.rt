//! Why a call of a generator is refused, and what is raised then, at a stop that comes out, and at a yield under a close.

ghost use Rattle.std.specs.Prelude.{◌≡◌, IfOk};
ghost use Rattle.py_coro.specs.Refusals.{ignoring, refused, stopping, telling, word_of};

use py_code::{NoMemory, push_bytes, text_of};
use py_objects::{CoroKind, ErrorKind, Fault};
use std::alloc::Global;
use thiserror::Error;

/// Why a send, a throw or a close is refused (Python Language Reference, 6.2.9.1).
#[derive(Clone, Copy, Debug, PartialEq, Eq, Error)]
pub enum CoroRefusal {
    /// It runs.
    #[error("already executing")]
    Running,
    /// It hasn't started, and is sent a value that isn't None.
    #[error("sent a value before it started")]
    FirstValue,
    /// There is no depth left to enter it.
    #[error("too deep")]
    TooDeep,
}

impl CoroRefusal {
    /// The exception that it is raised as, by one of this kind.
    pub fn fault(self, alloc: Global, kind: CoroKind) -> Result<Fault, NoMemory>
        ensures { IfOk result (λ fault. fault ≡ refused (word_of kind) self) }
    {
        match self {
            CoroRefusal::Running => word_and(
                alloc,
                kind,
                ErrorKind::ValueError,
                b" already executing",
            ),
            CoroRefusal::FirstValue => {
                let mut text = text_of(alloc, b"can't send non-None value to a just-started ")?;
                push_bytes(&mut text, word(kind))?;
                Ok(Fault {
                    kind: ErrorKind::TypeError,
                    text,
                })
            }
            CoroRefusal::TooDeep => Ok(Fault {
                kind: ErrorKind::RecursionError,
                text: text_of(alloc, b"maximum recursion depth exceeded ")?,
            }),
        }
    }
}

/// What a stop of this class becomes that comes out of one of this kind (PEP 479, PEP 525).
pub fn converted(alloc: Global, kind: CoroKind, stop: ErrorKind) -> Result<Fault, NoMemory>
    ensures { IfOk result (λ fault. fault ≡ stopping (word_of kind) stop) }
{
    let mut fault = word_and(alloc, kind, ErrorKind::RuntimeError, b" raised ")?;
    push_bytes(&mut fault.text, stop.name())?;
    Ok(fault)
}

/// What is raised where one of this kind yields while it is closed.
pub fn ignored(alloc: Global, kind: CoroKind) -> Result<Fault, NoMemory>
    ensures { IfOk result (λ fault. fault ≡ ignoring (word_of kind)) }
{
    word_and(
        alloc,
        kind,
        ErrorKind::RuntimeError,
        b" ignored GeneratorExit",
    )
}

/// The word for one of this kind.
pub(crate) fn word(kind: CoroKind) -> &'static [u8]
    ensures { result.now ≡ word_of kind }
{
    match kind {
        CoroKind::Generator => b"generator",
        CoroKind::Coroutine => b"coroutine",
        CoroKind::AsyncGen => b"async generator",
    }
}

/// A fault whose text is the word for one of this kind with more behind it.
fn word_and(alloc: Global, kind: CoroKind, error: ErrorKind, more: &[u8]) -> Result<Fault, NoMemory>
    ensures { IfOk result (λ fault. fault ≡ telling kind error more.now) }
{
    let mut text = text_of(alloc, word(kind))?;
    push_bytes(&mut text, more)?;
    Ok(Fault { kind: error, text })
}
