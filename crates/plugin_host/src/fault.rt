//! Why a plug-in is refused before it runs.

use py_code::NoMemory;
use py_script::ParseFault;
use std::alloc::AllocError;
use std::fmt;

/// Why a plug-in is refused.
#[derive(Clone, Copy, Debug, PartialEq, Eq)]
pub(crate) enum Refusal {
    /// Memory ran out.
    NoMemory,
    /// It has more bytes than a script may have.
    TooLong,
    /// This line of it, from 1, is bad.
    Malformed(u64),
    /// It has drives, whose numbers would come before those of the host's lines.
    DrivesItself,
    /// It doesn't declare what the host's lines call.
    Lacks,
    /// A raw code of it breaks a rule: the number of its code, from 0, and the unit.
    Broken(usize, usize),
}

impl fmt::Display for Refusal {
    fn fmt<W: fmt::Write>(&self, f: &mut fmt::Formatter<W>) -> fmt::Result {
        match self {
            Refusal::NoMemory => write!(f, "out of memory"),
            Refusal::TooLong => write!(f, "it is too long"),
            Refusal::Malformed(line) => write!(f, "line {line} is bad"),
            Refusal::DrivesItself => write!(f, "it drives itself"),
            Refusal::Lacks => write!(f, "it lacks what the host calls"),
            Refusal::Broken(code, at) => write!(f, "code {code} breaks a rule at unit {at}"),
        }
    }
}

impl From<NoMemory> for Refusal {
    fn from(_error: NoMemory) -> Refusal {
        Refusal::NoMemory
    }
}

impl From<AllocError> for Refusal {
    fn from(_error: AllocError) -> Refusal {
        Refusal::NoMemory
    }
}

impl From<ParseFault> for Refusal {
    fn from(fault: ParseFault) -> Refusal {
        match fault {
            ParseFault::Malformed(line) => Refusal::Malformed(line),
            ParseFault::NoMemory => Refusal::NoMemory,
        }
    }
}
