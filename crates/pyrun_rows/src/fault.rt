//! Why rows can't be run, and why a line of them can't be taken.

use py_code::NoMemory;
use std::alloc::{AllocError, AllocFailed};
use std::{fmt, io};

/// Why rows can't be run.
#[derive(Debug, Drop)]
pub(crate) enum RowsFault {
    /// Memory ran out.
    NoMemory,
    /// The file isn't read, or isn't text.
    Unreadable,
    /// The line of this number, from 1, says nothing that is known.
    Unknown(usize),
}

impl fmt::Display for RowsFault {
    fn fmt<W: fmt::Write>(&self, f: &mut fmt::Formatter<W>) -> fmt::Result {
        match self {
            RowsFault::NoMemory => write!(f, "out of memory"),
            RowsFault::Unreadable => write!(f, "the rows can't be read"),
            RowsFault::Unknown(line) => write!(f, "line {line} of the rows says nothing known"),
        }
    }
}

impl From<NoMemory> for RowsFault {
    fn from(_error: NoMemory) -> RowsFault {
        RowsFault::NoMemory
    }
}

impl From<AllocError> for RowsFault {
    fn from(_error: AllocError) -> RowsFault {
        RowsFault::NoMemory
    }
}

impl<T: Drop> From<AllocFailed<T>> for RowsFault {
    fn from(_error: AllocFailed<T>) -> RowsFault {
        RowsFault::NoMemory
    }
}

impl From<io::Error> for RowsFault {
    fn from(error: io::Error) -> RowsFault {
        match error.kind() {
            io::ErrorKind::OutOfMemory => RowsFault::NoMemory,
            _ => RowsFault::Unreadable,
        }
    }
}

/// Why a line of the rows can't be taken.
#[derive(Debug, Drop)]
pub(crate) enum LineFault {
    /// Memory ran out.
    NoMemory,
    /// It says nothing that is known.
    Unknown,
}

impl LineFault {
    /// The fault of the rows, where the line has this number, from 1.
    pub(crate) fn at(self, line: usize) -> RowsFault {
        match self {
            LineFault::NoMemory => RowsFault::NoMemory,
            LineFault::Unknown => RowsFault::Unknown(line),
        }
    }
}

impl From<NoMemory> for LineFault {
    fn from(_error: NoMemory) -> LineFault {
        LineFault::NoMemory
    }
}

impl From<AllocError> for LineFault {
    fn from(_error: AllocError) -> LineFault {
        LineFault::NoMemory
    }
}

impl<T: Drop> From<AllocFailed<T>> for LineFault {
    fn from(_error: AllocFailed<T>) -> LineFault {
        LineFault::NoMemory
    }
}
