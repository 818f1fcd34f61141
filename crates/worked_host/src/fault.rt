//! Why the host stops.

use py_code::NoMemory;
use py_vm::VmFault;
use std::{fmt, io};

/// Why the host stops.
#[derive(Debug, Drop)]
pub(crate) enum HostFault {
    /// A call has no answer.
    Machine(VmFault),
    /// What happened can't be printed.
    Print,
}

impl fmt::Display for HostFault {
    fn fmt<W: fmt::Write>(&self, f: &mut fmt::Formatter<W>) -> fmt::Result {
        match self {
            HostFault::Machine(VmFault::NoMemory) => write!(f, "out of memory"),
            HostFault::Machine(VmFault::Failed) => write!(f, "the machine has failed before"),
            HostFault::Machine(VmFault::OutOfTurns) => write!(f, "out of turns"),
            HostFault::Machine(VmFault::Exception(_)) => write!(f, "too deep"),
            HostFault::Print => write!(f, "what happened can't be printed"),
        }
    }
}

impl From<NoMemory> for HostFault {
    fn from(_error: NoMemory) -> HostFault {
        HostFault::Machine(VmFault::NoMemory)
    }
}

impl From<VmFault> for HostFault {
    fn from(fault: VmFault) -> HostFault {
        HostFault::Machine(fault)
    }
}

impl From<io::Error> for HostFault {
    fn from(_error: io::Error) -> HostFault {
        HostFault::Print
    }
}
