//! What a run of a script, and a whole command, come to.

ghost use Rattle.std.specs.Prelude.{◌≡◌};
ghost use Rattle.py_script.specs.declared.fault.LoadFault.TheVariants as LoadFault;

use py_code::NoMemory;
use py_make::Summary;
use py_vm::Journal;
use thiserror::Error;

/// Why a script wasn't loaded.
#[derive(Clone, Copy, Debug, PartialEq, Eq, Error)]
pub enum LoadFault {
    /// A raw code breaks a rule: its number among the codes, from 0, and the unit.
    #[error("code {0} was refused at unit {1}")]
    Refused(usize, usize),
    /// Memory ran out.
    #[error("memory ran out")]
    NoMemory,
}

impl From<NoMemory> for LoadFault {
    ghost from_gives = { λ _ fault. fault ≡ LoadFault.NoMemory };

    fn from(_error: NoMemory) -> LoadFault {
        LoadFault::NoMemory
    }
}

/// Why a script wasn't run to its end and written.
#[derive(Debug, Drop, Error)]
pub enum ScriptFault {
    /// A read of the source failed.
    #[error("a read failed")]
    ReadFault,
    /// A write to the sink failed; the journal is that of the run.
    #[error("a write failed")]
    WriteFault(Journal),
    /// The source had more than 2^20 bytes.
    #[error("there are more than 2^20 bytes")]
    TooLong,
    /// The bytes are no script; the line is the first bad one, from 1.
    #[error("the bytes are no script: the first bad line is {0}")]
    Malformed(u64),
    /// A raw code breaks a rule: its number among the codes, from 0, and the unit.
    #[error("code {0} was refused at unit {1}")]
    Refused(usize, usize),
    /// The turns were spent before the run was whole; the journal is that of the run.
    #[error("the turns were spent")]
    OutOfTurns(Journal),
    /// Memory ran out; the journal is that of the run so far, or an empty one where nothing ran.
    #[error("memory ran out")]
    NoMemory(Journal),
}

/// What a command came to.
#[derive(Debug, Drop)]
pub enum CommandResult {
    /// The script ran whole, and its text is written.
    Ran(Journal),
    /// It didn't.
    Fault(ScriptFault),
    /// A script was made from a seed and run, and the line of its summary is written.
    Made(Summary),
    /// The words ask for nothing.
    Usage,
    /// Memory ran out while a script was made.
    NoMemory,
}

/// How a command ended: the status that the program ends with, and what it stands for.
#[derive(Debug, Drop)]
pub struct Ended {
    pub status: u8,
    pub result: CommandResult,
}
