//! Scripts from bytes to lines: how they are read and run, and what is written.
#![tactic(auto)]

mod command;
mod declaring;
mod fault;
mod journal;
mod laws;
mod loading;
mod making;
mod notes;
mod read;
mod session;
mod text;
mod words;
mod worked_answer;
mod worked_unit;
mod write;

pub use command::{run_command, run_script};
pub use fault::{CommandResult, Ended, LoadFault, ScriptFault};
pub use journal::journal_text;
pub use laws::laws_of_refusals;
pub use loading::load_script;
pub use py_grammar::{
    DeclList, Declaration, DriveAtom, DriveAtomList, DriveLine, DriveList, ParseFault, Script,
    parse_script,
};
pub use py_make::{MOST_GROUPS, Summary, make_script};
pub use py_outside::{
    LIMIT, ReadFailed, Sink, SinkMemory, Source, SourceMemory, StdSink, StdSource, WriteFailed,
    write_bytes,
};
pub use py_vm::Journal;
pub use read::read_bytes;
pub use session::Session;
pub use words::{Command, Words, command_of};
pub use worked_answer::worked_answers;
pub use worked_unit::worked_units;
