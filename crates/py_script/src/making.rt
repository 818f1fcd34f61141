//! The command that makes a script from a seed, runs it, and writes what its drives came to.

ghost use Rattle.std.specs.Prelude.{◌≤◌, IfOk};
ghost use Rattle.py_make.specs.Made.{made_text, most_groups};
ghost use Rattle.py_script.specs.Making.{making_in, EndsMade, IsEndOfRun, IsWholeBy, WritesMade, WritesMadeSurely};

use crate::fault::{CommandResult, LoadFault, ScriptFault};
use crate::session::run_drives;
use crate::words::TURNS;
use py_code::NoMemory;
use py_grammar::{ParseFault, parse_script};
use py_make::{Summary, make_script};
use py_outside::{Sink, write_bytes};
use py_vm::{Journal, VmFault};
use std::alloc::Global;

/// Makes the script of a seed, with so many groups of drives, runs it, and writes the line that says what its drives came to.
pub(crate) fn make<K: Sink>(alloc: Global, sink: &mut K, seed: u64, count: u64) -> CommandResult
    requires { count ≤ most_groups }
    ensures ends { EndsMade (made_text seed count) (making_in result) }
    ensures written { WritesMade (K.seen sink.old) (K.seen sink.new) (making_in result) }
    ensures sure { WritesMadeSurely (K.seen sink.old) (K.seen sink.new) (making_in result) }
{
    match run_made(alloc, seed, count) {
        Ok(journal) => write_summary(alloc, sink, journal),
        Err(NoMemory) => CommandResult::NoMemory,
    }
}

/// The journal of the whole run of a made script.
fn run_made(alloc: Global, seed: u64, count: u64) -> Result<Journal, NoMemory>
    requires { count ≤ most_groups }
    ensures { IfOk result (IsWholeBy (made_text seed count)) }
{
    let text = make_script(alloc, seed, count)?;
    let script = match parse_script(alloc, text.as_slice()) {
        Ok(script) => script,
        // Each text that is made is a script.
        Err(ParseFault::Malformed(_)) => unreachable!(),
        Err(ParseFault::NoMemory) => return Err(NoMemory),
    };
    let (journal, ran) = match run_drives(alloc, &script, TURNS) {
        Ok(ran) => ran,
        // No text that is made has a raw code.
        Err(LoadFault::Refused(_, _)) => unreachable!(),
        Err(LoadFault::NoMemory) => return Err(NoMemory),
    };
    match ran {
        Ok(()) => Ok(journal),
        Err(VmFault::NoMemory) => Err(NoMemory),
        // Each text that is made has a run to its end, of at most 37 events a group, and no run of a script is longer than a whole one.
        Err(VmFault::OutOfTurns) => unreachable!(),
        // A session is run once, and the raise of a drive is its answer.
        Err(VmFault::Failed) => unreachable!(),
        Err(VmFault::Exception(_)) => unreachable!(),
    }
}

/// Writes the line of a whole run, which is made whole before its first byte is written.
fn write_summary<K: Sink>(alloc: Global, sink: &mut K, journal: Journal) -> CommandResult
    ensures run { IsEndOfRun journal (making_in result) }
    ensures written { WritesMade (K.seen sink.old) (K.seen sink.new) (making_in result) }
    ensures sure { WritesMadeSurely (K.seen sink.old) (K.seen sink.new) (making_in result) }
{
    let summary = Summary::of(journal.events.as_slice());
    let Ok(line) = summary.line(alloc) else {
        return CommandResult::NoMemory;
    };
    match write_bytes(sink, line.as_bytes()) {
        Ok(()) => CommandResult::Made(summary),
        Err(_) => CommandResult::Fault(ScriptFault::WriteFault(journal)),
    }
}
