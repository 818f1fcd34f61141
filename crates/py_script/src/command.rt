//! The top call: reads a script, runs it, and writes the text of its journal.

ghost use Rattle.std.specs.Prelude.{◌≡◌, ◌+◌, ◌≤◌, ◌^◌};
ghost use Rattle.py_script.specs.Causes.{IsAnswer, IsEnding, IsNoted, IsWritten, CountsReadFault, CountsWriteFault, ReadsSoundly, WritesAsked, WritesAskedSurely, WritesSurely, RunsScripts, RunsAskedScripts, RefusesScripts, RefusesAskedScripts, RunsSettle, AskedRunsSettle, status_in};
ghost use Rattle.py_script.specs.Steps.{result_in};

use crate::fault::{CommandResult, Ended, LoadFault, ScriptFault};
use crate::making::make;
use crate::notes::write_note;
use crate::read::{empty_journal, read_script};
use crate::session::run_drives;
use crate::words::{Command, Words, command_of};
use crate::write::write_text;
use py_outside::{Sink, Source};
use py_vm::{Journal, VmFault};
use std::alloc::Global;

/// Runs the script that the source holds, in at most so many turns, and writes the text of its journal. A run that spends
/// its turns is written as far as it came, and answered as `OutOfTurns`.
pub fn run_script<S: Source, K: Sink>(
    alloc: Global,
    source: &mut S,
    sink: &mut K,
    turns: u64,
) -> Result<Journal, ScriptFault>
    // What was read for the answer, and what was written of it.
    ensures answer { IsAnswer (S.seen source.old) (S.seen source.new) turns result }
    ensures written { IsWritten (K.seen sink.old) (K.seen sink.new) (result_in result) }
    // No fault without a cause, and none of a source that is sound or of a sink that is sure.
    ensures read_fault { CountsReadFault (S.seen source.old) (S.seen source.new) (result_in result) }
    ensures write_fault { CountsWriteFault (K.seen sink.old) (K.seen sink.new) (result_in result) }
    ensures sound { ReadsSoundly (S.seen source.old) (S.seen source.new) (result_in result) }
    ensures sure { WritesSurely (K.seen sink.old) (K.seen sink.new) (result_in result) }
    // A script is run where its raw codes keep the rules, else it is refused, and what its runs settle is answered.
    ensures complete { RunsScripts (S.seen source.old) (result_in result) }
    ensures refused { RefusesScripts (S.seen source.old) (result_in result) }
    ensures settled { RunsSettle (S.seen source.old) turns (result_in result) }
    ensures reads { (S.seen source.new).reads ≤ (S.seen source.old).reads + (2 ^ 20 + 1) }
{
    answer_of(alloc, source, sink, turns)
}

/// What `run_script` answers. That it runs scripts, and what their runs settle, follows from this.
fn answer_of<S: Source, K: Sink>(
    alloc: Global,
    source: &mut S,
    sink: &mut K,
    turns: u64,
) -> Result<Journal, ScriptFault>
    ensures answer { IsAnswer (S.seen source.old) (S.seen source.new) turns result }
    ensures written { IsWritten (K.seen sink.old) (K.seen sink.new) (result_in result) }
    ensures sound { ReadsSoundly (S.seen source.old) (S.seen source.new) (result_in result) }
    ensures sure { WritesSurely (K.seen sink.old) (K.seen sink.new) (result_in result) }
    ensures reads { (S.seen source.new).reads ≤ (S.seen source.old).reads + (2 ^ 20 + 1) }
{
    let script = read_script(alloc, source)?;
    let (journal, ran) = match run_drives(alloc, &script, turns) {
        Ok(ran) => ran,
        Err(LoadFault::Refused(code, at)) => return Err(ScriptFault::Refused(code, at)),
        Err(LoadFault::NoMemory) => return Err(ScriptFault::NoMemory(empty_journal(alloc))),
    };
    match ran {
        Ok(()) => write_text(alloc, sink, journal),
        Err(VmFault::OutOfTurns) => Err(ScriptFault::OutOfTurns(write_text(alloc, sink, journal)?)),
        Err(VmFault::NoMemory) => Err(ScriptFault::NoMemory(journal)),
        // A session is run once, and the raise of a drive is its answer.
        Err(VmFault::Failed) => unreachable!(),
        Err(VmFault::Exception(_)) => unreachable!(),
    }
}

/// The status that stands for an outcome.
fn status_of(outcome: &CommandResult) -> u8
    ensures { result ≡ status_in outcome.now }
{
    match outcome {
        CommandResult::Ran(_) => 0,
        CommandResult::Fault(fault) => status_of_fault(fault),
        CommandResult::Made(_) => 0,
        CommandResult::Usage => 64,
        CommandResult::NoMemory => 8,
    }
}

fn status_of_fault(fault: &ScriptFault) -> u8
    ensures { result ≡ status_in (CommandResult.Fault fault.now) }
{
    match fault {
        ScriptFault::Malformed(_) => 2,
        ScriptFault::Refused(_, _) => 3,
        ScriptFault::OutOfTurns(_) => 4,
        ScriptFault::ReadFault => 5,
        ScriptFault::WriteFault(_) => 6,
        ScriptFault::TooLong => 7,
        ScriptFault::NoMemory(_) => 8,
    }
}

/// What the words come to. Only `run` reads, and words that ask for nothing write nothing.
fn result_of<S: Source, K: Sink>(
    alloc: Global,
    words: &Words,
    source: &mut S,
    sink: &mut K,
) -> CommandResult
    ensures ending { IsEnding (S.seen source.old) (S.seen source.new) words.now result }
    ensures written { WritesAsked (K.seen sink.old) (K.seen sink.new) words.now result }
    ensures sound { ReadsSoundly (S.seen source.old) (S.seen source.new) result }
    ensures sure { WritesAskedSurely (K.seen sink.old) (K.seen sink.new) words.now result }
    ensures reads { (S.seen source.new).reads ≤ (S.seen source.old).reads + (2 ^ 20 + 1) }
{
    match command_of(words) {
        Command::Usage => CommandResult::Usage,
        Command::Run { turns } => match run_script(alloc, source, sink, turns) {
            Ok(journal) => CommandResult::Ran(journal),
            Err(fault) => CommandResult::Fault(fault),
        },
        Command::Make { seed, count } => make(alloc, sink, seed, count),
    }
}

/// Does all that the program does: what the words ask for, with a note of how it ended.
pub fn run_command<S: Source, K: Sink, N: Sink>(
    alloc: Global,
    words: &Words,
    source: &mut S,
    sink: &mut K,
    notes: &mut N,
) -> Ended
    ensures status { result.status ≡ status_in result.result }
    // What was read for the result, what was written of it, and what was noted.
    ensures ending { IsEnding (S.seen source.old) (S.seen source.new) words.now result.result }
    ensures written { WritesAsked (K.seen sink.old) (K.seen sink.new) words.now result.result }
    ensures note { IsNoted (N.seen notes.old) (N.seen notes.new) result.result }
    // No fault without a cause, and none of a source that is sound or of a sink that is sure.
    ensures read_fault { CountsReadFault (S.seen source.old) (S.seen source.new) result.result }
    ensures write_fault { CountsWriteFault (K.seen sink.old) (K.seen sink.new) result.result }
    ensures sound { ReadsSoundly (S.seen source.old) (S.seen source.new) result.result }
    ensures sure { WritesAskedSurely (K.seen sink.old) (K.seen sink.new) words.now result.result }
    // So is a script where the words ask for it: it is run where its raw codes keep the rules, else it is refused, and what its runs
    // settle is answered.
    ensures complete { RunsAskedScripts (S.seen source.old) words.now result.result }
    ensures refused { RefusesAskedScripts (S.seen source.old) words.now result.result }
    ensures settled { AskedRunsSettle (S.seen source.old) words.now result.result }
    ensures reads { (S.seen source.new).reads ≤ (S.seen source.old).reads + (2 ^ 20 + 1) }
{
    let result = result_of(alloc, words, source, sink);
    let status = status_of(&result);
    write_note(notes, &result);
    Ended { status, result }
}
