//! Notes: the line that is written of each outcome, for which no memory is taken.

ghost use Rattle.std.specs.Prelude.{◌≤◌, OnOk, decimal};
ghost use Rattle.py_outside.specs.Counting.{HasCause};
ghost use Rattle.py_outside.specs.Transfer.{AppendsAll};
ghost use Rattle.py_script.specs.declared.fault.ScriptFault.TheVariants.{Malformed, Refused};
ghost use Rattle.py_script.specs.Causes.{HasNote, IsNoted};
ghost use Rattle.py_script.specs.Noting.{AppendsNumbered, NotesFault};

use crate::fault::{CommandResult, ScriptFault};
use py_outside::{Sink, WriteFailed, write_bytes};

/// Writes the note of an outcome. Where a write fails, the rest of the note isn't written.
pub(crate) fn write_note<N: Sink>(notes: &mut N, outcome: &CommandResult)
    ensures noted { IsNoted (N.seen notes.old) (N.seen notes.new) outcome.now }
    ensures later { (N.seen notes.old).faults ≤ (N.seen notes.new).faults }
{
    match try_note(notes, outcome) {
        Ok(()) => (),
        Err(_) => (),
    }
}

fn try_note<N: Sink>(notes: &mut N, outcome: &CommandResult) -> Result<(), WriteFailed>
    ensures whole { OnOk result (HasNote (N.seen notes.old) (N.seen notes.new) outcome.now) }
    ensures cause { HasCause (N.seen notes.old).faults (N.seen notes.new).faults result }
{
    match outcome {
        CommandResult::Ran(_) => write_bytes(notes, b""),
        CommandResult::Fault(fault) => note_fault(notes, fault),
        CommandResult::Made(_) => write_bytes(notes, b""),
        CommandResult::Usage => {
            write_bytes(notes, b"usage: pyrun run [TURNS] or make SEED COUNT\n")
        }
        CommandResult::NoMemory => write_bytes(notes, b"out of memory\n"),
    }
}

fn note_fault<N: Sink>(notes: &mut N, fault: &ScriptFault) -> Result<(), WriteFailed>
    ensures whole { OnOk result (NotesFault (N.seen notes.old) (N.seen notes.new) fault.now) }
    ensures cause { HasCause (N.seen notes.old).faults (N.seen notes.new).faults result }
{
    match fault {
        ScriptFault::ReadFault => write_bytes(notes, b"read fault\n"),
        ScriptFault::WriteFault(_) => write_bytes(notes, b"write fault\n"),
        ScriptFault::TooLong => write_bytes(notes, b"too long\n"),
        ScriptFault::Malformed(line) => note_malformed(notes, *line),
        ScriptFault::Refused(code, at) => note_refused(notes, *code as u64, *at as u64),
        ScriptFault::OutOfTurns(_) => write_bytes(notes, b"out of turns\n"),
        ScriptFault::NoMemory(_) => write_bytes(notes, b"out of memory\n"),
    }
}

fn note_malformed<N: Sink>(notes: &mut N, line: u64) -> Result<(), WriteFailed>
    ensures whole { OnOk result (NotesFault (N.seen notes.old) (N.seen notes.new) (Malformed line)) }
    ensures cause { HasCause (N.seen notes.old).faults (N.seen notes.new).faults result }
{
    write_numbered(notes, b"malformed: line ", line)?;
    write_bytes(notes, b"\n")
}

fn note_refused<N: Sink>(notes: &mut N, code: u64, at: u64) -> Result<(), WriteFailed>
    ensures whole { OnOk result (NotesFault (N.seen notes.old) (N.seen notes.new) (Refused code at)) }
    ensures cause { HasCause (N.seen notes.old).faults (N.seen notes.new).faults result }
{
    write_numbered(notes, b"refused: code ", code)?;
    write_numbered(notes, b" at unit ", at)?;
    write_bytes(notes, b"\n")
}

fn write_numbered<N: Sink>(notes: &mut N, words: &[u8], number: u64) -> Result<(), WriteFailed>
    ensures whole { OnOk result (AppendsNumbered (N.seen notes.old) (N.seen notes.new) words.now number) }
    ensures cause { HasCause (N.seen notes.old).faults (N.seen notes.new).faults result }
{
    write_bytes(notes, words)?;
    write_decimal(notes, number)
}

fn write_decimal<N: Sink>(notes: &mut N, number: u64) -> Result<(), WriteFailed>
    ensures whole { OnOk result (AppendsAll (N.seen notes.old) (N.seen notes.new) (decimal number)) }
    ensures cause { HasCause (N.seen notes.old).faults (N.seen notes.new).faults result }
{
    if number < 10 {
        return write_bytes(notes, &[b'0' + number as u8]);
    }
    write_decimal(notes, number / 10)?;
    write_bytes(notes, &[b'0' + (number % 10) as u8])
}
