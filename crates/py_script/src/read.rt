//! Reading a script from a source.

ghost use Rattle.std.specs.Prelude.{◌≤◌, ◌+◌, ◌^◌, IfOk, IfErr, OnOk, OnErr, IsTrue, length, vec_len};
ghost use Rattle.py_outside.specs.Reading.{HasRead, IsCounted, LosesUpTo, StaysUntouched};
ghost use Rattle.py_grammar.specs.WellFormed.{IsWellFormed};
ghost use Rattle.py_script.specs.Answered.{IsEmpty};
ghost use Rattle.py_script.specs.declared.fault.ScriptFault.TheVariants.{ReadFault};
ghost use Rattle.py_script.specs.Steps.{IsParsed, IsReadFault, IsReading};

use crate::fault::ScriptFault;
use py_code::{CodeList, Names};
use py_grammar::{ParseFault, Script, parse_script};
use py_objects::{ChangeList, EventList, PayloadList};
use py_outside::{ReadError, Source};
use py_vm::Journal;
use std::alloc::Global;

/// The journal of a run that hasn't begun.
pub(crate) fn empty_journal(alloc: Global) -> Journal
    ensures { IsEmpty result }
{
    Journal {
        events: EventList::new(alloc),
        objects: PayloadList::new(alloc),
        changes: ChangeList::new(alloc),
        codes: CodeList::new(alloc, Names::new(alloc)),
    }
}

/// The script that bytes are.
fn parse_bytes(alloc: Global, bytes: &[u8]) -> Result<Script, ScriptFault>
    requires { length bytes.now ≤ 2 ^ 20 }
    ensures parsed { IsParsed bytes.now result }
    ensures well { IfOk result IsWellFormed }
{
    match parse_script(alloc, bytes) {
        Ok(script) => Ok(script),
        Err(ParseFault::Malformed(line)) => Err(ScriptFault::Malformed(line)),
        Err(ParseFault::NoMemory) => Err(ScriptFault::NoMemory(empty_journal(alloc))),
    }
}

/// Reads to the end of the source, or to the byte after the 2^20th. What was read before a fault is lost.
pub fn read_bytes<S: Source>(alloc: Global, source: &mut S) -> Result<Vec<u8>, ScriptFault>
    // Exactly the bytes that it had left, where it tells them, and then its end.
    ensures read { IfOk result (λ bytes. HasRead (S.seen source.old) (S.seen source.new) bytes.items) }
    ensures short { IfOk result (λ bytes. vec_len bytes ≤ 2 ^ 20) }
    ensures end { OnOk result (IsTrue (S.seen source.new).at_end) }
    // A fault comes by its cause, and what was taken of the source is gone.
    ensures fault { IfErr result (IsReadFault (S.seen source.old) (S.seen source.new)) }
    ensures lost { OnErr result (LosesUpTo (S.seen source.old) (S.seen source.new) (2 ^ 20 + 1)) }
    ensures counted { IsCounted ReadFault (S.seen source.old) (S.seen source.new) result }
    ensures sound { StaysUntouched ReadFault (S.seen source.old) (S.seen source.new) result }
    ensures reads { (S.seen source.new).reads ≤ (S.seen source.old).reads + (2 ^ 20 + 1) }
{
    match py_outside::read_bytes(alloc, source) {
        Ok(bytes) => Ok(bytes),
        Err(ReadError::Fault) => Err(ScriptFault::ReadFault),
        Err(ReadError::TooLong) => Err(ScriptFault::TooLong),
        Err(ReadError::NoMemory) => Err(ScriptFault::NoMemory(empty_journal(alloc))),
    }
}

/// The script that the source holds.
pub(crate) fn read_script<S: Source>(alloc: Global, source: &mut S) -> Result<Script, ScriptFault>
    ensures reading { IsReading (S.seen source.old) (S.seen source.new) result }
    ensures well { IfOk result IsWellFormed }
    ensures sound { StaysUntouched ReadFault (S.seen source.old) (S.seen source.new) result }
    ensures reads { (S.seen source.new).reads ≤ (S.seen source.old).reads + (2 ^ 20 + 1) }
{
    let bytes = read_bytes(alloc, source)?;
    parse_bytes(alloc, bytes.as_slice())
}
