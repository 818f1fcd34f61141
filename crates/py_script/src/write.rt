//! Writing the text of a journal to a sink.

ghost use Rattle.py_script.specs.Causes.{WritesSurely};
ghost use Rattle.py_script.specs.Steps.{IsWriting, result_in};

use crate::fault::ScriptFault;
use crate::journal::journal_text;
use py_outside::{Sink, write_bytes};
use py_vm::Journal;
use std::alloc::Global;

/// Writes the text of a journal, which is made whole before its first byte is written, and hands the journal back.
pub(crate) fn write_text<K: Sink>(
    alloc: Global,
    sink: &mut K,
    journal: Journal,
) -> Result<Journal, ScriptFault>
    ensures writing { IsWriting (K.seen sink.old) (K.seen sink.new) journal result }
    ensures sure { WritesSurely (K.seen sink.old) (K.seen sink.new) (result_in result) }
{
    let text = match journal_text(alloc, &journal) {
        Ok(text) => text,
        Err(_) => return Err(ScriptFault::NoMemory(journal)),
    };
    match write_bytes(sink, text.as_slice()) {
        Ok(()) => Ok(journal),
        Err(_) => Err(ScriptFault::WriteFault(journal)),
    }
}
