//! Writing bytes whole.

ghost use Rattle.std.specs.Prelude.{OnOk, OnErr};
ghost use Rattle.py_outside.specs.Counting.{HasCause};
ghost use Rattle.py_outside.specs.Transfer.{AppendsAll, AppendsFront, WritesSurely};

use crate::sink::{Sink, WriteFailed};

/// Writes the bytes, in as many pieces as the sink takes them.
pub fn write_bytes<K: Sink>(sink: &mut K, bytes: &[u8]) -> Result<(), WriteFailed>
    ensures whole { OnOk result (AppendsAll (K.seen sink.old) (K.seen sink.new) bytes.now) }
    ensures front { OnErr result (AppendsFront (K.seen sink.old) (K.seen sink.new) bytes.now) }
    ensures cause { HasCause (K.seen sink.old).faults (K.seen sink.new).faults result }
    ensures sure { WritesSurely (K.seen sink.old) (K.seen sink.new) bytes.now result }
{
    let mut done = 0;
    while done < bytes.len() {
        done += sink.write(&bytes[done..])?;
    }
    Ok(())
}
