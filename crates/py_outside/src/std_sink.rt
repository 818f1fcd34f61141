//! Writers of std as sinks, which count their own faults.

ghost use Rattle.std.specs.Prelude.{◌≡◌, IfOk};
ghost use Rattle.std.specs.Io.{WritesAtMost};
ghost use Rattle.std.specs.Io.KnownBytes.{WriteAppends};
ghost use Rattle.py_outside.specs.Counting.{HasCause, CountsFailure};
ghost use Rattle.py_outside.specs.Transfer.{TakesSome};

use crate::sink::{Sink, WriteFailed};
use std::io::Write;

/// A writer of std. It tells the bytes that the writer tells.
#[derive(Drop)]
pub struct StdSink<W: Write + Drop> {
    inner: W,
    faults: u64,
}

impl<W: Write + Drop> StdSink<W> {
    ghost use Rattle.py_outside.specs.Sinks.{writer_of, write_faults};

    /// The writer as a sink that has met no fault.
    pub fn new(inner: W) -> StdSink<W>
        ensures writer { writer_of result ≡ inner }
        ensures faults { write_faults result ≡ 0 }
    {
        StdSink { inner, faults: 0 }
    }
}

impl<W: Write + Drop> Sink for StdSink<W> {
    ghost use Rattle.py_outside.specs.Sinks.{writer_of, write_faults};

    ghost seen = { λ s. record { taken = W.contents (writer_of s); faults = write_faults s; sure = 0 } };

    /// Writes once. Any error of the writer is a fault, and so is that it takes nothing of a piece
    /// that isn't empty.
    fn write(&mut self, piece: &[u8]) -> Result<usize, WriteFailed>
        ensures bound { WritesAtMost result piece.now }
        ensures some { IfOk result (TakesSome piece.now) }
        ensures bytes { WriteAppends (W.contents (writer_of self.old)) (W.contents (writer_of self.new)) result piece.now }
        ensures cause { HasCause (write_faults self.old) (write_faults self.new) result }
        ensures counted { CountsFailure (write_faults self.old) (write_faults self.new) result }
    {
        match self.inner.write(piece) {
            Ok(0) if !piece.is_empty() => {
                self.faults = self.faults.saturating_add(1);
                Err(WriteFailed)
            }
            Ok(count) => Ok(count),
            Err(_) => {
                self.faults = self.faults.saturating_add(1);
                Err(WriteFailed)
            }
        }
    }
}
