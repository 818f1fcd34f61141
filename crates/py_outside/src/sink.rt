//! Where bytes go.

ghost use Rattle.std.specs.Prelude.{IfOk};
ghost use Rattle.std.specs.Io.{WritesAtMost};
ghost use Rattle.std.specs.Io.KnownBytes.{WriteAppends};
ghost use Rattle.py_outside.specs.Counting.{HasCause};
ghost use Rattle.py_outside.specs.Seen.{SinkSeen};
ghost use Rattle.py_outside.specs.Transfer.{LessSureBy, TakesSome, TakesSurely};

use thiserror::Error;

/// A write that failed, and took nothing.
#[derive(Clone, Copy, Debug, PartialEq, Eq, Error)]
#[error("a write failed")]
pub struct WriteFailed;

/// A sink of bytes. What contracts see of it is one value: the bytes that it has taken, where it
/// tells them, its faults so far, and how many bytes it still takes for sure, with no fault.
pub trait Sink {
    ghost seen: { Self → SinkSeen };

    /// Takes a front of the piece, and returns how many bytes: at least one of a piece that isn't
    /// empty.
    fn write(&mut self, piece: &[u8]) -> Result<usize, WriteFailed>
        ensures bound { WritesAtMost result piece.now }
        ensures some { IfOk result (TakesSome piece.now) }
        ensures bytes { WriteAppends (seen self.old).taken (seen self.new).taken result piece.now }
        ensures cause { HasCause (seen self.old).faults (seen self.new).faults result }
        ensures sure { TakesSurely (seen self.old) (seen self.new) piece.now result }
        ensures still { IfOk result (LessSureBy (seen self.old) (seen self.new)) };
}
