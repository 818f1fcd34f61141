//! Where bytes come from.

ghost use Rattle.std.specs.Prelude.{◌≡◌, ◌+◌, ◌≤◌, OnOk};
ghost use Rattle.std.specs.Io.{ReadsAtMost};
ghost use Rattle.std.specs.Io.KnownBytes.{ReadConsumes};
ghost use Rattle.py_outside.specs.Counting.{HasCause};
ghost use Rattle.py_outside.specs.Ends.{StaysSound, TellsEnd};
ghost use Rattle.py_outside.specs.Seen.{SourceSeen};

use thiserror::Error;

/// A read that failed, and moved nothing.
#[derive(Clone, Copy, Debug, PartialEq, Eq, Error)]
#[error("a read failed")]
pub struct ReadFailed;

/// A source of bytes. What contracts see of it is one value: the bytes that it has left, where it
/// tells them, its faults so far, the reads that were made of it, where it counts them, whether the
/// last read with room came to its end, and whether it is sound: no read of it fails.
pub trait Source {
    ghost seen: { Self → SourceSeen };

    /// Moves bytes to the front of the room, and returns how many. `Ok(0)` for a room that isn't
    /// empty is the end.
    fn read(&mut self, room: &mut [u8]) -> Result<usize, ReadFailed>
        ensures bound { ReadsAtMost result room.new }
        ensures bytes { ReadConsumes (seen self.old).left (seen self.new).left result room.new }
        ensures cause { HasCause (seen self.old).faults (seen self.new).faults result }
        ensures kept { OnOk result ((seen self.new).faults ≡ (seen self.old).faults) }
        ensures end { TellsEnd room.old (seen self.old).at_end (seen self.new).at_end result }
        ensures turns { (seen self.new).reads ≤ (seen self.old).reads + 1 }
        ensures sound { StaysSound (seen self.old) (seen self.new) result };
}
