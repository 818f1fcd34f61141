//! A source in memory, which fails where it is told to.

ghost use Rattle.std.specs.Prelude.{◌≡◌, ◌+◌, ◌≤◌, ◌<◌, ◌↔◌, length, Some, IsErr, IfOk, OnOk, OnErr};
ghost use Rattle.std.specs.Io.{ReadsAtMost};
ghost use Rattle.std.specs.Io.KnownBytes.{ReadConsumes};
ghost use Rattle.py_outside.specs.Counting.{HasCause};
ghost use Rattle.py_outside.specs.Ends.{StaysSound, TellsEnd};
ghost use Rattle.py_outside.specs.Sources.{new_source, source_seen, HasGiven, HasGivenNone, IsFilledBy, ReadIsListed};

use crate::source::{ReadFailed, Source};
use std::marker::Model;

/// A source over bytes in memory. Its calls are numbered from 1; one with an empty room has no
/// number, and doesn't fail.
#[derive(Drop)]
pub struct SourceMemory {
    bytes: Vec<u8>,
    start: usize,
    fails: Vec<u64>,
    most: usize,
    calls: u64,
    faults: u64,
    at_end: bool,
}

impl Model for SourceMemory {
    ghost use Rattle.std.specs.Prelude.{◌≤◌, drop, vec_len};
    ghost use Rattle.py_outside.specs.Sources.{SourceState, source_code};

    ghost Value = { SourceState };

    ghost coded = { source_code };

    ghost view = { λ s. record { left = drop s.start s.bytes.items; fails = s.fails.items; most = s.most; calls = s.calls; faults = s.faults; at_end = s.at_end } };

    ghost invariant = { λ s. (s.start ≤ vec_len s.bytes) × (1 ≤ s.most) };
}

impl SourceMemory {
    /// A source of these bytes. The calls whose numbers are listed fail, and a call moves at most
    /// `most` bytes.
    pub fn new(bytes: Vec<u8>, fails: Vec<u64>, most: usize) -> SourceMemory
        requires { 1 ≤ most }
        ensures { result ≡ new_source bytes.items fails.items most }
    {
        SourceMemory {
            bytes,
            start: 0,
            fails,
            most,
            calls: 0,
            faults: 0,
            at_end: false,
        }
    }
}

impl Source for SourceMemory {
    ghost seen = { λ s. source_seen s };

    /// Moves as many bytes as are left, fit and may be moved by one call.
    fn read(&mut self, room: &mut [u8]) -> Result<usize, ReadFailed>
        ensures bound { ReadsAtMost result room.new }
        ensures bytes { ReadConsumes (Some self.old.left) (Some self.new.left) result room.new }
        ensures cause { HasCause self.old.faults self.new.faults result }
        ensures kept { OnOk result (self.new.faults ≡ self.old.faults) }
        ensures end { TellsEnd room.old self.old.at_end self.new.at_end result }
        ensures turns { self.new.calls ≤ self.old.calls + 1 }
        ensures sound { StaysSound (source_seen self.old) (source_seen self.new) result }

        // An empty room changes nothing. With another, just the listed calls fail.
        ensures no_room { length room.old ≡ 0 → (result ≡ Ok 0) × (self.new ≡ self.old) }
        ensures listed { 0 < length room.old → (IsErr result ↔ ReadIsListed self.old) }

        // The other calls move all that they may.
        ensures moved { 0 < length room.old → IfOk result (HasGiven self.old self.new room.old) }
        ensures err { OnErr result (HasGivenNone self.old self.new room.old room.new) }
        ensures rest { IfOk result (IsFilledBy self.old.left room.old room.new) }
    {
        if room.is_empty() {
            return Ok(0);
        }
        self.calls = self.calls.saturating_add(1);
        if self.fails.contains(&self.calls) {
            self.faults = self.faults.saturating_add(1);
            self.at_end = false;
            return Err(ReadFailed);
        }
        let rest = &self.bytes[self.start..];
        let count = rest.len().min(room.len()).min(self.most);
        room[..count].copy_from_slice(&rest[..count]);
        self.start += count;
        self.at_end = count == 0;
        Ok(count)
    }
}
