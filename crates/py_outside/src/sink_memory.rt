//! A sink over memory, which fails where it is told to.

ghost use Rattle.std.specs.Prelude.{◌≡◌, ◌≤◌, ◌<◌, ◌⊎◌, length, Some, IsErr, IfOk, OnErr};
ghost use Rattle.std.specs.Io.{WritesAtMost};
ghost use Rattle.std.specs.Io.KnownBytes.{WriteAppends};
ghost use Rattle.py_outside.specs.Counting.{HasCause};
ghost use Rattle.py_outside.specs.Sinks.{new_sink, sink_seen, failed_sink, HasNoRoom, HasTaken, IsFull, WriteIsListed};
ghost use Rattle.py_outside.specs.Transfer.{LessSureBy, TakesSome, TakesSurely};

use crate::sink::{Sink, WriteFailed};
use py_code::NoMemory;
use std::alloc::Global;
use std::marker::Model;

/// A sink over memory. Its calls are numbered from 1; one with an empty piece has no number, and
/// doesn't fail.
#[derive(Drop)]
pub struct SinkMemory {
    bytes: Vec<u8>,
    fails: Vec<u64>,
    most: usize,
    room: usize,
    calls: u64,
    faults: u64,
}

impl Model for SinkMemory {
    ghost use Rattle.std.specs.Prelude.{◌≤◌, vec_len, vec_capacity};
    ghost use Rattle.py_outside.specs.Sinks.{SinkState, sink_code};

    ghost Value = { SinkState };

    ghost coded = { sink_code };

    ghost view = { λ s. record { taken = s.bytes.items; fails = s.fails.items; most = s.most; room = s.room; calls = s.calls; faults = s.faults } };

    ghost invariant = { λ s. (vec_len s.bytes ≤ s.room) × (s.room ≤ vec_capacity s.bytes) × (1 ≤ s.most) };
}

impl SinkMemory {
    /// A sink for `room` bytes, whose memory is taken here, so that writes take none. The calls
    /// whose numbers are listed fail, and a call takes at most `most` bytes.
    pub fn new(
        alloc: Global,
        fails: Vec<u64>,
        most: usize,
        room: usize,
    ) -> Result<SinkMemory, NoMemory>
        requires { 1 ≤ most }
        ensures { IfOk result (λ sink. sink ≡ new_sink fails.items most room) }
    {
        Ok(SinkMemory {
            bytes: Vec::with_capacity(alloc, room)?,
            fails,
            most,
            room,
            calls: 0,
            faults: 0,
        })
    }

    /// The bytes that were taken.
    pub fn bytes(&self) -> &[u8]
        ensures { result.now ≡ self.now.taken }
    {
        self.bytes.as_slice()
    }
}

impl Sink for SinkMemory {
    ghost seen = { λ s. sink_seen s };

    /// Takes as many bytes as there are, are free and may be taken by one call.
    fn write(&mut self, piece: &[u8]) -> Result<usize, WriteFailed>
        ensures bound { WritesAtMost result piece.now }
        ensures some { IfOk result (TakesSome piece.now) }
        ensures bytes { WriteAppends (Some self.old.taken) (Some self.new.taken) result piece.now }
        ensures cause { HasCause self.old.faults self.new.faults result }
        ensures sure { TakesSurely (sink_seen self.old) (sink_seen self.new) piece.now result }
        ensures still { IfOk result (LessSureBy (sink_seen self.old) (sink_seen self.new)) }

        // An empty piece changes nothing. With another, just the listed calls fail, and those of a full sink.
        ensures no_piece { length piece.now ≡ 0 → (result ≡ Ok 0) × (self.new ≡ self.old) }
        ensures listed { 0 < length piece.now → WriteIsListed self.old → IsErr result }
        ensures full { 0 < length piece.now → HasNoRoom self.old → IsErr result }
        ensures only { OnErr result (WriteIsListed self.old ⊎ IsFull self.old) }

        // The other calls take all that they may.
        ensures moved { 0 < length piece.now → IfOk result (HasTaken self.old self.new piece.now) }
        ensures err { OnErr result (self.new ≡ failed_sink self.old) }
    {
        if piece.is_empty() {
            return Ok(0);
        }
        self.calls = self.calls.saturating_add(1);
        let free = self.room - self.bytes.len();
        if free == 0 || self.fails.contains(&self.calls) {
            self.faults = self.faults.saturating_add(1);
            return Err(WriteFailed);
        }
        let count = piece.len().min(free).min(self.most);
        match self.bytes.extend_from_slice(&piece[..count]) {
            Ok(()) => Ok(count),
            Err(_) => unreachable!(),
        }
    }
}
