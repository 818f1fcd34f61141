//! Readers of std as sources, which count their own faults.

ghost use Rattle.std.specs.Prelude.{◌≡◌, false, OnOk};
ghost use Rattle.std.specs.Io.{ReadsAtMost};
ghost use Rattle.std.specs.Io.KnownBytes.{ReadConsumes};
ghost use Rattle.py_outside.specs.Counting.{HasCause, CountsFailure};
ghost use Rattle.py_outside.specs.Ends.{TellsEnd};

use crate::source::{ReadFailed, Source};
use std::io::Read;

/// A reader of std. It tells the bytes that the reader tells, and doesn't count its reads.
#[derive(Drop)]
pub struct StdSource<R: Read + Drop> {
    inner: R,
    faults: u64,
    at_end: bool,
}

impl<R: Read + Drop> StdSource<R> {
    ghost use Rattle.py_outside.specs.Sources.{reader_of, read_faults, read_ended};

    /// The reader as a source that has met no fault.
    pub fn new(inner: R) -> StdSource<R>
        ensures reader { reader_of result ≡ inner }
        ensures faults { read_faults result ≡ 0 }
        ensures end { read_ended result ≡ false }
    {
        StdSource {
            inner,
            faults: 0,
            at_end: false,
        }
    }
}

impl<R: Read + Drop> Source for StdSource<R> {
    ghost use Rattle.py_outside.specs.Sources.{reader_of, read_faults, read_ended};

    ghost seen = { λ s. record { left = R.remaining (reader_of s); faults = read_faults s; reads = 0; at_end = read_ended s; is_sound = false } };

    /// Reads once. Any error of the reader is a fault.
    fn read(&mut self, room: &mut [u8]) -> Result<usize, ReadFailed>
        ensures bound { ReadsAtMost result room.new }
        ensures bytes { ReadConsumes (R.remaining (reader_of self.old)) (R.remaining (reader_of self.new)) result room.new }
        ensures cause { HasCause (read_faults self.old) (read_faults self.new) result }
        ensures kept { OnOk result (read_faults self.new ≡ read_faults self.old) }
        ensures end { TellsEnd room.old (read_ended self.old) (read_ended self.new) result }
        ensures counted { CountsFailure (read_faults self.old) (read_faults self.new) result }
    {
        let asks = !room.is_empty();
        match self.inner.read(room) {
            Ok(count) => {
                if asks {
                    self.at_end = count == 0;
                }
                Ok(count)
            }
            Err(_) => {
                self.faults = self.faults.saturating_add(1);
                if asks {
                    self.at_end = false;
                }
                Err(ReadFailed)
            }
        }
    }
}
