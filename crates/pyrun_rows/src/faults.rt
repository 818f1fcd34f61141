//! Rows that are run with each call of their streams failing in turn.

ghost use Rattle.std.specs.Prelude.{◌≤◌};

use crate::outcome::{wanted, wanted_front};
use crate::report::Report;
use crate::row::Row;
use crate::run::{Failing, Way, words_of};
use py_code::NoMemory;
use py_script::Words;

/// How a run ends of which a read fails.
const NOT_READ: &str = "5 read fault";

/// How a run ends of which a write fails.
const NOT_WRITTEN: &str = "6 write fault";

/// How many calls move so many bytes, at most `piece` a call.
fn calls_of(bytes: usize, piece: usize) -> usize
    requires { 1 ≤ piece }
{
    bytes.div_ceil(piece)
}

impl Report {
    /// Runs a row with each of its numbers of bytes a call: whole, and with each read and each write failing in turn. Each run counts as a row.
    pub(crate) fn check_faults(&mut self, row: &Row) -> Result<(), NoMemory> {
        let words = words_of(self.alloc, row.command())?;
        for piece in row.faults.as_slice() {
            let piece = (*piece).max(1);
            let whole = wanted(self.alloc, row, row.status.as_str(), u64::MAX)?;
            self.check_way(row, &words, Way::of(piece), whole.as_slice())?;
            self.check_reads(row, &words, piece)?;
            self.check_writes(row, &words, piece)?;
        }
        Ok(())
    }

    /// Has each read fail in turn, of which the last tells the end. Nothing is written.
    fn check_reads(&mut self, row: &Row, words: &Words, piece: usize) -> Result<(), NoMemory>
        requires { 1 ≤ piece }
    {
        let none = wanted_front(self.alloc, row, NOT_READ, 0)?;
        for before in 0..calls_of(row.script.len(), piece).saturating_add(1) {
            let failing = Failing::Read((before as u64).saturating_add(1));
            self.check_way(row, words, Way { piece, failing }, none.as_slice())?;
        }
        Ok(())
    }

    /// Has each write of the text fail in turn, behind what those before have written.
    fn check_writes(&mut self, row: &Row, words: &Words, piece: usize) -> Result<(), NoMemory>
        requires { 1 ≤ piece }
    {
        for before in 0..calls_of(row.text_len(), piece) {
            let front = wanted_front(self.alloc, row, NOT_WRITTEN, before.saturating_mul(piece))?;
            let failing = Failing::Write((before as u64).saturating_add(1));
            self.check_way(row, words, Way { piece, failing }, front.as_slice())?;
        }
        Ok(())
    }

    /// Runs a row whose bytes are moved so, and counts it.
    fn check_way(
        &mut self,
        row: &Row,
        words: &Words,
        way: Way,
        lines: &[u8],
    ) -> Result<(), NoMemory>
        requires { 1 ≤ way.piece }
    {
        let how = format!(in self.alloc; "{way}")?;
        let same = self.is_same(row, words, way, how.as_str(), lines)?;
        self.count(same);
        Ok(())
    }
}
