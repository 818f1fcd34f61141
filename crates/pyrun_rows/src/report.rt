//! Running rows, and telling which of them differ.

ghost use Rattle.std.specs.Prelude.{◌≤◌};

use crate::outcome::{found, wanted};
use crate::row::Row;
use crate::run::{Way, words_of};
use py_code::NoMemory;
use py_script::Words;
use std::alloc::Global;

/// How a run ends that has too few turns.
const CUT: &str = "4 out of turns";

/// What is told of rows, and how many passed.
#[derive(Drop)]
pub(crate) struct Report {
    pub(crate) alloc: Global,
    /// Whether what came of each row is told.
    shows: bool,
    lines: Vec<u8>,
    passed: u64,
    /// Whether a row differs, or none has the word.
    fails: bool,
}

/// Runs the rows, or those that have the word in their names, of which all is told that came. One at least must have it.
pub(crate) fn run_rows(
    alloc: Global,
    rows: &[Row],
    word: Option<&str>,
) -> Result<Report, NoMemory> {
    let mut report = Report {
        alloc,
        shows: word.is_some(),
        lines: Vec::new(alloc),
        passed: 0,
        fails: false,
    };
    let mut has_row = word.is_none();
    let word = word.unwrap_or("");
    for row in rows {
        if row.name.contains(word) {
            has_row = true;
            report.check(row)?;
        }
    }
    if !has_row {
        report.fails = true;
        let none = format!(in alloc; "no row has {word} in its name\n")?;
        report.lines.extend_from_slice(none.as_bytes())?;
    }
    let last = format!(in alloc; "{} rows passed\n", report.passed)?;
    report.lines.extend_from_slice(last.as_bytes())?;
    Ok(report)
}

impl Report {
    /// What is told, as lines.
    pub(crate) fn lines(&self) -> &[u8] {
        self.lines.as_slice()
    }

    /// 0 where no row differs and one has the word, else 1.
    pub(crate) fn status(&self) -> u8 {
        u8::from(self.fails)
    }

    /// Runs a row, or one row for each number of turns, or for each call that may fail.
    fn check(&mut self, row: &Row) -> Result<(), NoMemory> {
        if !row.faults.is_empty() {
            return self.check_faults(row);
        }
        let Some(last) = row.turns else {
            let words = words_of(self.alloc, row.command())?;
            return self.check_words(row, &words, row.status.as_str(), u64::MAX);
        };
        for turns in 0..last.saturating_add(1) {
            let words = format!(in self.alloc; "run {turns}")?;
            let status = if turns < row.last_event() {
                CUT
            } else {
                row.status.as_str()
            };
            let words = words_of(self.alloc, words.as_str())?;
            self.check_words(row, &words, status, turns)?;
        }
        Ok(())
    }

    /// Runs a row with these words: all bytes at once and then a byte a call, or as the row says.
    fn check_words(
        &mut self,
        row: &Row,
        words: &Words,
        status: &str,
        events: u64,
    ) -> Result<(), NoMemory> {
        let lines = wanted(self.alloc, row, status, events)?;
        let lines = lines.as_slice();
        let same = match row.piece {
            Some(piece) => { self.is_same(row, words, Way::of(piece.max(1)), "in pieces", lines)? }
            None => {
                let at_once = self.is_same(row, words, Way::of(usize::MAX), "all at once", lines)?;
                at_once && self.is_same(row, words, Way::of(1), "a byte a call", lines)?
            }
        };
        self.count(same);
        Ok(())
    }

    /// Counts a row that passed, or notes that one differs.
    pub(crate) fn count(&mut self, same: bool) {
        if same {
            self.passed = self.passed.saturating_add(1);
        } else {
            self.fails = true;
        }
    }

    /// Whether what came of a row is what must come. What differs is told.
    pub(crate) fn is_same(
        &mut self,
        row: &Row,
        words: &Words,
        way: Way,
        how: &str,
        lines: &[u8],
    ) -> Result<bool, NoMemory>
        requires { 1 ≤ way.piece }
    {
        let came = found(self.alloc, row, words, way)?;
        let same = came.as_slice() == lines;
        if !same {
            self.tell(row, how, "must come", lines)?;
        }
        if !same || self.shows {
            self.tell(row, how, "came", came.as_slice())?;
        }
        Ok(same)
    }

    /// Tells lines of a row that is run so.
    fn tell(&mut self, row: &Row, how: &str, what: &str, lines: &[u8]) -> Result<(), NoMemory> {
        let heading = format!(in self.alloc; "== {}, {how}, {what}\n", row.name.as_str())?;
        self.lines.extend_from_slice(heading.as_bytes())?;
        self.lines.extend_from_slice(lines)?;
        Ok(())
    }
}
