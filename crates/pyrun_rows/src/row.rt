//! A row: a script, how it is run, and what must come of it.

use py_code::NoMemory;
use std::alloc::Global;

/// Lines that must be written from some event on.
#[derive(Drop)]
pub(crate) struct Part {
    /// The number of that event, from 1; 0 for lines that come in any case.
    pub from: u64,
    /// The lines, with their ends.
    pub bytes: Vec<u8>,
}

/// A row of the file.
#[derive(Drop)]
pub(crate) struct Row {
    /// The heading that it stands below, and its own name.
    pub name: String,
    /// The words of the command line, with blanks between them, where they are said.
    pub words: Option<String>,
    /// How many bytes a call of the source or a sink may move; where it isn't said, all, and then one.
    pub piece: Option<usize>,
    /// How many bytes a call may move where the row is run with each read and each write failing in turn.
    pub faults: Vec<usize>,
    /// The numbers of the reads that fail, from 1.
    pub failing_reads: Vec<u64>,
    /// The numbers of the writes of the text that fail, from 1.
    pub failing_writes: Vec<u64>,
    /// The last number of turns, where the row is run with each number from 0.
    pub turns: Option<u64>,
    /// The script.
    pub script: Vec<u8>,
    /// The status, and behind a blank the note.
    pub status: String,
    /// What must be true of the journal's events, a line each.
    pub wanted_events: Vec<String>,
    /// What must be written.
    pub parts: Vec<Part>,
}

impl Row {
    /// A row of an empty script, whose run must be whole.
    pub(crate) fn new(alloc: Global, group: &str, name: &str) -> Result<Row, NoMemory> {
        let name = format!(in alloc; "{group}: {name}")?;
        let status = String::from_str(alloc, "0")?;
        Ok(Row {
            name,
            words: None,
            piece: None,
            faults: Vec::new(alloc),
            failing_reads: Vec::new(alloc),
            failing_writes: Vec::new(alloc),
            turns: None,
            script: Vec::new(alloc),
            status,
            wanted_events: Vec::new(alloc),
            parts: Vec::new(alloc),
        })
    }

    /// The words of the command line: those that are said, else the one that runs the script.
    pub(crate) fn command(&self) -> &str {
        match &self.words {
            Some(words) => words.as_str(),
            None => "run",
        }
    }

    /// How many bytes its text has.
    pub(crate) fn text_len(&self) -> usize {
        let mut count: usize = 0;
        for part in self.parts.as_slice() {
            count = count.saturating_add(part.bytes.len());
        }
        count
    }

    /// How many events a whole run has, where each number of turns is tried: as many as its last line needs.
    pub(crate) fn last_event(&self) -> u64 {
        let mut last = 0;
        for part in self.parts.as_slice() {
            last = part.from.max(last);
        }
        last
    }
}
