//! Running a script over a source and a sink in memory.

ghost use Rattle.std.specs.Prelude.{◌≡◌, ◌≤◌};

use crate::row::Row;
use py_code::NoMemory;
use py_script::{Ended, SinkMemory, SourceMemory, Words, run_command};
use std::alloc::Global;
use std::fmt;

/// How many bytes a text may have.
const ROOM: usize = 200_000;

/// A call of a stream that fails, by its number, from 1.
#[derive(Clone, Copy)]
pub(crate) enum Failing {
    None,
    Read(u64),
    Write(u64),
}

impl Failing {
    /// The number of the read that fails, if one does.
    fn read(self) -> Option<u64> {
        match self {
            Failing::Read(number) => Some(number),
            Failing::None | Failing::Write(_) => None,
        }
    }

    /// The number of the write that fails, if one does.
    fn write(self) -> Option<u64> {
        match self {
            Failing::Write(number) => Some(number),
            Failing::None | Failing::Read(_) => None,
        }
    }
}

/// How streams move bytes: at most so many a call, and which call fails beside those that the row names.
#[derive(Clone, Copy)]
pub(crate) struct Way {
    pub piece: usize,
    pub failing: Failing,
}

impl Way {
    /// At most so many bytes a call, of which none fails but those that the row names.
    pub(crate) fn of(piece: usize) -> Way
        ensures { result.piece ≡ piece }
    {
        Way {
            piece,
            failing: Failing::None,
        }
    }
}

impl fmt::Display for Way {
    fn fmt<W: fmt::Write>(&self, f: &mut fmt::Formatter<W>) -> fmt::Result {
        write!(f, "{} bytes a call", self.piece)?;
        match self.failing {
            Failing::None => Ok(()),
            Failing::Read(number) => write!(f, ", read {number} fails"),
            Failing::Write(number) => write!(f, ", write {number} fails"),
        }
    }
}

/// What a command reads and writes: a row's script, and sinks for the text and the note.
#[derive(Drop)]
pub(crate) struct Streams {
    source: SourceMemory,
    pub text: SinkMemory,
    pub note: SinkMemory,
}

/// How a command ended, and the streams behind it.
#[derive(Drop)]
pub(crate) struct Came {
    pub ended: Ended,
    pub streams: Streams,
}

impl Streams {
    /// The streams of a row, which move bytes so.
    fn of(alloc: Global, row: &Row, way: Way) -> Result<Streams, NoMemory>
        requires { 1 ≤ way.piece }
    {
        let source = source_of(row, way)?;
        let text = text_sink_of(alloc, row, way)?;
        let note = SinkMemory::new(alloc, Vec::new(alloc), way.piece, 100)?;
        Ok(Streams { source, text, note })
    }

    /// Does what the words ask for.
    fn run(&mut self, alloc: Global, words: &Words) -> Ended {
        run_command(
            alloc,
            words,
            &mut self.source,
            &mut self.text,
            &mut self.note,
        )
    }
}

/// The source of a row's script, which moves bytes so.
fn source_of(row: &Row, way: Way) -> Result<SourceMemory, NoMemory>
    requires { 1 ≤ way.piece }
{
    let script = row.script.clone()?;
    let fails = with_one(&row.failing_reads, way.failing.read())?;
    Ok(SourceMemory::new(script, fails, way.piece))
}

/// The sink of a row's text, which moves bytes so.
fn text_sink_of(alloc: Global, row: &Row, way: Way) -> Result<SinkMemory, NoMemory>
    requires { 1 ≤ way.piece }
{
    let fails = with_one(&row.failing_writes, way.failing.write())?;
    SinkMemory::new(alloc, fails, way.piece, ROOM)
}

/// The numbers of calls that fail, with one more if there is one.
fn with_one(named: &Vec<u64>, more: Option<u64>) -> Result<Vec<u64>, NoMemory> {
    let mut fails = named.clone()?;
    if let Some(number) = more {
        fails.push(number)?;
    }
    Ok(fails)
}

/// The words that a text has, with blanks between them; `''` stands for an empty word.
pub(crate) fn words_of(alloc: Global, text: &str) -> Result<Words, NoMemory> {
    let mut words = Words::new(alloc);
    for word in text.split_whitespace() {
        if word == "''" {
            words.push("")?;
        } else {
            words.push(word)?;
        }
    }
    Ok(words)
}

/// What the words come to over the row's script, whose bytes are moved so.
pub(crate) fn run_row(alloc: Global, row: &Row, words: &Words, way: Way) -> Result<Came, NoMemory>
    requires { 1 ≤ way.piece }
{
    let mut streams = Streams::of(alloc, row, way)?;
    let ended = streams.run(alloc, words);
    Ok(Came { ended, streams })
}
