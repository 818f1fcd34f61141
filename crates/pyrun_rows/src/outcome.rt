//! What must come and what came, each as lines in the form of the file, so that comparing them is comparing texts.

ghost use Rattle.std.specs.Prelude.{◌≤◌};

use crate::row::Row;
use crate::run::{Came, Way, run_row};
use py_code::NoMemory;
use py_objects::Event;
use py_script::{CommandResult, ScriptFault, Words};
use std::alloc::Global;
use std::mem;

/// The lines that say what must come of a row that ends like this, where the text is that of so many events.
pub(crate) fn wanted(
    alloc: Global,
    row: &Row,
    status: &str,
    events: u64,
) -> Result<Vec<u8>, NoMemory> {
    let mut lines = Vec::new(alloc);
    put_said(&mut lines, format!(in alloc; "status {status}")?.as_str())?;
    for said in row.wanted_events.as_slice() {
        put_said(&mut lines, said.as_str())?;
    }
    put_said(&mut lines, "text")?;
    for part in row.parts.as_slice() {
        if part.from <= events {
            lines.extend_from_slice(part.bytes.as_slice())?;
        }
    }
    Ok(lines)
}

/// The lines that say what must come of a row that ends like this, where so many bytes of its text are written. Of its events they say nothing.
pub(crate) fn wanted_front(
    alloc: Global,
    row: &Row,
    status: &str,
    count: usize,
) -> Result<Vec<u8>, NoMemory> {
    let mut lines = Vec::new(alloc);
    put_said(&mut lines, format!(in alloc; "status {status}")?.as_str())?;
    put_said(&mut lines, "text")?;
    let mut left = count;
    for part in row.parts.as_slice() {
        let bytes = part.bytes.as_slice();
        let most = left.min(bytes.len());
        lines.extend_from_slice(&bytes[..most])?;
        left -= most;
    }
    Ok(lines)
}

/// The lines that say what comes of a row with these words, whose bytes are moved so.
pub(crate) fn found(alloc: Global, row: &Row, words: &Words, way: Way) -> Result<Vec<u8>, NoMemory>
    requires { 1 ≤ way.piece }
{
    let came = run_row(alloc, row, words, way)?;
    let lines = lines_of(alloc, row, &came);
    // Let go of in one step, and not variant by variant at the end.
    mem::drop(came);
    lines
}

/// The lines that say what came of a row.
fn lines_of(alloc: Global, row: &Row, came: &Came) -> Result<Vec<u8>, NoMemory> {
    let mut lines = Vec::new(alloc);
    put_status(alloc, &mut lines, came)?;
    for said in row.wanted_events.as_slice() {
        let line = counted(alloc, events_of(&came.ended.result), said.as_str())?;
        put_said(&mut lines, line.as_str())?;
    }
    put_said(&mut lines, "text")?;
    lines.extend_from_slice(came.streams.text.bytes())?;
    Ok(lines)
}

/// Puts a line that says something behind the others.
fn put_said(lines: &mut Vec<u8>, said: &str) -> Result<(), NoMemory> {
    lines.extend_from_slice(b"-- ")?;
    lines.extend_from_slice(said.as_bytes())?;
    lines.push(b'\n')?;
    Ok(())
}

/// Puts the line of the status and the note, which has its own end, behind the others.
fn put_status(alloc: Global, lines: &mut Vec<u8>, came: &Came) -> Result<(), NoMemory> {
    let status = format!(in alloc; "-- status {}", came.ended.status)?;
    lines.extend_from_slice(status.as_bytes())?;
    match came.streams.note.bytes() {
        [] => lines.push(b'\n')?,
        note => {
            lines.push(b' ')?;
            lines.extend_from_slice(note)?;
        }
    }
    Ok(())
}

/// The events of a result that has a journal; of any other none.
fn events_of(outcome: &CommandResult) -> &[Event] {
    match outcome {
        CommandResult::Ran(journal) => journal.events.as_slice(),
        CommandResult::Fault(ScriptFault::WriteFault(journal)) => journal.events.as_slice(),
        CommandResult::Fault(ScriptFault::OutOfTurns(journal)) => journal.events.as_slice(),
        CommandResult::Fault(ScriptFault::NoMemory(journal)) => journal.events.as_slice(),
        _ => &[],
    }
}

/// What is true of the events, in the words of a line that says it: their number, their kinds, or the number of a kind.
fn counted(alloc: Global, events: &[Event], said: &str) -> Result<String, NoMemory> {
    let mut words = said.split_whitespace();
    let word = words.next().unwrap_or("");
    let mut line = String::from_str(alloc, word)?;
    match (word, words.next()) {
        ("events", _) => write!(line, " {}", events.len())?,
        ("count", Some(kind)) => write!(line, " {kind} {}", count_of(events, kind))?,
        _ => put_kinds(&mut line, events)?,
    }
    Ok(line)
}

/// How many events have this kind.
fn count_of(events: &[Event], kind: &str) -> usize {
    events
        .iter()
        .filter(|event| kind_of(*event) == kind)
        .count()
}

/// Puts the kinds of the events, in order, behind a line.
fn put_kinds(line: &mut String, events: &[Event]) -> Result<(), NoMemory> {
    for event in events {
        line.push_str(" ")?;
        line.push_str(kind_of(event))?;
    }
    Ok(())
}

/// Whether a word is a kind of events.
pub(crate) fn is_kind(word: &str) -> bool {
    matches!(
        word,
        "Drive" | "Result" | "Make" | "Resume" | "Ask" | "Got" | "Round" | "Yield" | "End"
    )
}

/// The kind of an event.
fn kind_of(event: &Event) -> &'static str {
    match event {
        Event::Drive { .. } => "Drive",
        Event::Result { .. } => "Result",
        Event::Make { .. } => "Make",
        Event::Resume { .. } => "Resume",
        Event::Ask { .. } => "Ask",
        Event::Got { .. } => "Got",
        Event::Round { .. } => "Round",
        Event::Yield { .. } => "Yield",
        Event::End { .. } => "End",
    }
}
