//! Reading rows: a heading, a row's name, what is said of it, and the lines of its script and its text.

use crate::expand::put_line;
use crate::fault::{LineFault, RowsFault};
use crate::outcome::is_kind;
use crate::row::{Part, Row};
use std::alloc::Global;

/// The rows of a file, in order.
pub(crate) fn parse_rows(alloc: Global, text: &str) -> Result<Vec<Row>, RowsFault> {
    let mut group = String::new(alloc);
    let mut rows = Vec::new(alloc);
    for (at, line) in text.lines().enumerate() {
        let number = at.saturating_add(1);
        take_line(alloc, &mut group, &mut rows, line).map_err(|fault| fault.at(number))?;
    }
    Ok(rows)
}

/// Takes a line of the file: a heading, a row's name, or a line of the last row.
fn take_line(
    alloc: Global,
    group: &mut String,
    rows: &mut Vec<Row>,
    line: &str,
) -> Result<(), LineFault> {
    if let Some(heading) = line.strip_prefix("=== ") {
        *group = String::from_str(alloc, heading)?;
    } else if let Some(name) = line.strip_prefix("== ") {
        rows.push(Row::new(alloc, group.as_str(), name)?)?;
    } else if !line.is_empty() && !line.starts_with("// ") {
        return match rows.last_mut() {
            Some(row) => take_row_line(alloc, row, line),
            None => Err(LineFault::Unknown),
        };
    }
    Ok(())
}

/// Takes a line of a row: what it says, or a line of its text where it has one, else of its script.
fn take_row_line(alloc: Global, row: &mut Row, line: &str) -> Result<(), LineFault> {
    if let Some(said) = line.strip_prefix("-- ") {
        return take_option(alloc, row, said);
    }
    match row.parts.last_mut() {
        Some(part) => put_line(alloc, &mut part.bytes, line),
        None => put_line(alloc, &mut row.script, line),
    }
}

/// Takes what is said of a row.
fn take_option(alloc: Global, row: &mut Row, said: &str) -> Result<(), LineFault> {
    let (word, rest) = match said.split_once(' ') {
        Some(pair) => pair,
        None => (said, ""),
    };
    match word {
        "words" if row.words.is_none() && row.turns.is_none() => {
            row.words = Some(String::from_str(alloc, rest)?);
        }
        "status" => row.status = String::from_str(alloc, rest)?,
        "events" | "kinds" | "count" if is_of_events(word, rest) => {
            row.wanted_events.push(String::from_str(alloc, said)?)?;
        }
        "text" => begin_text(alloc, row, rest)?,
        "read" | "write" | "pieces" | "faults" | "turns" => take_number(
            row,
            word,
            number_of(rest)?,
        )?,
        _ => return Err(LineFault::Unknown),
    }
    Ok(())
}

/// Whether the rest of a line can be true of events: their number, their kinds, or a kind and its number.
fn is_of_events(word: &str, rest: &str) -> bool {
    match word {
        "events" => rest.parse::<u64>().is_ok(),
        "count" => match rest.split_once(' ') {
            Some((kind, number)) => is_kind(kind) && number.parse::<u64>().is_ok(),
            None => false,
        },
        _ => {
            for kind in rest.split_whitespace() {
                if !is_kind(kind) {
                    return false;
                }
            }
            true
        }
    }
}

/// The number that a text says.
fn number_of(text: &str) -> Result<u64, LineFault> {
    text.parse::<u64>().map_err(|_| LineFault::Unknown)
}

/// The most bytes that a read asks for.
const LONGEST_PIECE: u64 = 4096;

/// Whether a number may be said of a row behind a word. Calls are numbered from 1, and a piece has a byte at least. A row that is
/// run with each number of turns has no words of its own, and one whose calls fail in turn neither turns nor a piece.
fn may_say(row: &Row, word: &str, number: u64) -> bool {
    match word {
        "read" | "write" => number > 0,
        "pieces" => number > 0 && row.faults.is_empty(),
        "faults" => {
            number > 0 && number <= LONGEST_PIECE && row.turns.is_none() && row.piece.is_none()
        }
        "turns" => row.words.is_none() && row.turns.is_none() && row.faults.is_empty(),
        _ => false,
    }
}

/// Takes a number that is said of a row.
fn take_number(row: &mut Row, word: &str, number: u64) -> Result<(), LineFault> {
    if !may_say(row, word, number) {
        return Err(LineFault::Unknown);
    }
    match word {
        "read" => row.failing_reads.push(number)?,
        "write" => row.failing_writes.push(number)?,
        "pieces" => row.piece = Some(number as usize),
        "faults" => row.faults.push(number as usize)?,
        _ => row.turns = Some(number),
    }
    Ok(())
}

/// Begins lines of the text: in any case, or from the event on that is named.
fn begin_text(alloc: Global, row: &mut Row, rest: &str) -> Result<(), LineFault> {
    let from = match rest.strip_prefix("from ") {
        Some(number) => number_of(number)?,
        None if rest.is_empty() => 0,
        None => return Err(LineFault::Unknown),
    };
    let bytes = Vec::new(alloc);
    row.parts.push(Part { from, bytes })?;
    Ok(())
}
