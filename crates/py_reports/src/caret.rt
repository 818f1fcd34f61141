//! The line of a SyntaxError's text, and the carets below it.

ghost use Rattle.std.specs.Prelude.{◌≡◌, ◌≤◌, length, map, take, replicate, encode_utf8_all};
ghost use Rattle.py_exceptions.specs.Writing.{Adds};
ghost use Rattle.py_reports.specs.SyntaxLines.{blank as blank_of, caret_line, carets_after, shown_line, trimmed_line};

use crate::lines::{push_characters, push_words, skip};
use py_code::NoMemory;

/// Puts a line of source after a text, with carets from a column to an end, both from 1 on.
pub(crate) fn push_trimmed(
    out: &mut String,
    whole: &[char],
    column: u128,
    end: u128,
) -> Result<(), NoMemory>
    ensures { Adds result out.old out.new (trimmed_line whole.now column end) }
{
    let line = skip(whole, &['\x0c', ' ', '\n']);
    push_shown(out, whole, line, column, end)
}

fn push_shown(
    out: &mut String,
    whole: &[char],
    line: &[char],
    column: u128,
    end: u128,
) -> Result<(), NoMemory>
    requires { length line.now ≤ length whole.now }
    ensures { Adds result out.old out.new (shown_line whole.now line.now column end) }
{
    out.push_str("    ")?;
    push_characters(out, line)?;
    out.push_str("\n")?;
    let left_out = (whole.len() - line.len()) as u128;
    let count = end.saturating_sub(column).max(1);
    push_caret_line(out, line, column.saturating_sub(left_out), count)
}

/// Puts a line of so many carets after a text, where the column is in the line.
fn push_caret_line(
    out: &mut String,
    line: &[char],
    column: u128,
    count: u128,
) -> Result<(), NoMemory>
    ensures { Adds result out.old out.new (caret_line line.now column count) }
{
    if column == 0 {
        return Ok(());
    }
    push_carets_after(out, front(line, column - 1), count)
}

/// The first characters of a line: so many, where it has them.
fn front(line: &[char], count: u128) -> &[char]
    ensures { result.now ≡ take count line.now }
{
    if count < line.len() as u128 {
        &line[..count as usize]
    } else {
        line
    }
}

fn push_carets_after(out: &mut String, line: &[char], count: u128) -> Result<(), NoMemory>
    ensures { Adds result out.old out.new (carets_after line.now count) }
{
    out.push_str("    ")?;
    push_blanks(out, line)?;
    push_carets(out, count)?;
    push_words(out, "\n")
}

/// Puts spaces after a text in place of characters, except of white space.
fn push_blanks(out: &mut String, line: &[char]) -> Result<(), NoMemory>
    ensures { Adds result out.old out.new (encode_utf8_all (map blank_of line.now)) }
{
    for c in line {
        out.push(blank(*c))?;
    }
    Ok(())
}

fn blank(c: char) -> char
    ensures { result ≡ blank_of c }
{
    if c.is_whitespace() { c } else { ' ' }
}

/// Puts so many carets after a text. More than a machine has addresses for find no memory.
fn push_carets(out: &mut String, count: u128) -> Result<(), NoMemory>
    ensures { Adds result out.old out.new (replicate count 94) }
{
    let Ok(count) = usize::try_from(count) else {
        return Err(NoMemory);
    };
    for _caret in 0..count {
        out.push('^')?;
    }
    Ok(())
}
