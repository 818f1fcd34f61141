//! The lines of texts.

ghost use Rattle.std.specs.Prelude.{◌≡◌, ◌≤◌, ◌++◌, IfOk, OnOk, length, option_copied, encode_utf8_all, string_bytes};
ghost use Rattle.py_exceptions.specs.Repr.{has};
ghost use Rattle.py_exceptions.specs.Writing.{Adds};
ghost use Rattle.py_reports.specs.Lines.{line_at as line_of_number, lines_of as lines_of_text, without_ends as without_line_feeds, without_front};
ghost use Rattle.py_reports.specs.Inside.{one_line, without_return as without_carriage_return};

use py_code::{ItemList, NoMemory, PyText, text_of_str};
use std::alloc::Global;

/// Texts in order.
pub(crate) type TextList = ItemList<PyText>;

/// The lines of a text.
pub(crate) fn lines_of(alloc: Global, text: &[char]) -> Result<TextList, NoMemory>
    ensures { IfOk result (λ lines. lines ≡ lines_of_text text.now) }
{
    let mut lines = TextList::new(alloc);
    let mut line: Vec<char> = Vec::new(alloc);
    for c in text {
        if *c == '\n' {
            lines.push(copy_of(alloc, without_return(line.as_slice()))?)?;
            line.clear();
        } else {
            line.push(*c)?;
        }
    }
    push_rest(&mut lines, PyText::of(line))?;
    Ok(lines)
}

/// Puts what is left of a text after its lines, where anything is.
fn push_rest(lines: &mut TextList, rest: PyText) -> Result<(), NoMemory>
    ensures { OnOk result (lines.new ≡ lines.old ++ one_line rest) }
{
    if rest.is_empty() {
        return Ok(());
    }
    lines.push(rest)
}

fn copy_of(alloc: Global, line: &[char]) -> Result<PyText, NoMemory>
    ensures { IfOk result (λ copy. copy ≡ line.now) }
{
    Ok(PyText::of(Vec::from_slice(alloc, line)?))
}

/// A line without a carriage return at its end.
fn without_return(line: &[char]) -> &[char]
    ensures { result.now ≡ without_carriage_return line.now }
{
    let Some((last, front)) = line.split_last() else {
        return line;
    };
    if *last == '\r' { front } else { line }
}

/// The line of a number, from 1.
pub(crate) fn line_at(lines: &[PyText], number: u32) -> Option<&PyText>
    ensures { option_copied result ≡ line_of_number lines.now number }
{
    if number == 0 {
        return None;
    }
    lines.get(number as usize - 1)
}

/// A line without these characters at its front.
pub(crate) fn skip<'a>(line: &'a [char], blanks: &[char]) -> &'a [char]
    ensures skipped { result.now ≡ without_front blanks.now line.now }
    ensures shorter { length result.now ≤ length line.now }
{
    let mut left = line;
    'each: while let Some((first, more)) = left.split_first() {
        if !is_among(*first, blanks) {
            return left;
        }
        left = more;
    }
    left
}

fn is_among(c: char, blanks: &[char]) -> bool
    ensures { result ≡ has c blanks.now }
{
    blanks.iter().any(|blank| c == *blank)
}

/// A text without line feeds at its end.
pub(crate) fn without_ends(text: &[char]) -> &[char]
    ensures { result.now ≡ without_line_feeds text.now }
{
    let mut left = text;
    'each: while let Some((last, front)) = left.split_last() {
        if *last != '\n' {
            return left;
        }
        left = front;
    }
    left
}

/// Puts characters after a text.
pub(crate) fn push_characters(out: &mut String, characters: &[char]) -> Result<(), NoMemory>
    ensures { Adds result out.old out.new (encode_utf8_all characters.now) }
{
    for c in characters {
        out.push(*c)?;
    }
    Ok(())
}

/// Puts words after a text.
pub(crate) fn push_words(out: &mut String, words: &str) -> Result<(), NoMemory>
    ensures { Adds result out.old out.new words.now }
{
    out.push_str(words)?;
    Ok(())
}

/// The characters of a string.
pub(crate) fn text_in(alloc: Global, string: &String) -> Result<PyText, NoMemory>
    ensures { IfOk result (λ text. encode_utf8_all text ≡ string_bytes string.now) }
{
    text_of_str(alloc, string.as_str())
}
