//! What a line says, apart from where it stands.

ghost use Rattle.std.specs.Prelude.{◌≡◌, ◌∷◌, [], IfOk, map, true};
ghost use Rattle.py_lines.specs.declared.keyword.Keyword.TheVariants as keyword;
ghost use Rattle.py_lines.specs.Comments.{is_comment as is_comment_line};
ghost use Rattle.py_lines.specs.Finding.{AreReadAs, Reads, ShowsLine};
ghost use Rattle.py_lines.specs.Meaning.{Key};
ghost use Rattle.py_lines.specs.Senses.{meaning_of};
ghost use Rattle.py_lines.specs.Reading.{IsReadAs};
ghost use Rattle.py_lines.specs.Views.{read_of};

use crate::atoms::alone;
use crate::comment::{is_comment, is_utf8};
use crate::drive::{DriveLine, read_drive};
use crate::head::{Head, Turn, read_head, read_turn};
use crate::header::{Header, read_header};
use crate::keyword::Keyword;
use crate::meaning::{Sense, meanings_of};
use crate::plain::{Plain, read_plain};
use crate::raw::{RawLine, read_raw};
use py_code::NoMemory;
use std::alloc::Global;

/// A line that says something, by its class.
#[derive(Drop)]
pub enum Line {
    /// `end`.
    End,
    /// A plain statement.
    Plain(Plain),
    /// A block opens.
    Opens(Head),
    /// The open block turns to its next suite.
    Turns(Turn),
    /// A declaration, or what opens one.
    Header(Header),
    /// A drive.
    Drive(DriveLine),
    /// A line of a raw code.
    Raw(RawLine),
}

/// How a line reads by itself.
#[derive(Drop)]
pub enum LineRead {
    /// Nothing stands in the line, or a comment.
    Blank,
    /// The line says this.
    Said(Line),
    /// No line is of these tokens.
    Malformed,
}

/// The `end` that tokens are.
fn read_end(tokens: &[Sense<'_>]) -> Option<()>
    ensures { Reads (λ end. Key keyword.End ∷ []) tokens.now result }
{
    let (first, rest) = tokens.split_first()?;
    match first {
        Sense::Key(Keyword::End) => alone((), rest),
        _ => None,
    }
}

/// The line that tokens are.
fn line_of(alloc: Global, tokens: &[Sense<'_>]) -> Result<Option<Line>, NoMemory>
    ensures { IfOk result (ShowsLine (map meaning_of tokens.now)) }
{
    if let Some(plain) = read_plain(alloc, tokens)? {
        return Ok(Some(Line::Plain(plain)));
    }
    if let Some(head) = read_head(alloc, tokens)? {
        return Ok(Some(Line::Opens(head)));
    }
    if let Some(turn) = read_turn(alloc, tokens)? {
        return Ok(Some(Line::Turns(turn)));
    }
    if let Some(header) = read_header(alloc, tokens)? {
        return Ok(Some(Line::Header(header)));
    }
    if let Some(drive) = read_drive(alloc, tokens)? {
        return Ok(Some(Line::Drive(drive)));
    }
    if let Some(raw) = read_raw(alloc, tokens)? {
        return Ok(Some(Line::Raw(raw)));
    }
    if let Some(()) = read_end(tokens) {
        return Ok(Some(Line::End));
    }
    Ok(None)
}

/// How a comment reads: its characters have to be UTF-8.
fn comment_read(bytes: &[u8]) -> LineRead
    requires { is_comment_line bytes.now ≡ true }
    ensures { IsReadAs bytes.now (read_of result) }
{
    if is_utf8(bytes) {
        LineRead::Blank
    } else {
        LineRead::Malformed
    }
}

/// How a line that is no comment reads, by its tokens.
fn tokens_read(alloc: Global, tokens: &[Sense<'_>]) -> Result<LineRead, NoMemory>
    ensures { IfOk result (λ read. AreReadAs (map meaning_of tokens.now) (read_of read)) }
{
    if tokens.is_empty() {
        return Ok(LineRead::Blank);
    }
    match line_of(alloc, tokens)? {
        Some(line) => Ok(LineRead::Said(line)),
        None => Ok(LineRead::Malformed),
    }
}

/// How a line of bytes reads.
pub fn read_line(alloc: Global, bytes: &[u8]) -> Result<LineRead, NoMemory>
    ensures { IfOk result (λ read. IsReadAs bytes.now (read_of read)) }
{
    if is_comment(bytes) {
        return Ok(comment_read(bytes));
    }
    let tokens = meanings_of(alloc, bytes)?;
    tokens_read(alloc, tokens.as_slice())
}
