//! Kinds of entries of a stack, as units of raw codes spell them.

ghost use Rattle.std.specs.Prelude.{◌∷◌, [], IfOk, map};
ghost use Rattle.py_lines.specs.Finding.{Prints};
ghost use Rattle.py_lines.specs.Meaning.{Parts, Word};
ghost use Rattle.py_lines.specs.Parts.{parts_of as parts_in, Letters};
ghost use Rattle.py_lines.specs.RawLines.{kind_pieces, kinds_token};
ghost use Rattle.py_lines.specs.Senses.{meaning_of, piece_view, pieces_view};

use crate::meaning::Sense;
use crate::piece::{Piece, Pieces, parts_of};
use py_check::Kind;
use py_code::{ItemList, NoMemory};
use std::alloc::Global;

/// Kinds in the order of their words.
pub type RawKindList = ItemList<Kind>;

/// The kind that a word names by itself.
fn bare_kind(word: &[u8]) -> Option<Kind>
    ensures { Prints kind_pieces (Letters word.now ∷ []) result }
{
    if word == b"any".as_slice() {
        return Some(Kind::Any);
    }
    if word == b"str".as_slice() {
        return Some(Kind::Str);
    }
    if word == b"tuple".as_slice() {
        return Some(Kind::Tuple);
    }
    if word == b"list".as_slice() {
        return Some(Kind::List);
    }
    if word == b"set".as_slice() {
        return Some(Kind::Set);
    }
    if word == b"dict".as_slice() {
        return Some(Kind::Dict);
    }
    if word == b"exc".as_slice() {
        return Some(Kind::Exc);
    }
    if word == b"cell".as_slice() {
        return Some(Kind::Cell);
    }
    None
}

/// The kind that a word and a number name.
fn counted_kind(word: &[u8], count: &Piece<'_>) -> Option<Kind>
    ensures { Prints kind_pieces (Letters word.now ∷ piece_view count.now ∷ []) result }
{
    let Piece::Count(count) = count else {
        return None;
    };
    let count = *count as usize;
    if word == b"cells".as_slice() {
        return Some(Kind::Cells(count));
    }
    if word == b"names".as_slice() {
        return Some(Kind::Names(count));
    }
    if word == b"code".as_slice() {
        return Some(Kind::Code(count));
    }
    None
}

/// The kind that a word names with the pieces behind it.
fn kind_by(word: &[u8], rest: &[Piece<'_>]) -> Option<Kind>
    ensures { Prints kind_pieces (Letters word.now ∷ map piece_view rest.now) result }
{
    match rest {
        [] => bare_kind(word),
        [count] => counted_kind(word, count),
        [_, _, ..] => None,
    }
}

/// The kind that pieces are.
fn kind_of(pieces: &[Piece<'_>]) -> Option<Kind>
    ensures { Prints kind_pieces (map piece_view pieces.now) result }
{
    let Some((first, rest)) = pieces.split_first() else {
        return None;
    };
    let Piece::Letters(word) = first else {
        return None;
    };
    kind_by(word, rest)
}

/// The kinds that all lists of pieces are.
fn all_kinds(alloc: Global, parts: &[Pieces<'_>]) -> Result<Option<RawKindList>, NoMemory>
    ensures { IfOk result (Prints (map kind_pieces) (map pieces_view parts.now)) }
{
    let mut kinds = RawKindList::new(alloc);
    for pieces in parts {
        match kind_of(pieces.as_slice()) {
            Some(kind) => kinds.push(kind)?,
            None => return Ok(None),
        }
    }
    Ok(Some(kinds))
}

/// The one kind that a word is.
fn lone_kind(alloc: Global, word: &[u8]) -> Result<Option<RawKindList>, NoMemory>
    ensures { IfOk result (Prints kinds_token (Word word.now)) }
{
    let Some(kind) = bare_kind(word) else {
        return Ok(None);
    };
    let mut kinds = RawKindList::new(alloc);
    kinds.push(kind)?;
    Ok(Some(kinds))
}

/// The kinds that commas and dots join in a word.
fn joined_kinds(alloc: Global, word: &[u8]) -> Result<Option<RawKindList>, NoMemory>
    ensures { IfOk result (Prints kinds_token (Parts (parts_in word.now))) }
{
    let Some(parts) = parts_of(alloc, word)? else {
        return Ok(None);
    };
    all_kinds(alloc, parts.as_slice())
}

/// The kinds that a token is.
pub fn kinds_of(alloc: Global, token: &Sense<'_>) -> Result<Option<RawKindList>, NoMemory>
    ensures { IfOk result (Prints kinds_token (meaning_of token.now)) }
{
    match token {
        Sense::Dash => Ok(Some(RawKindList::new(alloc))),
        Sense::Word(word) => lone_kind(alloc, word),
        Sense::Parts(word) => joined_kinds(alloc, word),
        _ => Ok(None),
    }
}
