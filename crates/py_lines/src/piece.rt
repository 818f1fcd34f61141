//! Words that commas and dots cut into pieces.

ghost use Rattle.std.specs.Prelude.{◌≡◌, ◌==◌, ◌≤◌, IfOk, length, map, not, option_map};
ghost use Rattle.std.specs.List.{prefix_len};
ghost use Rattle.py_lines.specs.PartFinding.{CutsOnce, ReadsEach, is_other, parts_view, words_view};
ghost use Rattle.py_lines.specs.Parts.{cut_at, is_joined as is_joined_in, jump_of as jump_in, small_number as small_number_in};
ghost use Rattle.py_lines.specs.Parts.{lists_of as lists_in, parts_of as parts_in, piece_of as piece_in, pieces_of as pieces_in};
ghost use Rattle.py_lines.specs.Senses.{piece_view, pieces_view};

use crate::word::{is_spelled_as_name, short_number};
use py_check::Pending;
use py_code::NoMemory;
use std::alloc::Global;

/// A piece of a word.
#[derive(Clone, Copy)]
pub enum Piece<'a> {
    /// Spelled as a name is; keywords are, too.
    Letters(&'a [u8]),
    /// Digits: a number of at most 32 bits.
    Count(u32),
    /// `b` or `c` and digits: a break or a continue that waits, with its label.
    Jump(Pending),
}

/// The pieces between dots.
pub type Pieces<'a> = Vec<Piece<'a>>;

/// The number that one or more decimal digits spell, of at most 32 bits.
fn small_number(digits: &[u8]) -> Option<u32>
    ensures { result ≡ small_number_in digits.now }
{
    let number = short_number(digits)?;
    u32::try_from(number).ok()
}

/// The jump that a piece names.
fn jump_of(piece: &[u8]) -> Option<Pending>
    ensures { result ≡ jump_in piece.now }
{
    let (first, digits) = piece.split_first()?;
    match *first {
        b'b' => Some(Pending::Break(small_number(digits)?)),
        b'c' => Some(Pending::Continue(small_number(digits)?)),
        _ => None,
    }
}

/// What a piece means.
fn piece_of(piece: &[u8]) -> Option<Piece<'_>>
    ensures { option_map piece_view result ≡ piece_in piece.now }
{
    if let Some(count) = small_number(piece) {
        return Some(Piece::Count(count));
    }
    if let Some(jump) = jump_of(piece) {
        return Some(Piece::Jump(jump));
    }
    if is_spelled_as_name(piece) {
        Some(Piece::Letters(piece))
    } else {
        None
    }
}

/// How many bytes stand in front of the first such byte.
#[tactic(auto, using(crate::proofs::Cutting::other_within))]
fn front_len(word: &[u8], mark: u8) -> usize
    ensures is { result ≡ prefix_len (is_other mark) word.now }
    ensures within { result ≤ length word.now }
{
    word.iter().take_while(|b| **b != mark).count()
}

/// The bytes in front of the first such byte, and those behind it.
fn cut_once(word: &[u8], mark: u8) -> Option<(&[u8], &[u8])>
    ensures { CutsOnce mark word.now result }
{
    let (front, rest) = word.split_at(front_len(word, mark));
    let Some((_, behind)) = rest.split_first() else {
        return None;
    };
    Some((front, behind))
}

/// The words that a byte cuts a word into.
fn words_between(alloc: Global, word: &[u8], mark: u8) -> Result<Vec<&[u8]>, NoMemory>
    ensures { IfOk result (λ words. words_view words.items ≡ cut_at mark word.now) }
{
    let mut words = Vec::new(alloc);
    let mut rest = word;
    while let Some((front, behind)) = cut_once(rest, mark) {
        words.push(front)?;
        rest = behind;
    }
    words.push(rest)?;
    Ok(words)
}

/// The pieces that all the words are.
fn all_pieces<'a>(alloc: Global, words: &[&'a [u8]]) -> Result<Option<Pieces<'a>>, NoMemory>
    ensures { IfOk result (ReadsEach pieces_view piece_in words.now) }
{
    let mut pieces = Vec::new(alloc);
    for word in words {
        match piece_of(word) {
            Some(piece) => pieces.push(piece)?,
            None => return Ok(None),
        }
    }
    Ok(Some(pieces))
}

/// The pieces that dots part.
fn pieces_of(alloc: Global, word: &[u8]) -> Result<Option<Pieces<'_>>, NoMemory>
    ensures { IfOk result (λ found. option_map pieces_view found ≡ pieces_in word.now) }
{
    let words = words_between(alloc, word, b'.')?;
    all_pieces(alloc, words.as_slice())
}

/// The lists of pieces that all the words are.
fn all_lists<'a>(alloc: Global, words: &[&'a [u8]]) -> Result<Option<Vec<Pieces<'a>>>, NoMemory>
    ensures { IfOk result (ReadsEach parts_view pieces_in words.now) }
{
    let mut lists = Vec::new(alloc);
    for word in words {
        match pieces_of(alloc, word)? {
            Some(pieces) => lists.push(pieces)?,
            None => return Ok(None),
        }
    }
    Ok(Some(lists))
}

/// The lists of pieces that commas part, where each is one.
fn lists_of(alloc: Global, word: &[u8]) -> Result<Option<Vec<Pieces<'_>>>, NoMemory>
    ensures { IfOk result (λ found. option_map parts_view found ≡ lists_in word.now) }
{
    let words = words_between(alloc, word, b',')?;
    all_lists(alloc, words.as_slice())
}

/// Whether a comma or a dot joins the pieces.
fn is_joined(lists: &[Pieces<'_>]) -> bool
    ensures { result ≡ is_joined_in (map pieces_view lists.now) }
{
    match lists {
        [] => false,
        [pieces] => pieces.len() != 1,
        [_, _, ..] => true,
    }
}

/// The lists of pieces that commas part in a word, which has a comma or a dot.
pub fn parts_of(alloc: Global, word: &[u8]) -> Result<Option<Vec<Pieces<'_>>>, NoMemory>
    ensures { IfOk result (λ found. option_map parts_view found ≡ parts_in word.now) }
{
    let Some(lists) = lists_of(alloc, word)? else {
        return Ok(None);
    };
    if !is_joined(lists.as_slice()) {
        return Ok(None);
    }
    Ok(Some(lists))
}
