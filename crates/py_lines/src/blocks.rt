//! Open blocks, as units of raw codes spell them.

ghost use Rattle.std.specs.Prelude.{◌∷◌, [], IfOk, codes, map};
ghost use Rattle.py_lines.specs.Finding.{Prints};
ghost use Rattle.py_lines.specs.Meaning.{Parts};
ghost use Rattle.py_lines.specs.Parts.{parts_of as parts_in, Count, Jump, Letters};
ghost use Rattle.py_lines.specs.RawFinding.{ReadsBlock};
ghost use Rattle.py_lines.specs.RawLines.{block_pieces, blocks_token};
ghost use Rattle.py_lines.specs.Senses.{meaning_of, piece_view, pieces_view};

use crate::meaning::Sense;
use crate::piece::{Piece, Pieces, parts_of};
use py_check::{BlockNote, Pending, PendingSet};
use py_code::{ItemList, NoMemory};
use std::alloc::Global;

/// Blocks in the order of their words, the outermost first.
pub type RawBlockList = ItemList<BlockNote>;

/// The number that a piece is.
fn count_of(piece: &Piece<'_>) -> Option<u32>
    ensures { Prints Count (piece_view piece.now) result }
{
    match piece {
        Piece::Count(count) => Some(*count),
        _ => None,
    }
}

/// The number that is the only piece.
fn lone_count(pieces: &[Piece<'_>]) -> Option<u32>
    ensures { Prints (λ n. Count n ∷ []) (map piece_view pieces.now) result }
{
    match pieces {
        [] => None,
        [count] => count_of(count),
        [_, _, ..] => None,
    }
}

/// The jump that a piece is.
fn jump_of(piece: &Piece<'_>) -> Option<Pending>
    ensures { Prints Jump (piece_view piece.now) result }
{
    match piece {
        Piece::Jump(jump) => Some(*jump),
        _ => None,
    }
}

/// The jumps that all the pieces are.
fn all_jumps(alloc: Global, pieces: &[Piece<'_>]) -> Result<Option<PendingSet>, NoMemory>
    ensures { IfOk result (Prints (map Jump) (map piece_view pieces.now)) }
{
    let mut jumps = PendingSet::new(alloc);
    for piece in pieces {
        match jump_of(piece) {
            Some(jump) => jumps.push(jump)?,
            None => return Ok(None),
        }
    }
    Ok(Some(jumps))
}

/// A loop, whose level has nothing behind it.
fn loop_of(level: u32, rest: &[Piece<'_>]) -> Option<BlockNote>
    ensures { ReadsBlock (codes "loop") level rest.now result }
{
    if rest.is_empty() {
        let level = level as usize;
        Some(BlockNote::Loop { level })
    } else {
        None
    }
}

/// A `try` with clauses, whose handler stands behind its level.
fn try_of(level: u32, rest: &[Piece<'_>]) -> Option<BlockNote>
    ensures { ReadsBlock (codes "try") level rest.now result }
{
    let Some(handler) = lone_count(rest) else {
        return None;
    };
    let level = level as usize;
    Some(BlockNote::TryExcept { level, handler })
}

/// A `try` with a `finally`, likewise.
fn fin_of(level: u32, rest: &[Piece<'_>]) -> Option<BlockNote>
    ensures { ReadsBlock (codes "fin") level rest.now result }
{
    let Some(handler) = lone_count(rest) else {
        return None;
    };
    let level = level as usize;
    Some(BlockNote::Finally { level, handler })
}

/// The body of a `finally`, with the jumps that wait behind its level.
fn fh_of(alloc: Global, level: u32, rest: &[Piece<'_>]) -> Result<Option<BlockNote>, NoMemory>
    ensures { IfOk result (ReadsBlock (codes "fh") level rest.now) }
{
    let Some(pending) = all_jumps(alloc, rest)? else {
        return Ok(None);
    };
    let level = level as usize;
    Ok(Some(BlockNote::FinallyHandler { level, pending }))
}

/// The clauses of a `try`, with nothing behind their level.
fn eh_of(level: u32, rest: &[Piece<'_>]) -> Option<BlockNote>
    ensures { ReadsBlock (codes "eh") level rest.now result }
{
    if rest.is_empty() {
        let level = level as usize;
        Some(BlockNote::ExceptHandler { level })
    } else {
        None
    }
}

/// The block that a word and its level name with the pieces behind them.
fn block_by(
    alloc: Global,
    word: &[u8],
    level: u32,
    rest: &[Piece<'_>],
) -> Result<Option<BlockNote>, NoMemory>
    ensures { IfOk result (ReadsBlock word.now level rest.now) }
{
    if word == b"loop".as_slice() {
        return Ok(loop_of(level, rest));
    }
    if word == b"try".as_slice() {
        return Ok(try_of(level, rest));
    }
    if word == b"fin".as_slice() {
        return Ok(fin_of(level, rest));
    }
    if word == b"fh".as_slice() {
        return fh_of(alloc, level, rest);
    }
    if word == b"eh".as_slice() {
        return Ok(eh_of(level, rest));
    }
    Ok(None)
}

/// The block that a word names with the pieces behind it.
fn block_behind(
    alloc: Global,
    word: &[u8],
    pieces: &[Piece<'_>],
) -> Result<Option<BlockNote>, NoMemory>
    ensures { IfOk result (Prints block_pieces (Letters word.now ∷ map piece_view pieces.now)) }
{
    let Some((level, rest)) = pieces.split_first() else {
        return Ok(None);
    };
    let Some(level) = count_of(level) else {
        return Ok(None);
    };
    block_by(alloc, word, level, rest)
}

/// The block that pieces are.
fn block_of(alloc: Global, pieces: &[Piece<'_>]) -> Result<Option<BlockNote>, NoMemory>
    ensures { IfOk result (Prints block_pieces (map piece_view pieces.now)) }
{
    let Some((first, rest)) = pieces.split_first() else {
        return Ok(None);
    };
    let Piece::Letters(word) = first else {
        return Ok(None);
    };
    block_behind(alloc, word, rest)
}

/// The blocks that all lists of pieces are.
fn all_blocks(alloc: Global, parts: &[Pieces<'_>]) -> Result<Option<RawBlockList>, NoMemory>
    ensures { IfOk result (Prints (map block_pieces) (map pieces_view parts.now)) }
{
    let mut blocks = RawBlockList::new(alloc);
    for pieces in parts {
        match block_of(alloc, pieces.as_slice())? {
            Some(block) => blocks.push(block)?,
            None => return Ok(None),
        }
    }
    Ok(Some(blocks))
}

/// The blocks that commas and dots join in a word.
fn joined_blocks(alloc: Global, word: &[u8]) -> Result<Option<RawBlockList>, NoMemory>
    ensures { IfOk result (Prints blocks_token (Parts (parts_in word.now))) }
{
    let Some(parts) = parts_of(alloc, word)? else {
        return Ok(None);
    };
    all_blocks(alloc, parts.as_slice())
}

/// The blocks that a token is.
pub fn blocks_of(alloc: Global, token: &Sense<'_>) -> Result<Option<RawBlockList>, NoMemory>
    ensures { IfOk result (Prints blocks_token (meaning_of token.now)) }
{
    match token {
        Sense::Dash => Ok(Some(RawBlockList::new(alloc))),
        Sense::Parts(word) => joined_blocks(alloc, word),
        _ => Ok(None),
    }
}
