//! The innermost handlers alone: where control may come to each of these, it may come to all handlers. So a code that keeps the rules is
//! judged without a look at each handler from each unit.

ghost use Rattle.std.specs.Prelude.{◌≡◌, length, true, IfOk, Some};
ghost use Rattle.py_check.specs.Landing.{handlers_land, levels_nest};
ghost use Rattle.py_check.specs.Innermost.{has_handler, innermost_lands, InnermostLand, InnermostLandsAt};
ghost use Rattle.py_check.specs.Sheet.{sheet_of};

use crate::annotated::Annotated;
use crate::blocks::BlockList;
use crate::fits::level_of;
use crate::landing::{bottom, handler_lands, handlers_land};
use crate::note::{BlockNote, Kind, Note};
use py_code::NoMemory;
use std::alloc::Global;

/// Whether what leaves a block may come to a handler.
fn has_handler(block: &BlockNote) -> bool
    ensures { result ≡ has_handler block.now }
{
    match block {
        BlockNote::Loop { .. } => false,
        BlockNote::TryExcept { .. } => true,
        BlockNote::Finally { .. } => true,
        BlockNote::FinallyHandler { .. } => false,
        BlockNote::ExceptHandler { .. } => false,
    }
}

/// Whether what leaves the innermost block that has a handler may come to it.
fn innermost_lands(code: &Annotated, kinds: &[Kind], blocks: &BlockList) -> bool
    ensures { result ≡ innermost_lands (sheet_of code.now) kinds.now blocks.now }
{
    let mut ks = kinds;
    let mut left = blocks;
    'land: loop {
        match left.split() {
            None => return true,
            Some((block, outer)) => {
                ks = bottom(ks, level_of(block));
                if has_handler(block) {
                    return handler_lands(code, block, ks, outer);
                }
                left = outer;
            }
        }
    }
}

/// The same at a place, where a note with more kinds than the code has room for says no.
fn innermost_lands_at(alloc: Global, code: &Annotated, at: usize) -> Result<bool, NoMemory>
    ensures { IfOk result (λ lands. lands ≡ true → InnermostLandsAt (sheet_of code.now) at) }
{
    match code.notes.get(at) {
        None => Ok(true),
        Some(Note::Dead) => Ok(true),
        Some(Note::Live { kinds, blocks }) => {
            if blocks.len() == 0 {
                return Ok(true);
            }
            if kinds.len() > code.code.code.max_stackdepth as usize {
                return Ok(false);
            }
            let kinds = kinds.expanded(alloc)?;
            Ok(innermost_lands(code, kinds.as_slice(), blocks))
        }
    }
}

/// Whether the same is so at each note.
pub(crate) fn all_innermost_land(alloc: Global, code: &Annotated) -> Result<bool, NoMemory>
    ensures { IfOk result
        (λ land. land ≡ true → InnermostLand (sheet_of code.now) (length code.now.notes)) }
{
    for at in 0..code.notes.len() {
        if !innermost_lands_at(alloc, code, at)? {
            return Ok(false);
        }
    }
    Ok(true)
}

/// Whether what is raised at a unit may come to each open handler. It may, where that is known of the innermost ones.
pub(crate) fn open_handlers_land(
    code: &Annotated,
    kinds: &[Kind],
    blocks: &BlockList,
    all_land: bool,
) -> bool
    requires nest { levels_nest (length kinds.now) blocks.now ≡ true }
    requires here { all_land ≡ true
        → innermost_lands (sheet_of code.now) kinds.now blocks.now ≡ true }
    requires all { all_land ≡ true → InnermostLand (sheet_of code.now) (length code.now.notes) }
    ensures { result ≡ handlers_land (sheet_of code.now) kinds.now blocks.now }
{
    all_land || handlers_land(code, kinds, blocks)
}
