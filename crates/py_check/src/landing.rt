//! Where control may come to, with which kinds and blocks.

ghost use Rattle.std.specs.Prelude.{◌≡◌, slice_get};
ghost use Rattle.py_code.specs.Bottom.{bottom};
ghost use Rattle.py_check.specs.Sheet.{sheet_of};
ghost use Rattle.py_check.specs.Sites.{blocks_on, kinds_on};
ghost use Rattle.py_check.specs.Operands.{is_label, is_prefix_there, is_prefixed};
ghost use Rattle.py_check.specs.Landing.{goes_on, handler_lands, handlers_land, has_room, jumps, lands, levels_nest, top_level};

use crate::annotated::Annotated;
use crate::blocks::BlockList;
use crate::fits::{all_blocks_fit, level_of};
use crate::note::{BlockNote, Kind, Note};
use crate::opened::Opened;
use py_code::CodeUnit;

/// Whether a prefix stands at a place.
pub(crate) fn is_prefix_there(units: &[CodeUnit], at: usize) -> bool
    ensures { result ≡ is_prefix_there (slice_get units.now at) }
{
    units.get(at).is_some_and(|unit| unit.op.is_prefix())
}

/// Whether the unit before a place is a prefix.
fn is_prefixed(units: &[CodeUnit], at: usize) -> bool
    ensures { result ≡ is_prefixed units.now at }
{
    match at.checked_sub(1) {
        None => false,
        Some(before) => is_prefix_there(units, before),
    }
}

/// Whether a place is a label.
pub(crate) fn is_label(units: &[CodeUnit], to: usize) -> bool
    ensures { result ≡ is_label units.now to }
{
    to < units.len() && !is_prefixed(units, to)
}

/// What a unit leaves: entries of these kinds, the first ones before the rest, and these blocks around the one that it opens.
#[derive(Clone, Copy)]
pub(crate) struct Stack<'a> {
    pub(crate) front: &'a [Kind],
    pub(crate) rest: &'a [Kind],
    pub(crate) opened: Opened,
    pub(crate) blocks: &'a BlockList,
}

/// Whether a code has room for what a unit leaves.
fn has_room(code: &Annotated, stack: &Stack<'_>) -> bool
    ensures { result ≡ has_room (sheet_of code.now) (kinds_on stack.now) }
{
    let room = code.code.code.max_stackdepth as usize;
    stack.front.len() <= room && stack.rest.len() <= room - stack.front.len()
}

/// Whether control may come to a place with it.
pub(crate) fn lands(code: &Annotated, to: usize, stack: &Stack<'_>) -> bool
    ensures { result ≡ lands (sheet_of code.now) to (kinds_on stack.now) (blocks_on stack.now) }
{
    match code.notes.get(to) {
        Some(Note::Live { kinds, blocks }) => {
            kinds.are_fit(stack.front, stack.rest)
                && all_blocks_fit(stack.opened, stack.blocks, blocks)
        }
        Some(Note::Dead) => false,
        None => false,
    }
}

/// Whether control may go on at a place with it.
pub(crate) fn goes_on(code: &Annotated, to: usize, stack: &Stack<'_>) -> bool
    ensures { result ≡ goes_on (sheet_of code.now) to (kinds_on stack.now) (blocks_on stack.now) }
{
    has_room(code, stack) && lands(code, to, stack)
}

/// Whether control may come to a label with it.
pub(crate) fn jumps(code: &Annotated, to: u32, stack: &Stack<'_>) -> bool
    ensures { result ≡ jumps (sheet_of code.now) to (kinds_on stack.now) (blocks_on stack.now) }
{
    let place = to as usize;
    is_label(code.code.code.instructions.as_slice(), place) && lands(code, place, stack)
}

/// The kinds of the lowest entries.
pub(crate) fn bottom(kinds: &[Kind], level: usize) -> &[Kind]
    ensures { result.now ≡ bottom level kinds.now }
{
    &kinds[kinds.len() - level.min(kinds.len())..]
}

/// How many entries a unit must leave where they are.
pub(crate) fn top_level(blocks: &BlockList) -> usize
    ensures { result ≡ top_level blocks.now }
{
    match blocks.split() {
        None => 0,
        Some((block, _)) => level_of(block),
    }
}

/// Whether no level passes the depth, nor that of the block inside it.
pub(crate) fn levels_nest(depth: usize, blocks: &BlockList) -> bool
    ensures { result ≡ levels_nest depth blocks.now }
{
    let mut top = depth;
    let mut left = blocks;
    'nest: loop {
        match left.split() {
            None => return true,
            Some((block, outer)) => {
                let level = level_of(block);
                if level > top {
                    return false;
                }
                top = level;
                left = outer;
            }
        }
    }
}

/// Whether what leaves a block may come to its handler, with these kinds under it and these blocks around it.
pub(crate) fn handler_lands(
    code: &Annotated,
    block: &BlockNote,
    kinds: &[Kind],
    blocks: &BlockList,
) -> bool
    ensures { result ≡ handler_lands (sheet_of code.now) block.now kinds.now blocks.now }
{
    match block {
        BlockNote::Loop { .. } => true,
        BlockNote::TryExcept { level, handler } => {
            let stack = Stack {
                front: &[Kind::Exc],
                rest: kinds,
                opened: Opened::ExceptHandler { level: *level },
                blocks,
            };
            jumps(code, *handler, &stack)
        }
        BlockNote::Finally { level, handler } => {
            let stack = Stack {
                front: &[],
                rest: kinds,
                opened: Opened::FinallyHandler { level: *level },
                blocks,
            };
            jumps(code, *handler, &stack)
        }
        BlockNote::FinallyHandler { .. } => true,
        BlockNote::ExceptHandler { .. } => true,
    }
}

/// The same of each open block.
pub(crate) fn handlers_land(code: &Annotated, kinds: &[Kind], blocks: &BlockList) -> bool
    ensures { result ≡ handlers_land (sheet_of code.now) kinds.now blocks.now }
{
    let mut ks = kinds;
    let mut left = blocks;
    'land: loop {
        match left.split() {
            None => return true,
            Some((block, outer)) => {
                ks = bottom(ks, level_of(block));
                if !handler_lands(code, block, ks, outer) {
                    return false;
                }
                left = outer;
            }
        }
    }
}
