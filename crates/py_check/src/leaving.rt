//! Where control comes to that leaves blocks.

ghost use Rattle.std.specs.Prelude.{◌≡◌, drop, slice_get};
ghost use Rattle.std.specs.List.{list_all};
ghost use Rattle.py_check.specs.Sheet.{sheet_of};
ghost use Rattle.py_check.specs.Sites.{at_site, blocks_on, kinds_on};
ghost use Rattle.py_check.specs.Leaving.{ends_async, ends_cleanup, ends_finally, ends_with, is_except_handler, is_finally_handler, is_popped, leaves_block, leaves_handler, lets_wait, reaches_loop, starts_cleanup, walks};
ghost use Rattle.py_check.specs.Notes.{pending_of};

use crate::annotated::Annotated;
use crate::blocks::BlockList;
use crate::fits::{level_of, may_wait, pending_of};
use crate::landing::{Stack, bottom, goes_on, jumps, top_level};
use crate::note::{BlockNote, Kind, Note, Pending};
use crate::opened::Opened;
use crate::site::Site;
use crate::taking::reads;

/// What a unit leaves that leaves blocks: entries of these kinds, and these blocks.
fn without<'a>(kinds: &'a [Kind], blocks: &'a BlockList) -> Stack<'a>
    ensures kinds { kinds_on result ≡ kinds.now }
    ensures blocks { blocks_on result ≡ blocks.now }
{
    Stack {
        front: &[],
        rest: kinds,
        opened: Opened::Nothing,
        blocks,
    }
}

/// The kinds below the two entries on top.
fn below_two(kinds: &[Kind]) -> &[Kind]
    ensures { result.now ≡ drop 2 kinds.now }
{
    &kinds[kinds.len().min(2)..]
}

fn is_popped(block: &BlockNote) -> bool
    ensures { result ≡ is_popped block.now }
{
    matches!(
        block,
        BlockNote::Loop { .. } | BlockNote::TryExcept { .. } | BlockNote::Finally { .. }
    )
}

fn is_finally_handler(block: &BlockNote) -> bool
    ensures { result ≡ is_finally_handler block.now }
{
    matches!(block, BlockNote::FinallyHandler { .. })
}

fn is_except_handler(block: &BlockNote) -> bool
    ensures { result ≡ is_except_handler block.now }
{
    matches!(block, BlockNote::ExceptHandler { .. })
}

/// Whether the innermost block may end, with what lies above its level.
pub(crate) fn leaves_block(site: &Site<'_>) -> bool
    ensures { result ≡ at_site leaves_block site.now }
{
    match site.blocks.split() {
        None => false,
        Some((block, outer)) => {
            let rest = bottom(site.kinds, level_of(block));
            is_popped(block) && goes_on(site.code, site.next(), &without(rest, outer))
        }
    }
}

/// Whether the handler of a finally lets a jump wait.
fn lets_wait(code: &Annotated, handler: usize, pending: Pending) -> bool
    ensures { result ≡ lets_wait (slice_get code.now.notes handler) pending }
{
    match code.notes.get(handler) {
        Some(Note::Live { blocks, .. }) => match blocks.split() {
            Some((block, _)) => may_wait(pending, pending_of(block)),
            None => false,
        },
        Some(Note::Dead) => false,
        None => false,
    }
}

/// Whether a break lands after its loop, or a continue in it.
fn reaches_loop(
    code: &Annotated,
    pending: Pending,
    level: usize,
    kinds: &[Kind],
    blocks: &BlockList,
) -> bool
    ensures { result ≡ reaches_loop (sheet_of code.now) pending level kinds.now blocks.now }
{
    match pending {
        Pending::Break(to) => jumps(code, to, &without(bottom(kinds, level), blocks)),
        Pending::Continue(to) => {
            let stack = Stack {
                front: &[],
                rest: kinds,
                opened: Opened::Loop { level },
                blocks,
            };
            jumps(code, to, &stack)
        }
    }
}

/// Whether a break or a continue finds its loop, or a finally whose handler lets it wait.
pub(crate) fn walks(code: &Annotated, pending: Pending, kinds: &[Kind], blocks: &BlockList) -> bool
    ensures { result ≡ walks (sheet_of code.now) pending kinds.now blocks.now }
{
    let mut ks = kinds;
    let mut left = blocks;
    'walk: loop {
        match left.split() {
            None => return false,
            Some((block, outer)) => {
                match block {
                    BlockNote::Loop { level } => {
                        return reaches_loop(code, pending, *level, ks, outer);
                    }
                    BlockNote::Finally { handler, .. } => {
                        return lets_wait(code, *handler as usize, pending);
                    }
                    BlockNote::TryExcept { level, .. } => {
                        ks = bottom(ks, *level);
                    }
                    BlockNote::FinallyHandler { level, .. } => {
                        ks = bottom(ks, *level);
                    }
                    BlockNote::ExceptHandler { level } => {
                        ks = bottom(ks, *level);
                    }
                }
                left = outer;
            }
        }
    }
}

fn all_walk(code: &Annotated, waiting: &[Pending], kinds: &[Kind], blocks: &BlockList) -> bool
    ensures { result ≡ list_all (λ p. walks (sheet_of code.now) p kinds.now blocks.now) waiting.now }
{
    waiting
        .iter()
        .all(|pending| walks(code, *pending, kinds, blocks))
}

fn ends_with(
    code: &Annotated,
    to: usize,
    block: &BlockNote,
    kinds: &[Kind],
    blocks: &BlockList,
) -> bool
    ensures { result ≡ ends_with (sheet_of code.now) to block.now kinds.now blocks.now }
{
    is_finally_handler(block)
        && (goes_on(code, to, &without(kinds, blocks))
            && all_walk(code, pending_of(block), kinds, blocks))
}

/// Whether the innermost block is the handler of a finally, and may end.
pub(crate) fn ends_finally(site: &Site<'_>) -> bool
    ensures { result ≡ at_site ends_finally site.now }
{
    match site.blocks.split() {
        None => false,
        Some((block, outer)) => {
            let rest = bottom(site.kinds, level_of(block));
            ends_with(site.code, site.next(), block, rest, outer)
        }
    }
}

/// Whether the innermost block is the handler of an except, and may end.
pub(crate) fn leaves_handler(site: &Site<'_>) -> bool
    ensures { result ≡ at_site leaves_handler site.now }
{
    match site.blocks.split() {
        None => false,
        Some((block, outer)) => {
            let rest = bottom(site.kinds, level_of(block));
            is_except_handler(block) && goes_on(site.code, site.next(), &without(rest, outer))
        }
    }
}

/// Whether an exit is called with nothing above it.
pub(crate) fn starts_cleanup(site: &Site<'_>) -> bool
    ensures { result ≡ at_site starts_cleanup site.now }
{
    match site.blocks.split() {
        None => false,
        Some((block, outer)) => {
            is_finally_handler(block)
                && (site.kinds.len() == level_of(block)
                    && (top_level(outer) < level_of(block)
                        && site.goes_on(&[Kind::Any], site.kinds)))
        }
    }
}

/// Whether the answer of an exit and the exit may go.
pub(crate) fn ends_cleanup(site: &Site<'_>) -> bool
    ensures { result ≡ at_site ends_cleanup site.now }
{
    match site.blocks.split() {
        None => false,
        Some((block, outer)) => {
            let rest = below_two(site.kinds);
            site.kinds.len().checked_sub(1) == Some(level_of(block))
                && (top_level(outer) < level_of(block)
                    && ends_with(site.code, site.next(), block, rest, outer))
        }
    }
}

/// Whether the exception after an asynchronous loop and its iterator may go.
pub(crate) fn ends_async(site: &Site<'_>) -> bool
    ensures { result ≡ at_site ends_async site.now }
{
    match site.blocks.split() {
        None => false,
        Some((block, outer)) => {
            let rest = below_two(site.kinds);
            is_except_handler(block)
                && (reads(0, Kind::Exc, site.kinds)
                    && (site.kinds.len().checked_sub(1) == Some(level_of(block))
                        && (top_level(outer) < level_of(block)
                            && goes_on(site.code, site.next(), &without(rest, outer)))))
        }
    }
}
