//! Which kinds and blocks fit which.

ghost use Rattle.std.specs.Prelude.{◌≡◌};
ghost use Rattle.std.specs.List.{list_all, list_any};
ghost use Rattle.py_check.specs.Opened.{inside, opens};
ghost use Rattle.py_check.specs.Notes.{block_fits, block_number, blocks_fit, handler_of, is_subset, kind_fits, level_of, pending_of, plain_kind, same_pending};

use crate::blocks::BlockList;
use crate::note::{BlockNote, Kind, Pending};
use crate::opened::Opened;

fn plain_kind(kind: Kind) -> Kind
    ensures { result ≡ plain_kind kind }
{
    match kind {
        Kind::Cells(_) => Kind::Tuple,
        Kind::Names(_) => Kind::Tuple,
        _ => kind,
    }
}

/// Whether a kind is as wanted.
pub(crate) fn kind_fits(kind: Kind, wanted: Kind) -> bool
    ensures { result ≡ kind_fits kind wanted }
{
    kind == wanted || (plain_kind(kind) == wanted || Kind::Any == wanted)
}

/// Whether kinds are all as wanted.
pub(crate) fn kinds_are(kinds: &[Kind], wanted: Kind) -> bool
    ensures { result ≡ list_all (λ k. kind_fits k wanted) kinds.now }
{
    kinds.iter().all(|kind| kind_fits(*kind, wanted))
}

/// Whether a jump is among others.
pub(crate) fn may_wait(pending: Pending, others: &[Pending]) -> bool
    ensures { result ≡ list_any (same_pending pending) others.now }
{
    others.iter().any(|other| pending == *other)
}

fn is_subset(waiting: &[Pending], others: &[Pending]) -> bool
    ensures { result ≡ is_subset waiting.now others.now }
{
    waiting.iter().all(|pending| may_wait(*pending, others))
}

fn block_number(block: &BlockNote) -> u8
    ensures { result ≡ block_number block.now }
{
    match block {
        BlockNote::Loop { .. } => 0,
        BlockNote::TryExcept { .. } => 1,
        BlockNote::Finally { .. } => 2,
        BlockNote::FinallyHandler { .. } => 3,
        BlockNote::ExceptHandler { .. } => 4,
    }
}

/// How many entries lie under a block.
pub(crate) fn level_of(block: &BlockNote) -> usize
    ensures { result ≡ level_of block.now }
{
    match block {
        BlockNote::Loop { level } => *level,
        BlockNote::TryExcept { level, .. } => *level,
        BlockNote::Finally { level, .. } => *level,
        BlockNote::FinallyHandler { level, .. } => *level,
        BlockNote::ExceptHandler { level } => *level,
    }
}

fn handler_of(block: &BlockNote) -> u32
    ensures { result ≡ handler_of block.now }
{
    match block {
        BlockNote::TryExcept { handler, .. } => *handler,
        BlockNote::Finally { handler, .. } => *handler,
        BlockNote::Loop { .. } => 0,
        BlockNote::FinallyHandler { .. } => 0,
        BlockNote::ExceptHandler { .. } => 0,
    }
}

/// The jumps that may wait in a block.
pub(crate) fn pending_of(block: &BlockNote) -> &[Pending]
    ensures { result.now ≡ pending_of block.now }
{
    match block {
        BlockNote::FinallyHandler { pending, .. } => pending.as_slice(),
        BlockNote::Loop { .. } => &[],
        BlockNote::TryExcept { .. } => &[],
        BlockNote::Finally { .. } => &[],
        BlockNote::ExceptHandler { .. } => &[],
    }
}

fn block_fits(block: &BlockNote, wanted: &BlockNote) -> bool
    ensures { result ≡ block_fits block.now wanted.now }
{
    block_number(block) == block_number(wanted)
        && (level_of(block) == level_of(wanted)
            && (handler_of(block) == handler_of(wanted)
                && is_subset(pending_of(block), pending_of(wanted))))
}

fn blocks_fit(blocks: &BlockList, wanted: &BlockList) -> bool
    ensures { result ≡ blocks_fit blocks.now wanted.now }
{
    let mut bs = blocks;
    let mut cs = wanted;
    'fit: loop {
        match bs.split() {
            None => return cs.len() == 0,
            Some((b, more_bs)) => match cs.split() {
                None => return false,
                Some((c, more_cs)) => {
                    if !block_fits(b, c) {
                        return false;
                    }
                    bs = more_bs;
                    cs = more_cs;
                }
            },
        }
    }
}

/// Whether the block that a unit opens has the form, the level and the handler of another.
fn opens(opened: Opened, block: &BlockNote) -> bool
    ensures { result ≡ opens opened block.now }
{
    match (opened, block) {
        (Opened::Loop { level }, BlockNote::Loop { level: wanted }) => level == *wanted,
        (
            Opened::TryExcept { level, handler },
            BlockNote::TryExcept {
                level: wanted,
                handler: label,
            },
        ) => level == *wanted && handler == *label,
        (
            Opened::Finally { level, handler },
            BlockNote::Finally {
                level: wanted,
                handler: label,
            },
        ) => level == *wanted && handler == *label,
        (Opened::FinallyHandler { level }, BlockNote::FinallyHandler { level: wanted, .. }) => {
            level == *wanted
        }
        (Opened::ExceptHandler { level }, BlockNote::ExceptHandler { level: wanted }) => {
            level == *wanted
        }
        _ => false,
    }
}

/// Whether blocks, with one that is opened inside of them, fit others.
pub(crate) fn all_blocks_fit(opened: Opened, blocks: &BlockList, wanted: &BlockList) -> bool
    ensures { result ≡ blocks_fit (inside opened blocks.now) wanted.now }
{
    match opened {
        Opened::Nothing => blocks_fit(blocks, wanted),
        _ => match wanted.split() {
            None => false,
            Some((block, outer)) => opens(opened, block) && blocks_fit(blocks, outer),
        },
    }
}
