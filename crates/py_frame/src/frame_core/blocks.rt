//! The blocks of a core.

ghost use Rattle.std.specs.Prelude.{◌≡◌, ◌+◌, ◌<◌, reverse, None};
ghost use Rattle.py_rows.specs.Handled.{handled_in};
ghost use Rattle.py_rows.specs.Rows.{raised_in};
ghost use Rattle.py_frame.specs.Steps.{GivesBack};
ghost use Rattle.py_frame.specs.UnitSteps.{GivesUp, PopsBlock, PushesBlock, block_places};

use super::FrameCore;
use py_objects::PyBaseExceptionRef;
use py_rows::{Block, BlockType, Expect, UnwindReason};

impl FrameCore {
    /// Opens a block.
    pub(crate) fn push_block(&mut self, block: Block)
        requires { 0 < self.old.block_room }
        ensures frame { PushesBlock self.old block self.new }
        ensures room { self.new.block_room + 1 ≡ self.old.block_room }
    {
        self.blocks.push_reserved(block);
    }

    /// Takes the innermost block off, where there is one.
    pub(crate) fn pop_block(&mut self) -> Option<Block>
        ensures frame { PopsBlock self.old result self.new }
        ensures room { block_places self.new ≡ block_places self.old }
    {
        self.blocks.pop()
    }

    /// Leaves all blocks, each handler with what it kept, and expects nothing more.
    pub(crate) fn gives_up(&mut self)
        ensures frame { GivesUp self.old self.new }
        ensures given_back { GivesBack self.old.state self.new.state }
        ensures room { self.new.block_room ≡ block_places self.old }
    {
        'blocks_left: while let Some(block) = self.pop_block() {
            match block.typ {
                BlockType::Loop | BlockType::TryExcept { .. } | BlockType::Finally { .. } => {}
                BlockType::FinallyHandler { reason: _, kept } => self.handles(kept),
                BlockType::ExceptHandler { exception: _, kept } => self.handles(kept),
            }
        }
        self.waits(Expect::Ended);
    }

    /// The exception of the innermost handler that was entered by one.
    pub(crate) fn handled(&self) -> Option<PyBaseExceptionRef>
        ensures { result ≡ handled_in None self.now.state.blocks }
    {
        handled(self.blocks.as_slice())
    }

    /// The exception that the innermost block was entered by, where it is the handler of a finally.
    pub(crate) fn raised_in(&self) -> Option<PyBaseExceptionRef>
        ensures { result ≡ raised_in self.now.state.blocks }
    {
        match self.blocks.last() {
            Some(block) => match block.typ {
                BlockType::FinallyHandler { reason, .. } => match reason {
                    Some(UnwindReason::Raising(exception)) => Some(exception),
                    _ => None,
                },
                _ => None,
            },
            None => None,
        }
    }
}

/// The exception of the last of these blocks that is a handler that was entered by one.
fn handled(blocks: &[Block]) -> Option<PyBaseExceptionRef>
    ensures { result ≡ handled_in None (reverse blocks.now) }
{
    let mut left = blocks;
    'blocks_left: while let [outer @ .., block] = left {
        match block.typ {
            BlockType::Loop => {}
            BlockType::TryExcept { .. } => {}
            BlockType::Finally { .. } => {}
            BlockType::FinallyHandler { reason, .. } => {
                if let Some(UnwindReason::Raising(exception)) = reason {
                    return Some(exception);
                }
            }
            BlockType::ExceptHandler { exception, .. } => return Some(exception),
        }
        left = outer;
    }
    None
}
