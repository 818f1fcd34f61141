//! Instructions that open blocks and end them.

ghost use Rattle.std.specs.Prelude.{◌+◌, ◌^◌, ◌<◌};
ghost use Rattle.py_rows.specs.Rows.{end_finally, goes_on, opens, setup_loop};
ghost use Rattle.py_frame.specs.Cores.{CanDo, Does};
ghost use Rattle.py_frame.specs.UnitRows.{leaves_block, leaves_handler, opens_handler};

use crate::executing::ExecutingFrame;
use crate::input::FrameStep;
use crate::stacks::lower;
use crate::unit_step::UnitStep;
use py_rows::{Block, BlockType, UnwindReason};
use py_stack::ValueStack;

impl<S: ValueStack> ExecutingFrame<S> {
    /// Opens a block.
    pub(crate) fn opens(&mut self, typ: BlockType) -> UnitStep
        requires next { self.old.core.state.at + 1 < 2 ^ 32 }
        requires safe { CanDo S.seen (opens typ) self.old }
        ensures { Does S.seen (opens typ) self.old self.new result }
    {
        let level = self.stack.len();
        self.core.goes_on();
        self.core.push_block(Block { typ, level });
        UnitStep::Goes
    }

    /// Opens the block of a handler of a finally that control came to in order.
    pub(crate) fn enters_finally(&mut self) -> UnitStep
        requires next { self.old.core.state.at + 1 < 2 ^ 32 }
        requires safe { CanDo S.seen opens_handler self.old }
        ensures { Does S.seen opens_handler self.old self.new result }
    {
        let kept = self.core.slot();
        self.opens(BlockType::FinallyHandler { reason: None, kept })
    }

    /// Opens the block of a loop, which is its first round.
    pub(crate) fn setup_loop(&mut self) -> UnitStep
        requires next { self.old.core.state.at + 1 < 2 ^ 32 }
        requires safe { CanDo S.seen setup_loop self.old }
        ensures { Does S.seen setup_loop self.old self.new result }
    {
        let level = self.stack.len();
        self.core.goes_on();
        self.core.push_block(Block {
            typ: BlockType::Loop,
            level,
        });
        UnitStep::Tells(FrameStep::Round)
    }

    /// Leaves the innermost block in order.
    pub(crate) fn leave_block(&mut self) -> UnitStep
        requires next { self.old.core.state.at + 1 < 2 ^ 32 }
        requires safe { CanDo S.seen leaves_block self.old }
        ensures { Does S.seen leaves_block self.old self.new result }
    {
        let Some(block) = self.core.pop_block() else {
            unreachable!();
        };
        match block.typ {
            BlockType::Loop | BlockType::TryExcept { .. } | BlockType::Finally { .. } => {
                lower(&mut self.stack, block.level);
                self.core.goes_on();
                UnitStep::Goes
            }
            BlockType::FinallyHandler { .. } => unreachable!(),
            BlockType::ExceptHandler { .. } => unreachable!(),
        }
    }

    /// Leaves the handler of an exception.
    pub(crate) fn pop_exception(&mut self) -> UnitStep
        requires next { self.old.core.state.at + 1 < 2 ^ 32 }
        requires safe { CanDo S.seen leaves_handler self.old }
        ensures { Does S.seen leaves_handler self.old self.new result }
    {
        let Some(block) = self.core.pop_block() else {
            unreachable!();
        };
        match block.typ {
            BlockType::ExceptHandler { exception: _, kept } => {
                lower(&mut self.stack, block.level);
                self.core.handles(kept);
                self.core.goes_on();
                UnitStep::Goes
            }
            _ => unreachable!(),
        }
    }

    /// Goes on with the reason of a finally, if any.
    fn goes_on_with(&mut self, reason: Option<UnwindReason>) -> UnitStep
        requires next { self.old.core.state.at + 1 < 2 ^ 32 }
        requires safe { CanDo S.seen (goes_on reason) self.old }
        ensures { Does S.seen (goes_on reason) self.old self.new result }
    {
        match reason {
            None => {
                self.core.goes_on();
                UnitStep::Goes
            }
            Some(reason) => self.unwind(reason),
        }
    }

    /// Leaves the handler of a finally, and goes on with its reason.
    pub(crate) fn end_finally(&mut self) -> UnitStep
        requires next { self.old.core.state.at + 1 < 2 ^ 32 }
        requires safe { CanDo S.seen end_finally self.old }
        ensures { Does S.seen end_finally self.old self.new result }
    {
        let Some(block) = self.core.pop_block() else {
            unreachable!();
        };
        match block.typ {
            BlockType::FinallyHandler { reason, kept } => {
                lower(&mut self.stack, block.level);
                self.core.handles(kept);
                self.goes_on_with(reason)
            }
            _ => unreachable!(),
        }
    }
}
