//! Leaving blocks.

ghost use Rattle.std.specs.Prelude.{◌≡◌, ◌<◌, None};
ghost use Rattle.py_rows.specs.States.{jumps};
ghost use Rattle.py_rows.specs.Unwinding.{unwinds};
ghost use Rattle.py_frame.specs.Cores.{CanDo, Does, KeepsFrame, Meets};
ghost use Rattle.py_frame.specs.UnitRows.{catches, enters_handler, meets_block};

use crate::executing::ExecutingFrame;
use crate::input::FrameStep;
use crate::objects::as_object;
use crate::stacks::lower;
use crate::unit_step::UnitStep;
use py_objects::PyBaseExceptionRef;
use py_rows::{Block, BlockType, Expect, UnwindReason};
use py_stack::ValueStack;

impl<S: ValueStack> ExecutingFrame<S> {
    /// Control goes from the unit that runs to a label. It is a round where that isn't later.
    pub(crate) fn transfers(&mut self, label: u32) -> UnitStep
        ensures { Does S.seen (jumps label) self.old self.new result }
    {
        let later = self.core.unit() < label;
        self.core.lands(label);
        if later {
            UnitStep::Goes
        } else {
            UnitStep::Tells(FrameStep::Round)
        }
    }

    /// Enters the handler of a `TryExcept` by an exception.
    #[tactic(auto, using(crate::proofs::SafeLemmas::safe_jump))]
    fn enter_except(
        &mut self,
        level: usize,
        handler: u32,
        exception: PyBaseExceptionRef,
    ) -> UnitStep
        requires { CanDo S.seen (catches handler level exception) self.old }
        ensures { Does S.seen (catches handler level exception) self.old self.new result }
    {
        lower(&mut self.stack, level);
        self.stack.push(as_object(exception));
        let kept = self.core.slot();
        self.core.push_block(Block {
            typ: BlockType::ExceptHandler { exception, kept },
            level,
        });
        self.core.handles(Some(exception));
        self.transfers(handler)
    }

    /// Enters the handler of a `Finally`.
    #[tactic(auto, using(crate::proofs::SafeLemmas::safe_jump))]
    fn enter_finally(&mut self, level: usize, handler: u32, reason: UnwindReason) -> UnitStep
        requires { CanDo S.seen (enters_handler handler level reason) self.old }
        ensures { Does S.seen (enters_handler handler level reason) self.old self.new result }
    {
        lower(&mut self.stack, level);
        let kept = self.core.slot();
        self.core.push_block(Block {
            typ: BlockType::FinallyHandler {
                reason: Some(reason),
                kept,
            },
            level,
        });
        if let UnwindReason::Raising(exception) = reason {
            self.core.handles(Some(exception));
        }
        self.transfers(handler)
    }

    /// The innermost block is met. None: it is passed, and left.
    fn meet(&mut self, block: Block, reason: UnwindReason) -> Option<UnitStep>
        requires safe { CanDo S.seen (meets_block reason block) self.old }
        requires room { 0 < self.old.core.block_room }
        ensures row { Meets S.seen reason block self.old self.new result }
        ensures same { KeepsFrame S.seen self.old self.new }
        ensures at { result ≡ None → self.new.core.state.at ≡ self.old.core.state.at }
        ensures fewer { result ≡ None → self.new.core.state.blocks ≡ self.old.core.state.blocks }
    {
        match block.typ {
            BlockType::Loop => match reason {
                UnwindReason::Break(label) => {
                    lower(&mut self.stack, block.level);
                    Some(self.transfers(label))
                }
                UnwindReason::Continue(label) => {
                    self.core.push_block(block);
                    Some(self.transfers(label))
                }
                UnwindReason::Raising(_) | UnwindReason::Returning(_) => {
                    lower(&mut self.stack, block.level);
                    None
                }
            },
            BlockType::TryExcept { handler } => match reason {
                UnwindReason::Raising(exception) => {
                    Some(self.enter_except(block.level, handler, exception))
                }
                UnwindReason::Returning(_) | UnwindReason::Break(_) | UnwindReason::Continue(_) => {
                    lower(&mut self.stack, block.level);
                    None
                }
            },
            BlockType::Finally { handler } => {
                Some(self.enter_finally(block.level, handler, reason))
            }
            BlockType::FinallyHandler { reason: _, kept } => {
                lower(&mut self.stack, block.level);
                self.core.handles(kept);
                None
            }
            BlockType::ExceptHandler { exception: _, kept } => {
                lower(&mut self.stack, block.level);
                self.core.handles(kept);
                None
            }
        }
    }

    /// Leaves blocks for a reason, until one takes it or the frame ends.
    #[tactic(auto, unfolding(py_rows::specs::Unwinding::unwinds))]
    pub(crate) fn unwind(&mut self, reason: UnwindReason) -> UnitStep
        requires { CanDo S.seen (unwinds reason) self.old }
        ensures { Does S.seen (unwinds reason) self.old self.new result }
    {
        'blocks_left: while let Some(block) = self.core.pop_block() {
            if let Some(step) = self.meet(block, reason) {
                return step;
            }
        }
        self.core.waits(Expect::Ended);
        match reason {
            UnwindReason::Raising(exception) => UnitStep::Tells(FrameStep::Raise(exception)),
            UnwindReason::Returning(value) => UnitStep::Tells(FrameStep::Return(value)),
            UnwindReason::Break(_) => unreachable!(),
            UnwindReason::Continue(_) => unreachable!(),
        }
    }
}
