//! Running one unit: an arm an instruction.

ghost use Rattle.std.specs.Prelude.{◌≡◌, ◌+◌, ◌^◌, ◌<◌, length, IfOk, OnErr};
ghost use Rattle.py_frame.specs.Added.{AddsConstants, ClassesAreThere};
ghost use Rattle.py_frame.specs.Exits.{OpTellsExit};
ghost use Rattle.py_frame.specs.Cores.{CanMove, Does, HasBegun, IsUnchanged, MayDo, NextTellsExit};
ghost use Rattle.py_frame.specs.Frames.{parts};
ghost use Rattle.py_frame.specs.UnitRows.{acts, advances, extends};

use crate::executing::ExecutingFrame;
use crate::scene::Scene;
use crate::unit_step::UnitStep;
use py_code::{Instruction, NoMemory, OpArg};
use py_objects::Store;
use py_rows::{BlockType, UnwindReason};
use py_stack::ValueStack;

impl<S: ValueStack> ExecutingFrame<S> {
    /// Runs the unit that comes next. Where memory runs out it has begun.
    pub(crate) fn execute(
        &mut self,
        scene: &Scene<'_>,
        store: &mut Store,
    ) -> Result<UnitStep, NoMemory>
        requires there { self.old.core.state.at < length (parts scene.now).instructions.items }
        requires few { length (parts scene.now).instructions.items < 2 ^ 32 }
        requires classes { ClassesAreThere store.old.made }
        requires safe { CanMove S.seen store.old (advances scene.now) self.old }
        ensures row { IfOk result (MayDo S.seen store.new (advances scene.now) self.old self.new) }
        ensures traceback { IfOk result (NextTellsExit scene.now self.old.core store.old store.new) }
        ensures err { OnErr result (HasBegun S.seen self.old self.new) }
        ensures objects { AddsConstants store.old.made store.new.made }
        ensures unchanged { store.new ≡ record store.old { made = store.new.made } }
    {
        let unit = scene.unit_at(self.core.unit());
        let mut prefix = self.core.prefix();
        let arg = prefix.extend(unit.arg);
        self.core.begin();
        self.execute_instruction(scene, store, unit.op, arg.0)
    }

    /// Runs an instruction with its whole argument.
    fn execute_instruction(
        &mut self,
        scene: &Scene<'_>,
        store: &mut Store,
        op: Instruction,
        arg: u32,
    ) -> Result<UnitStep, NoMemory>
        requires next { self.old.core.state.at + 1 < 2 ^ 32 }
        requires classes { ClassesAreThere store.old.made }
        requires safe { CanMove S.seen store.old (acts scene.now op arg) self.old }
        ensures row { IfOk result (MayDo S.seen store.new (acts scene.now op arg) self.old self.new) }
        // No other instruction asks an exit.
        ensures traceback { IfOk result (OpTellsExit op store.old store.new) }
        ensures err { OnErr result (IsUnchanged S.seen self.old self.new) }
        ensures objects { AddsConstants store.old.made store.new.made }
        ensures unchanged { store.new ≡ record store.old { made = store.new.made } }
    {
        match op {
            Instruction::LoadConst => self.load_const(scene, store, arg as usize),
            Instruction::LoadFast => self.load_fast(scene, arg as usize),
            Instruction::StoreFast => Ok(self.store_fast(arg as usize)),
            Instruction::DeleteFast => self.delete_fast(scene, arg as usize),
            Instruction::CallFunctionPositional => self.call_function(store, arg as usize),
            Instruction::Jump => Ok(self.transfers(arg)),
            Instruction::JumpIfTrue | Instruction::JumpIfFalse => Ok(self.asks_truth()),
            Instruction::SetupLoop => Ok(self.setup_loop()),
            Instruction::SetupExcept => Ok(self.opens(BlockType::TryExcept { handler: arg })),
            Instruction::SetupFinally => Ok(self.opens(BlockType::Finally { handler: arg })),
            Instruction::EnterFinally => Ok(self.enters_finally()),
            Instruction::EndFinally => Ok(self.end_finally()),
            Instruction::SetupWith => Ok(self.asks_enter()),
            Instruction::WithCleanupStart => self.start_cleanup(store),
            Instruction::WithCleanupFinish => Ok(self.finish_cleanup()),
            Instruction::PopBlock => Ok(self.leave_block()),
            Instruction::PopException => Ok(self.pop_exception()),
            Instruction::Raise => Ok(self.raises(arg)),
            Instruction::Break => Ok(self.unwind(UnwindReason::Break(arg))),
            Instruction::Continue => Ok(self.unwind(UnwindReason::Continue(arg))),
            Instruction::ReturnValue => Ok(self.return_value()),
            Instruction::ReturnConst => self.return_const(scene, store, arg as usize),
            Instruction::YieldValue => Ok(self.yield_value()),
            Instruction::ExtendedArg => Ok(self.extends(arg)),
            Instruction::Pop
            | Instruction::Duplicate
            | Instruction::Rotate2
            | Instruction::Rotate3 => Ok(self.move_entries(op, arg)),
            Instruction::LoadGlobal
            | Instruction::BinaryOperation
            | Instruction::CompareOperation
            | Instruction::TestOperation
            | Instruction::PrintExpr => self.ask_once(scene, op, arg),
            _ => unreachable!(),
        }
    }

    /// Keeps the argument of a prefix for the next unit.
    fn extends(&mut self, arg: u32) -> UnitStep
        requires { self.old.core.state.at + 1 < 2 ^ 32 }
        ensures { Does S.seen (extends arg) self.old self.new result }
    {
        self.core.goes_on();
        self.core.keeps(OpArg(arg));
        UnitStep::Goes
    }
}
