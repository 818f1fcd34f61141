//! What a frame does by itself: it runs its next unit, or goes by what it heard.

ghost use Rattle.std.specs.Prelude.{◌≡◌, ◌+◌, ◌^◌, ◌<◌, length, IfOk, OnErr};
ghost use Rattle.py_frame.specs.Added.{AddsConstants, ClassesAreThere};
ghost use Rattle.py_frame.specs.Cores.{CanDo, CanMove, Does, GoTellsExit, HasBegun, MayDo};
ghost use Rattle.py_frame.specs.Frames.{parts};
ghost use Rattle.py_frame.specs.UnitRows.{answers, goes, moves_on, pushes, takes};

use crate::executing::ExecutingFrame;
use crate::objects::truth;
use crate::scene::Scene;
use crate::unit_step::UnitStep;
use py_code::{Instruction, NoMemory};
use py_objects::{GotAnswer, PyObjectRef, Store};
use py_rows::{Expect, UnwindReason};
use py_stack::ValueStack;

impl<S: ValueStack> ExecutingFrame<S> {
    /// Runs the unit that comes next, or goes by what the frame heard. Where memory runs out the unit has begun.
    pub(crate) fn moves(
        &mut self,
        scene: &Scene<'_>,
        store: &mut Store,
    ) -> Result<UnitStep, NoMemory>
        requires there { self.old.core.state.at < length (parts scene.now).instructions.items }
        requires few { length (parts scene.now).instructions.items < 2 ^ 32 }
        requires classes { ClassesAreThere store.old.made }
        requires safe { CanMove S.seen store.old (moves_on scene.now) self.old }
        ensures row { IfOk result (MayDo S.seen store.new (moves_on scene.now) self.old self.new) }
        ensures traceback { GoTellsExit scene.now self.old.core store.old store.new result }
        ensures err { OnErr result (HasBegun S.seen self.old self.new) }
        ensures objects { AddsConstants store.old.made store.new.made }
        ensures unchanged { store.new ≡ record store.old { made = store.new.made } }
    {
        match self.core.expects() {
            Expect::Go => self.execute(scene, store),
            Expect::Heard(heard) => Ok(self.receive(scene, store, heard)),
            _ => unreachable!(),
        }
    }

    /// Goes by what the frame heard: a value goes to the unit that waited for it, an exception is raised there.
    fn receive(&mut self, scene: &Scene<'_>, store: &Store, heard: GotAnswer) -> UnitStep
        requires there { self.old.core.state.at < length (parts scene.now).instructions.items }
        requires few { length (parts scene.now).instructions.items < 2 ^ 32 }
        requires safe { CanMove S.seen store.now (takes scene.now heard) self.old }
        ensures { MayDo S.seen store.now (takes scene.now heard) self.old self.new result }
    {
        self.core.waits(Expect::Go);
        match heard {
            GotAnswer::Value(value) => {
                let unit = scene.unit_at(self.core.unit());
                let mut prefix = self.core.prefix();
                let arg = prefix.extend(unit.arg);
                self.answer_instruction(store, unit.op, arg.0, value)
            }
            GotAnswer::Raise(exception) => self.unwind(UnwindReason::Raising(exception)),
            GotAnswer::Stop(_) => unreachable!(),
        }
    }

    /// Takes a value that answers an instruction.
    fn answer_instruction(
        &mut self,
        store: &Store,
        op: Instruction,
        arg: u32,
        value: PyObjectRef,
    ) -> UnitStep
        requires next { self.old.core.state.at + 1 < 2 ^ 32 }
        requires safe { CanMove S.seen store.now (answers op arg value) self.old }
        ensures { MayDo S.seen store.now (answers op arg value) self.old self.new result }
    {
        match op {
            Instruction::LoadGlobal
            | Instruction::BinaryOperation
            | Instruction::CompareOperation
            | Instruction::TestOperation
            | Instruction::CallFunctionPositional
            | Instruction::WithCleanupStart
            | Instruction::YieldValue => self.push_answer(value),
            Instruction::PrintExpr => self.drop_answer(),
            Instruction::JumpIfTrue => self.jumps_if(truth(store, value), arg),
            Instruction::JumpIfFalse => self.jumps_if(!truth(store, value), arg),
            Instruction::SetupWith => self.enters(store, arg, value),
            Instruction::WithCleanupFinish => self.passes_if(truth(store, value)),
            Instruction::Raise => self.raised(arg, value),
            _ => unreachable!(),
        }
    }

    /// Pushes an answer.
    fn push_answer(&mut self, value: PyObjectRef) -> UnitStep
        requires next { self.old.core.state.at + 1 < 2 ^ 32 }
        requires safe { CanDo S.seen (pushes value) self.old }
        ensures { Does S.seen (pushes value) self.old self.new result }
    {
        self.core.goes_on();
        self.stack.push(value);
        UnitStep::Goes
    }

    /// Goes on without an answer.
    fn drop_answer(&mut self) -> UnitStep
        requires { self.old.core.state.at + 1 < 2 ^ 32 }
        ensures { Does S.seen goes self.old self.new result }
    {
        self.core.goes_on();
        UnitStep::Goes
    }
}
