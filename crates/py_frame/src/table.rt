//! Instructions that the table of effects describes.

ghost use Rattle.std.specs.Prelude.{◌≡◌, ◌+◌, ◌^◌, ◌<◌, Some, true, IfOk, OnOk, OnErr};
ghost use Rattle.py_stack.specs.Stacks.{places};
ghost use Rattle.py_rows.specs.Rows.{is_there};
ghost use Rattle.py_frame.specs.Cores.{Asks, CanAsk, CanDo, Does, IsUnchanged};
ghost use Rattle.py_frame.specs.UnitRows.{asks_as, asks_test, global_name, moves_as};

use crate::executing::ExecutingFrame;
use crate::frame_core::FrameCore;
use crate::scene::Scene;
use crate::stacks::pop_two;
use crate::unit_step::UnitStep;
use py_code::{
    BinaryOperator, ComparisonOperator, Instruction, NoMemory, PyText, TestOperator, text_of_str,
};
use py_objects::Request;
use py_stack::ValueStack;

impl<S: ValueStack> ExecutingFrame<S> {
    /// Moves entries of the stack.
    pub(crate) fn move_entries(&mut self, op: Instruction, arg: u32) -> UnitStep
        requires next { self.old.core.state.at + 1 < 2 ^ 32 }
        requires safe { CanDo S.seen (moves_as op arg) self.old }
        ensures { Does S.seen (moves_as op arg) self.old self.new result }
    {
        match op {
            Instruction::Pop => {
                self.stack.pop();
            }
            Instruction::Duplicate => {
                let value = self.stack.top();
                self.stack.push(value);
            }
            Instruction::Rotate2 => {
                let (lower, upper) = pop_two(&mut self.stack);
                self.stack.push(upper);
                self.stack.push(lower);
            }
            Instruction::Rotate3 => {
                let upper = self.stack.pop();
                let (lowest, lower) = pop_two(&mut self.stack);
                self.stack.push(upper);
                self.stack.push(lowest);
                self.stack.push(lower);
            }
            _ => unreachable!(),
        }
        self.core.goes_on();
        UnitStep::Goes
    }

    /// Asks something of the operands that it takes.
    pub(crate) fn ask_once(
        &mut self,
        scene: &Scene<'_>,
        op: Instruction,
        arg: u32,
    ) -> Result<UnitStep, NoMemory>
        requires safe { CanDo S.seen (asks_as scene.now self.old.core op arg) self.old }
        ensures row { IfOk result (Does S.seen (asks_as scene.now self.old.core op arg) self.old self.new) }
        ensures err { OnErr result (IsUnchanged S.seen self.old self.new) }
    {
        let request = self.core.request(&mut self.stack, scene, op, arg)?;
        Ok(self.asks(request))
    }
}

impl FrameCore {
    /// Takes the operands of an instruction off, and hands over what it asks of them.
    fn request<S: ValueStack>(
        &self,
        stack: &mut S,
        scene: &Scene<'_>,
        op: Instruction,
        arg: u32,
    ) -> Result<Request, NoMemory>
        requires safe { CanAsk S.seen (asks_as scene.now self.now op arg) self.now stack.old }
        ensures request { IfOk result (Asks S.seen (asks_as scene.now self.now op arg) self.now stack.old stack.new) }
        ensures places { OnOk result (places (S.seen stack.new) ≡ places (S.seen stack.old)) }
        ensures err { OnErr result (S.seen stack.new ≡ S.seen stack.old) }
    {
        match op {
            Instruction::LoadGlobal => {
                let name = name_of_global(scene, arg as usize)?;
                Ok(Request::Global(self.globals(), name))
            }
            Instruction::BinaryOperation => {
                let Ok(operator) = BinaryOperator::try_from(arg) else {
                    unreachable!();
                };
                let (left, right) = pop_two(stack);
                Ok(Request::Binary(operator, left, right))
            }
            Instruction::CompareOperation => {
                let Ok(operator) = ComparisonOperator::try_from(arg) else {
                    unreachable!();
                };
                let (left, right) = pop_two(stack);
                Ok(Request::Compare(operator, left, right))
            }
            Instruction::TestOperation => Ok(self.test_request(stack, arg)),
            Instruction::PrintExpr => Ok(Request::Show(stack.pop())),
            _ => unreachable!(),
        }
    }

    /// A test of the top two values, the left one of which lies lower.
    fn test_request<S: ValueStack>(&self, stack: &mut S, arg: u32) -> Request
        requires { CanAsk S.seen (asks_test arg) self.now stack.old }
        ensures request { Asks S.seen (asks_test arg) self.now stack.old stack.new result }
        ensures places { places (S.seen stack.new) ≡ places (S.seen stack.old) }
    {
        let Ok(operator) = TestOperator::try_from(arg) else {
            unreachable!();
        };
        let (left, right) = pop_two(stack);
        match operator {
            TestOperator::ExceptionMatch => Request::Match(left, right),
            _ => unreachable!(),
        }
    }
}

/// The name of a global.
fn name_of_global(scene: &Scene<'_>, place: usize) -> Result<PyText, NoMemory>
    requires { is_there (global_name scene.now place) ≡ true }
    ensures { IfOk result (λ name. global_name scene.now place ≡ Some name) }
{
    match scene.parts().names.get(place) {
        Some(id) => text_of_str(scene.alloc, scene.names.text(*id)),
        None => unreachable!(),
    }
}
