//! Which unit stands behind the operands of an operator.

ghost use Rattle.std.specs.Prelude.{◌≡◌};
ghost use Rattle.py_laid.specs.Operators.{argument_of as argument_in, callee_of as callee_in, coding_of as coding_in, instruction_of as instruction_in};

use py_code::{BinaryOperator, BuiltinFn, ComparisonOperator, Instruction};
use py_tree::Operator;

/// What an operator is compiled to.
#[derive(Clone, Copy, Debug, PartialEq, Eq)]
pub enum Coding {
    /// A unit with an operand of its own.
    By(Instruction, u32),
    /// The call of a function of the machine's own, which stands in front of the operands.
    Driven(BuiltinFn),
    /// The call of the first operand with the others.
    Called,
    /// A yield.
    Yielded,
}

/// What an operator is compiled to.
pub fn coding_of(operator: Operator) -> Coding
    ensures { result ≡ coding_in operator }
{
    match operator {
        Operator::Add => Coding::By(Instruction::BinaryOperation, BinaryOperator::Add.into()),
        Operator::Sub => Coding::By(
            Instruction::BinaryOperation,
            BinaryOperator::Subtract.into(),
        ),
        Operator::Lt => {
            Coding::By(
                Instruction::CompareOperation,
                ComparisonOperator::Less.into(),
            )
        }
        Operator::Eq => {
            Coding::By(
                Instruction::CompareOperation,
                ComparisonOperator::Equal.into(),
            )
        }
        Operator::Send => Coding::Driven(BuiltinFn::Send),
        Operator::Throw => Coding::Driven(BuiltinFn::Throw),
        Operator::Close => Coding::Driven(BuiltinFn::Close),
        Operator::Yield => Coding::Yielded,
        Operator::Call => Coding::Called,
    }
}

/// The function that stands in front of the operands.
pub fn callee_of(coding: Coding) -> Option<BuiltinFn>
    ensures { result ≡ callee_in coding }
{
    match coding {
        Coding::By(_op, _arg) => None,
        Coding::Driven(function) => Some(function),
        Coding::Called => None,
        Coding::Yielded => None,
    }
}

/// The unit behind the operands.
pub fn instruction_of(coding: Coding) -> Instruction
    ensures { result ≡ instruction_in coding }
{
    match coding {
        Coding::By(op, _arg) => op,
        Coding::Driven(_function) => Instruction::CallFunctionPositional,
        Coding::Called => Instruction::CallFunctionPositional,
        Coding::Yielded => Instruction::YieldValue,
    }
}

/// Its operand behind so many operands.
pub fn argument_of(coding: Coding, count: u32) -> u32
    ensures { result ≡ argument_in coding count }
{
    match coding {
        Coding::By(_op, arg) => arg,
        Coding::Driven(_function) => count,
        Coding::Called => {
            if count == 0 {
                return 0;
            }
            count - 1
        }
        Coding::Yielded => 0,
    }
}
