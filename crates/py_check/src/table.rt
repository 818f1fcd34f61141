//! The table of effects.

ghost use Rattle.std.specs.Prelude.{◌≡◌};
ghost use Rattle.py_check.specs.declared.note.Kind.TheVariants.{Any};
ghost use Rattle.py_check.specs.declared.table.Effect.TheVariants.{Gives, Takes};
ghost use Rattle.py_check.specs.Effects.{effect, names_by};
ghost use Rattle.py_check.specs.Table.{effect_of};

use crate::note::Kind;
use py_code::Instruction;

/// What an instruction does to the stack.
#[derive(Clone, Copy)]
pub(crate) enum Effect {
    /// So many entries go, and others come in their place.
    Moves(usize),
    /// So many entries of a kind are taken, and the answer, which is of the pushed kind, is pushed.
    Gives {
        count: usize,
        of: Kind,
        pushed: Kind,
    },
    /// So many entries are taken, and nothing is pushed.
    Does(usize),
    /// A value and how to format it are taken, and the answer is pushed.
    Formats,
    /// So many entries are taken, and so many of a kind pushed.
    Takes {
        count: usize,
        pushed: usize,
        of: Kind,
    },
    /// It does more.
    Other,
}

/// What an operand names: nothing, something of one of the code's tables, a label, or one of so many things.
#[derive(Clone, Copy)]
pub(crate) enum OpArgType {
    Nothing,
    Constant,
    Local,
    Name,
    Cell,
    FreeCell,
    Label,
    OneOf(usize),
}

/// So many entries of any kind are taken, and the answer is pushed.
fn gives(count: usize) -> Effect
    ensures { result ≡ Gives count Any Any }
{
    Effect::Gives {
        count,
        of: Kind::Any,
        pushed: Kind::Any,
    }
}

/// So many entries are taken, and so many of any kind pushed.
fn takes(count: usize, pushed: usize) -> Effect
    ensures { result ≡ Takes count pushed Any }
{
    Effect::Takes {
        count,
        pushed,
        of: Kind::Any,
    }
}

/// The table of effects.
pub(crate) fn look_up(op: Instruction, arg: u32) -> Effect
    ensures { effect_of op arg result ≡ effect op arg }
{
    let n = arg as usize;
    match op {
        Instruction::LoadGlobal | Instruction::LoadNameAny | Instruction::LoadClassDeref => {
            gives(0)
        }
        Instruction::StoreLocal
        | Instruction::StoreGlobal
        | Instruction::DeleteAttr
        | Instruction::PrintExpr
        | Instruction::ImportStar => Effect::Does(1),
        Instruction::DeleteLocal | Instruction::DeleteGlobal | Instruction::SetupAnnotation => {
            Effect::Does(0)
        }
        Instruction::LoadDeref | Instruction::LoadBuildClass => takes(0, 1),
        Instruction::StoreDeref => takes(1, 0),
        Instruction::DeleteDeref => takes(0, 0),
        Instruction::LoadClosure => Effect::Takes {
            count: 0,
            pushed: 1,
            of: Kind::Cell,
        },
        Instruction::Pop => Effect::Moves(1),
        Instruction::Duplicate | Instruction::Duplicate2 => Effect::Moves(0),
        Instruction::Rotate2 => Effect::Moves(2),
        Instruction::Rotate3 => Effect::Moves(3),
        Instruction::Reverse => Effect::Moves(n),
        Instruction::Subscript
        | Instruction::BinaryOperation
        | Instruction::BinaryOperationInplace
        | Instruction::CompareOperation
        | Instruction::TestOperation
        | Instruction::ImportName
        | Instruction::ImportNameless => gives(2),
        Instruction::StoreSubscript => Effect::Does(3),
        Instruction::DeleteSubscript | Instruction::StoreAttr => Effect::Does(2),
        Instruction::BuildString => Effect::Gives {
            count: n,
            of: Kind::Str,
            pushed: Kind::Str,
        },
        Instruction::BuildList => Effect::Gives {
            count: n,
            of: Kind::Any,
            pushed: Kind::List,
        },
        Instruction::BuildSet => Effect::Gives {
            count: n,
            of: Kind::Any,
            pushed: Kind::Set,
        },
        Instruction::BuildListUnpack => Effect::Takes {
            count: n,
            pushed: 1,
            of: Kind::List,
        },
        Instruction::BuildTupleUnpack => Effect::Takes {
            count: n,
            pushed: 1,
            of: Kind::Tuple,
        },
        Instruction::BuildSetUnpack => Effect::Takes {
            count: n,
            pushed: 1,
            of: Kind::Set,
        },
        Instruction::BuildMap => Effect::Gives {
            count: 2 * n,
            of: Kind::Any,
            pushed: Kind::Dict,
        },
        Instruction::BuildMapForCall => gives(n),
        Instruction::BuildSlice => gives(if n == 1 { 3 } else { 2 }),
        Instruction::UnaryOperation
        | Instruction::LoadAttr
        | Instruction::GetIter
        | Instruction::GetAwaitable
        | Instruction::GetAIter => gives(1),
        Instruction::BeforeAsyncWith => takes(1, 2),
        Instruction::CallFunctionEx => takes(if n == 1 { 3 } else { 2 }, 1),
        Instruction::LoadMethod => takes(1, 3),
        Instruction::CallMethodPositional => takes(n + 3, 1),
        Instruction::CallMethodEx => takes(if n == 1 { 5 } else { 4 }, 1),
        Instruction::UnpackSequence => takes(1, n),
        Instruction::UnpackEx => takes(1, n % 256 + 1 + n / 256),
        Instruction::FormatValue => Effect::Formats,
        _ => Effect::Other,
    }
}

/// What the operand of an instruction names.
pub(crate) fn names_by(op: Instruction) -> OpArgType
    ensures { result ≡ names_by op }
{
    match op {
        Instruction::LoadConst | Instruction::ReturnConst => OpArgType::Constant,
        Instruction::LoadFast | Instruction::StoreFast | Instruction::DeleteFast => {
            OpArgType::Local
        }
        Instruction::LoadGlobal
        | Instruction::LoadNameAny
        | Instruction::StoreLocal
        | Instruction::StoreGlobal
        | Instruction::DeleteLocal
        | Instruction::DeleteGlobal
        | Instruction::LoadAttr
        | Instruction::StoreAttr
        | Instruction::DeleteAttr
        | Instruction::LoadMethod
        | Instruction::ImportName
        | Instruction::ImportFrom => OpArgType::Name,
        Instruction::LoadDeref
        | Instruction::StoreDeref
        | Instruction::DeleteDeref
        | Instruction::LoadClosure => OpArgType::Cell,
        Instruction::LoadClassDeref => OpArgType::FreeCell,
        Instruction::SetupExcept
        | Instruction::SetupFinally
        | Instruction::SetupWith
        | Instruction::SetupAsyncWith
        | Instruction::ForIter
        | Instruction::Jump
        | Instruction::JumpIfTrue
        | Instruction::JumpIfFalse
        | Instruction::JumpIfTrueOrPop
        | Instruction::JumpIfFalseOrPop
        | Instruction::Break
        | Instruction::Continue => OpArgType::Label,
        // There are 13 operators of two operands, 4 of one, 6 comparisons and 5 tests.
        Instruction::BinaryOperation | Instruction::BinaryOperationInplace => OpArgType::OneOf(13),
        Instruction::UnaryOperation => OpArgType::OneOf(4),
        Instruction::CompareOperation => OpArgType::OneOf(6),
        Instruction::TestOperation => OpArgType::OneOf(5),
        // A value is formatted as it is, or as `str`, `ascii` or `repr` gives it.
        Instruction::FormatValue => OpArgType::OneOf(4),
        // What is raised is the exception that is handled, or one off the stack, without a cause or with one.
        Instruction::Raise => OpArgType::OneOf(3),
        // A function has four flags, one bit each: 2 to the 4th sets of them.
        Instruction::MakeFunction => OpArgType::OneOf(16),
        _ => OpArgType::Nothing,
    }
}
