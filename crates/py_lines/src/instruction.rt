//! The names of instructions.

ghost use Rattle.std.specs.Prelude.{◌≡◌, bytes_eq};
ghost use Rattle.std.specs.List.{find};
ghost use Rattle.py_lines.specs.Finding.{Prints};
ghost use Rattle.py_lines.specs.Instructions.{instruction_text as instruction_spelled};

use py_code::Instruction;

/// All instructions.
const ALL: [Instruction; 95] = [
    Instruction::LoadConst,
    Instruction::LoadFast,
    Instruction::StoreFast,
    Instruction::DeleteFast,
    Instruction::LoadGlobal,
    Instruction::LoadNameAny,
    Instruction::StoreLocal,
    Instruction::StoreGlobal,
    Instruction::DeleteLocal,
    Instruction::DeleteGlobal,
    Instruction::LoadDeref,
    Instruction::LoadClassDeref,
    Instruction::StoreDeref,
    Instruction::DeleteDeref,
    Instruction::LoadClosure,
    Instruction::Pop,
    Instruction::Duplicate,
    Instruction::Duplicate2,
    Instruction::Rotate2,
    Instruction::Rotate3,
    Instruction::Reverse,
    Instruction::Subscript,
    Instruction::StoreSubscript,
    Instruction::DeleteSubscript,
    Instruction::BuildString,
    Instruction::BuildList,
    Instruction::BuildTuple,
    Instruction::BuildSet,
    Instruction::BuildListUnpack,
    Instruction::BuildTupleUnpack,
    Instruction::BuildSetUnpack,
    Instruction::BuildMap,
    Instruction::BuildMapForCall,
    Instruction::BuildSlice,
    Instruction::DictUpdate,
    Instruction::ListAppend,
    Instruction::SetAdd,
    Instruction::MapAdd,
    Instruction::BinaryOperation,
    Instruction::BinaryOperationInplace,
    Instruction::UnaryOperation,
    Instruction::CompareOperation,
    Instruction::TestOperation,
    Instruction::LoadAttr,
    Instruction::StoreAttr,
    Instruction::DeleteAttr,
    Instruction::ReturnValue,
    Instruction::ReturnConst,
    Instruction::YieldValue,
    Instruction::YieldFrom,
    Instruction::SetupAnnotation,
    Instruction::SetupLoop,
    Instruction::SetupExcept,
    Instruction::SetupFinally,
    Instruction::EnterFinally,
    Instruction::EndFinally,
    Instruction::SetupWith,
    Instruction::BeforeAsyncWith,
    Instruction::SetupAsyncWith,
    Instruction::WithCleanupStart,
    Instruction::WithCleanupFinish,
    Instruction::PopBlock,
    Instruction::PopException,
    Instruction::GetIter,
    Instruction::GetAwaitable,
    Instruction::GetAIter,
    Instruction::GetANext,
    Instruction::EndAsyncFor,
    Instruction::ForIter,
    Instruction::MakeFunction,
    Instruction::CallFunctionPositional,
    Instruction::CallFunctionKeyword,
    Instruction::CallFunctionEx,
    Instruction::LoadMethod,
    Instruction::CallMethodPositional,
    Instruction::CallMethodKeyword,
    Instruction::CallMethodEx,
    Instruction::Jump,
    Instruction::JumpIfTrue,
    Instruction::JumpIfFalse,
    Instruction::JumpIfTrueOrPop,
    Instruction::JumpIfFalseOrPop,
    Instruction::Raise,
    Instruction::Break,
    Instruction::Continue,
    Instruction::PrintExpr,
    Instruction::LoadBuildClass,
    Instruction::UnpackSequence,
    Instruction::UnpackEx,
    Instruction::FormatValue,
    Instruction::ImportName,
    Instruction::ImportNameless,
    Instruction::ImportFrom,
    Instruction::ImportStar,
    Instruction::ExtendedArg,
];

/// How an instruction is spelled.
pub fn instruction_text(instruction: Instruction) -> &'static str
    ensures { result.now ≡ instruction_spelled instruction }
{
    match instruction {
        Instruction::LoadConst => "LoadConst",
        Instruction::LoadFast => "LoadFast",
        Instruction::StoreFast => "StoreFast",
        Instruction::DeleteFast => "DeleteFast",
        Instruction::LoadGlobal => "LoadGlobal",
        Instruction::LoadNameAny => "LoadNameAny",
        Instruction::StoreLocal => "StoreLocal",
        Instruction::StoreGlobal => "StoreGlobal",
        Instruction::DeleteLocal => "DeleteLocal",
        Instruction::DeleteGlobal => "DeleteGlobal",
        Instruction::LoadDeref => "LoadDeref",
        Instruction::LoadClassDeref => "LoadClassDeref",
        Instruction::StoreDeref => "StoreDeref",
        Instruction::DeleteDeref => "DeleteDeref",
        Instruction::LoadClosure => "LoadClosure",
        Instruction::Pop => "Pop",
        Instruction::Duplicate => "Duplicate",
        Instruction::Duplicate2 => "Duplicate2",
        Instruction::Rotate2 => "Rotate2",
        Instruction::Rotate3 => "Rotate3",
        Instruction::Reverse => "Reverse",
        Instruction::Subscript => "Subscript",
        Instruction::StoreSubscript => "StoreSubscript",
        Instruction::DeleteSubscript => "DeleteSubscript",
        Instruction::BuildString => "BuildString",
        Instruction::BuildList => "BuildList",
        Instruction::BuildTuple => "BuildTuple",
        Instruction::BuildSet => "BuildSet",
        Instruction::BuildListUnpack => "BuildListUnpack",
        Instruction::BuildTupleUnpack => "BuildTupleUnpack",
        Instruction::BuildSetUnpack => "BuildSetUnpack",
        Instruction::BuildMap => "BuildMap",
        Instruction::BuildMapForCall => "BuildMapForCall",
        Instruction::BuildSlice => "BuildSlice",
        Instruction::DictUpdate => "DictUpdate",
        Instruction::ListAppend => "ListAppend",
        Instruction::SetAdd => "SetAdd",
        Instruction::MapAdd => "MapAdd",
        Instruction::BinaryOperation => "BinaryOperation",
        Instruction::BinaryOperationInplace => "BinaryOperationInplace",
        Instruction::UnaryOperation => "UnaryOperation",
        Instruction::CompareOperation => "CompareOperation",
        Instruction::TestOperation => "TestOperation",
        Instruction::LoadAttr => "LoadAttr",
        Instruction::StoreAttr => "StoreAttr",
        Instruction::DeleteAttr => "DeleteAttr",
        Instruction::ReturnValue => "ReturnValue",
        Instruction::ReturnConst => "ReturnConst",
        Instruction::YieldValue => "YieldValue",
        Instruction::YieldFrom => "YieldFrom",
        Instruction::SetupAnnotation => "SetupAnnotation",
        Instruction::SetupLoop => "SetupLoop",
        Instruction::SetupExcept => "SetupExcept",
        Instruction::SetupFinally => "SetupFinally",
        Instruction::EnterFinally => "EnterFinally",
        Instruction::EndFinally => "EndFinally",
        Instruction::SetupWith => "SetupWith",
        Instruction::BeforeAsyncWith => "BeforeAsyncWith",
        Instruction::SetupAsyncWith => "SetupAsyncWith",
        Instruction::WithCleanupStart => "WithCleanupStart",
        Instruction::WithCleanupFinish => "WithCleanupFinish",
        Instruction::PopBlock => "PopBlock",
        Instruction::PopException => "PopException",
        Instruction::GetIter => "GetIter",
        Instruction::GetAwaitable => "GetAwaitable",
        Instruction::GetAIter => "GetAIter",
        Instruction::GetANext => "GetANext",
        Instruction::EndAsyncFor => "EndAsyncFor",
        Instruction::ForIter => "ForIter",
        Instruction::MakeFunction => "MakeFunction",
        Instruction::CallFunctionPositional => "CallFunctionPositional",
        Instruction::CallFunctionKeyword => "CallFunctionKeyword",
        Instruction::CallFunctionEx => "CallFunctionEx",
        Instruction::LoadMethod => "LoadMethod",
        Instruction::CallMethodPositional => "CallMethodPositional",
        Instruction::CallMethodKeyword => "CallMethodKeyword",
        Instruction::CallMethodEx => "CallMethodEx",
        Instruction::Jump => "Jump",
        Instruction::JumpIfTrue => "JumpIfTrue",
        Instruction::JumpIfFalse => "JumpIfFalse",
        Instruction::JumpIfTrueOrPop => "JumpIfTrueOrPop",
        Instruction::JumpIfFalseOrPop => "JumpIfFalseOrPop",
        Instruction::Raise => "Raise",
        Instruction::Break => "Break",
        Instruction::Continue => "Continue",
        Instruction::PrintExpr => "PrintExpr",
        Instruction::LoadBuildClass => "LoadBuildClass",
        Instruction::UnpackSequence => "UnpackSequence",
        Instruction::UnpackEx => "UnpackEx",
        Instruction::FormatValue => "FormatValue",
        Instruction::ImportName => "ImportName",
        Instruction::ImportNameless => "ImportNameless",
        Instruction::ImportFrom => "ImportFrom",
        Instruction::ImportStar => "ImportStar",
        Instruction::ExtendedArg => "ExtendedArg",
    }
}

/// Whether a word is spelled so.
fn spells(instruction: Instruction, word: &[u8]) -> bool
    ensures { result ≡ bytes_eq word.now (instruction_spelled instruction) }
{
    word == instruction_text(instruction).as_bytes()
}

/// The first of some instructions that is spelled so.
fn first_spelled(instructions: &[Instruction], word: &[u8]) -> Option<Instruction>
    ensures { result ≡ find (λ i. bytes_eq word.now (instruction_spelled i)) instructions.now }
{
    let mut rest = instructions;
    while let Some((first, more)) = rest.split_first() {
        if spells(*first, word) {
            return Some(*first);
        }
        rest = more;
    }
    None
}

/// The instruction that a word names.
pub fn instruction_of(word: &[u8]) -> Option<Instruction>
    ensures { Prints instruction_spelled word.now result }
{
    first_spelled(&ALL, word)
}
