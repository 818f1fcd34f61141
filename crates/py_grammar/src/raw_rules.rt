//! The rules on the lines of raw codes.

ghost use Rattle.std.specs.Prelude.{◌≡◌, slice_get};
ghost use Rattle.std.specs.List.{list_all};
ghost use Rattle.py_code.specs.Operators.{binary_operators, comparison_operators, raise_kinds, test_operators};
ghost use Rattle.py_code.specs.Operators as operators;
ghost use Rattle.py_grammar.specs.RawRules as rule;
ghost use Rattle.py_grammar.specs.RawText as text;

use crate::raw_block::RawUnit;
use py_code::{
    BinaryOperator, ComparisonOperator, Instruction, NameSet, OpArg, OpArgState, RaiseKind,
    TestOperator,
};
use py_lines::{RawConst, RawFlag, RawLine};

/// Whether frames heed a flag so far.
fn is_heeded(flag: RawFlag) -> bool
    ensures { result ≡ rule.is_heeded flag }
{
    match flag {
        RawFlag::Gen | RawFlag::NewLocals | RawFlag::Optimized => true,
        RawFlag::Coro | RawFlag::VarArgs | RawFlag::VarKw => false,
    }
}

fn are_heeded(flags: &[RawFlag]) -> bool
    ensures { result ≡ list_all rule.is_heeded flags.now }
{
    flags.iter().all(|flag| is_heeded(*flag))
}

/// Whether a constant may stand behind functions of these names.
fn may_load(functions: &NameSet, constant: &RawConst) -> bool
    ensures { result ≡ rule.may_load functions.now constant.now }
{
    match constant {
        RawConst::Atom(_) => true,
        RawConst::Code(name) => functions.contains(name),
        RawConst::Tuple(_) => true,
    }
}

fn may_load_all(functions: &NameSet, constants: &[RawConst]) -> bool
    ensures { result ≡ list_all (rule.may_load functions.now) constants.now }
{
    constants
        .iter()
        .all(|constant| may_load(functions, constant))
}

/// Whether a raw code behind functions of these names may have this header line.
fn may_say(functions: &NameSet, line: &RawLine) -> bool
    ensures { result ≡ rule.may_say functions.now line.now }
{
    match line {
        RawLine::Flags(flags) => are_heeded(flags.as_slice()),
        RawLine::Counts { kwonly, .. } => *kwonly == 0,
        RawLine::Vars(_) => true,
        RawLine::Cells(names) => names.is_empty(),
        RawLine::Frees(names) => names.is_empty(),
        RawLine::Names(_) => true,
        RawLine::Consts(constants) => may_load_all(functions, constants.as_slice()),
        RawLine::Depth(_) => true,
        RawLine::Unit { .. } => false,
    }
}

/// The word that a line begins with.
fn word_of(line: &RawLine) -> &'static [u8]
    ensures { result.now ≡ rule.word_of line.now }
{
    match line {
        RawLine::Flags(_) => b"flags".as_slice(),
        RawLine::Counts { .. } => b"counts".as_slice(),
        RawLine::Vars(_) => b"vars".as_slice(),
        RawLine::Cells(_) => b"cells".as_slice(),
        RawLine::Frees(_) => b"frees".as_slice(),
        RawLine::Names(_) => b"names".as_slice(),
        RawLine::Consts(_) => b"consts".as_slice(),
        RawLine::Depth(_) => b"depth".as_slice(),
        RawLine::Unit { .. } => b"u".as_slice(),
    }
}

/// Whether one of these lines begins with this word.
fn have_word(lines: &[RawLine], word: &[u8]) -> bool
    ensures { result ≡ rule.have_word lines.now word.now }
{
    lines.iter().any(|line| word_of(line) == word)
}

/// Whether one of these header lines is the depth.
pub fn have_depth(lines: &[RawLine]) -> bool
    ensures { result ≡ rule.have_depth lines.now }
{
    have_word(lines, b"depth".as_slice())
}

/// Whether a header line may stand behind these, in a raw code behind functions of these names.
pub fn may_follow(functions: &NameSet, head: &[RawLine], line: &RawLine) -> bool
    ensures { result ≡ rule.may_follow functions.now head.now line.now }
{
    may_say(functions, line) && !have_word(head, word_of(line))
}

fn is_asked(operator: BinaryOperator) -> bool
    ensures { result ≡ operators.is_asked operator }
{
    matches!(operator, BinaryOperator::Add | BinaryOperator::Subtract)
}

/// Whether a number names no operator of two operands that nothing asks yet.
fn may_ask(number: u32) -> bool
    ensures { result ≡ rule.may_ask (slice_get binary_operators number) }
{
    match BinaryOperator::try_from(number) {
        Ok(operator) => is_asked(operator),
        Err(_) => true,
    }
}

fn is_compared(comparison: ComparisonOperator) -> bool
    ensures { result ≡ operators.is_compared comparison }
{
    matches!(
        comparison,
        ComparisonOperator::Less | ComparisonOperator::Equal
    )
}

/// The same of comparisons.
fn may_compare(number: u32) -> bool
    ensures { result ≡ rule.may_compare (slice_get comparison_operators number) }
{
    match ComparisonOperator::try_from(number) {
        Ok(comparison) => is_compared(comparison),
        Err(_) => true,
    }
}

/// The same of tests, of which that of the classes of exceptions alone is made.
fn may_test(number: u32) -> bool
    ensures { result ≡ rule.may_test (slice_get test_operators number) }
{
    match TestOperator::try_from(number) {
        Ok(test) => matches!(test, TestOperator::ExceptionMatch),
        Err(_) => true,
    }
}

/// The same of raises, of which that with a cause isn't made.
fn may_raise(number: u32) -> bool
    ensures { result ≡ rule.may_raise (slice_get raise_kinds number) }
{
    match RaiseKind::try_from(number) {
        Ok(kind) => !matches!(kind, RaiseKind::RaiseCause),
        Err(_) => true,
    }
}

/// Whether an instruction that frames run moves, asks for or shows values alone.
fn moves_values(op: Instruction) -> bool
    ensures { result ≡ rule.moves_values op }
{
    matches!(
        op,
        Instruction::LoadConst
            | Instruction::LoadFast
            | Instruction::StoreFast
            | Instruction::DeleteFast
            | Instruction::LoadGlobal
            | Instruction::Pop
            | Instruction::Duplicate
            | Instruction::Rotate2
            | Instruction::Rotate3
            | Instruction::CallFunctionPositional
            | Instruction::PrintExpr
    )
}

/// Whether one says where a frame goes on, or is a part of another.
fn leads_on(op: Instruction) -> bool
    ensures { result ≡ rule.leads_on op }
{
    matches!(
        op,
        Instruction::Jump
            | Instruction::JumpIfTrue
            | Instruction::JumpIfFalse
            | Instruction::Break
            | Instruction::Continue
            | Instruction::ReturnValue
            | Instruction::ReturnConst
            | Instruction::YieldValue
            | Instruction::ExtendedArg
    )
}

/// Whether one opens blocks, leaves them, or handles what is raised in them.
fn keeps_blocks(op: Instruction) -> bool
    ensures { result ≡ rule.keeps_blocks op }
{
    matches!(
        op,
        Instruction::SetupLoop
            | Instruction::SetupExcept
            | Instruction::SetupFinally
            | Instruction::EnterFinally
            | Instruction::EndFinally
            | Instruction::SetupWith
            | Instruction::WithCleanupStart
            | Instruction::WithCleanupFinish
            | Instruction::PopBlock
            | Instruction::PopException
    )
}

/// Whether frames run an instruction whatever its operand is.
fn is_run(op: Instruction) -> bool
    ensures { result ≡ rule.is_run op }
{
    moves_values(op) || leads_on(op) || keeps_blocks(op)
}

/// Whether frames run an instruction with this operand. Whether the operand is in range is no matter of the grammar.
fn may_run(op: Instruction, operand: OpArg) -> bool
    ensures { result ≡ rule.may_run op operand.0 }
{
    match op {
        Instruction::BinaryOperation => may_ask(operand.0),
        Instruction::CompareOperation => may_compare(operand.0),
        Instruction::TestOperation => may_test(operand.0),
        Instruction::Raise => may_raise(operand.0 % 256),
        _ => is_run(op),
    }
}

/// Whether frames run a unit where the prefixes before it have built this argument.
pub fn may_run_behind(prefixes: OpArgState, unit: &RawUnit) -> bool
    ensures { result ≡ rule.may_run_behind prefixes unit.now }
{
    let mut prefixes = prefixes;
    may_run(unit.op, prefixes.extend(unit.arg))
}

/// The argument that they have built behind the unit.
pub fn prefix_behind(prefixes: OpArgState, unit: &RawUnit) -> OpArgState
    ensures { result ≡ text.prefix_behind prefixes unit.now }
{
    if !unit.op.is_prefix() {
        return OpArgState::new();
    }
    let mut prefixes = prefixes;
    prefixes.extend(unit.arg);
    prefixes
}
