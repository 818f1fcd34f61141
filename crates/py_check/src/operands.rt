//! What stands before a unit.

ghost use Rattle.std.specs.Prelude.{◌≡◌, ◌<◌, slice_get, option_map};
ghost use Rattle.py_check.specs.Operands.{prefixes};
ghost use Rattle.py_check.specs.Typing.{may_begin_after, op_before, op_right_before};

use crate::landing::is_prefix_there;
use py_code::{CodeUnit, Instruction};

/// How many prefixes stand in a row before a place.
pub(crate) fn prefixes(units: &[CodeUnit], at: usize) -> usize
    ensures { result ≡ prefixes units.now at }
{
    let mut count = 0;
    'count: while count < at && is_prefix_there(units, at - 1 - count) {
        count += 1;
    }
    count
}

/// The instruction of a unit.
fn op_at(units: &[CodeUnit], at: usize) -> Option<Instruction>
    ensures { result ≡ option_map (λ u. u.op) (slice_get units.now at) }
{
    Some(units.get(at)?.op)
}

/// The instruction right before a place.
fn op_right_before(units: &[CodeUnit], at: usize) -> Option<Instruction>
    ensures { result ≡ op_right_before units.now at }
{
    match at.checked_sub(1) {
        None => None,
        Some(before) => op_at(units, before),
    }
}

/// The instruction before a place, prefixes passed over.
pub(crate) fn op_before(units: &[CodeUnit], at: usize) -> Option<Instruction>
    ensures { result ≡ op_before units.now at }
{
    op_right_before(units, at.saturating_sub(prefixes(units, at)))
}

/// Whether a delegation may begin after an instruction.
pub(crate) fn may_begin_after(op: Option<Instruction>) -> bool
    ensures { result ≡ may_begin_after op }
{
    match op {
        None => false,
        Some(Instruction::YieldValue) => false,
        Some(Instruction::YieldFrom) => false,
        Some(_) => true,
    }
}
