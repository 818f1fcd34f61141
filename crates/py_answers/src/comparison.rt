//! The replies of comparisons and of truth, by the payloads of objects.

ghost use Rattle.std.specs.Prelude.{◌≡◌, ◌<◌, ◌||◌, true, eqb, length, IfOk};
ghost use Rattle.py_code.specs.Operators.{is_compared};
ghost use Rattle.py_objects.specs.Objects.{IsMade};
ghost use Rattle.py_objects.specs.Values.{same_value};
ghost use Rattle.py_answers.specs.Answers.{Compares, is_true, text_less};
ghost use Rattle.py_answers.specs.Readable.{IsReadable};
ghost use Rattle.py_answers.specs.Replying.{IsLess, IsSized, Says};

use crate::refusals::refused;
use crate::reply::Reply;
use crate::values::entry;
use py_code::{ComparisonOperator, NoMemory, PyText};
use py_objects::{Payload, PyObjectRef, Store};
use std::alloc::Global;

/// The reply of a comparison.
pub(crate) fn compare(
    alloc: Global,
    store: &Store,
    op: ComparisonOperator,
    left: PyObjectRef,
    right: PyObjectRef,
) -> Result<Reply, NoMemory>
    requires known { is_compared op ≡ true }
    requires readable { IsReadable store.now }
    requires left_below { left.number < length store.now.made }
    requires right_below { right.number < length store.now.made }
    ensures reply { IfOk result (Says (Compares store.now.made op left right)) }
    ensures sized { IfOk result IsSized }
{
    let first = entry(store, left);
    let second = entry(store, right);
    match op {
        ComparisonOperator::Less => less(alloc, store, first, second),
        ComparisonOperator::Equal => Ok(Reply::Bool(are_equal(left, right, first, second))),
        _ => unreachable!(),
    }
}

/// Whether objects of these payloads are equal: they are the same, or their values are.
fn are_equal(left: PyObjectRef, right: PyObjectRef, first: &Payload, second: &Payload) -> bool
    ensures { result ≡ (eqb left.number right.number || same_value first.now second.now) }
{
    left.number == right.number || first.same_value(second)
}

/// Whether a payload is less than another.
pub(crate) fn less(
    alloc: Global,
    store: &Store,
    left: &Payload,
    right: &Payload,
) -> Result<Reply, NoMemory>
    requires left_made { IsMade store.now.made left.now }
    requires right_made { IsMade store.now.made right.now }
    ensures reply { IfOk result (Says (IsLess store.now.made left.now right.now)) }
    ensures sized { IfOk result IsSized }
{
    if let (Some(first), Some(second)) = (left.number(), right.number()) {
        return Ok(Reply::Bool(first < second));
    }
    if let (Some(first), Some(second)) = (left.text(), right.text()) {
        return Ok(Reply::Bool(comes_before(first, second)));
    }
    refused(alloc, store, b"<", left, right)
}

/// Whether a text comes before another, by its characters.
fn comes_before(left: &PyText, right: &PyText) -> bool
    ensures { result ≡ text_less left.now right.now }
{
    left.as_slice() < right.as_slice()
}

/// Whether a payload counts as true.
pub(crate) fn is_true(payload: &Payload) -> bool
    ensures { result ≡ is_true payload.now }
{
    match payload {
        Payload::None => false,
        Payload::Bool(flag) => *flag,
        Payload::Int(number) => *number != 0,
        Payload::Str(text) => !text.is_empty(),
        _ => true,
    }
}
