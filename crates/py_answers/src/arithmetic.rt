//! The reply of an operator, by the payloads of its operands.

ghost use Rattle.std.specs.Prelude.{◌≡◌, ◌<◌, true, length, FitsSigned, IfOk, IfSome};
ghost use Rattle.std.specs.Int.{w128};
ghost use Rattle.py_code.specs.Operators.{is_asked};
ghost use Rattle.py_objects.specs.Objects.{IsMade};
ghost use Rattle.py_objects.specs.Values.{text_of};
ghost use Rattle.py_objects.specs.declared.request.Request.TheVariants.{Binary};
ghost use Rattle.py_answers.specs.Answers.{Replies};
ghost use Rattle.py_answers.specs.Readable.{IsReadable};
ghost use Rattle.py_answers.specs.Replying.{joined, IsDifference, IsOperated, IsSized, IsSum, IsWhole, Says};

use crate::refusals::refused;
use crate::reply::Reply;
use crate::values::entry;
use py_code::{BinaryOperator, NoMemory, PyText, push_text, text_of as text_of_bytes};
use py_objects::{ErrorKind, Payload, PyObjectRef, Store};
use std::alloc::Global;

/// The reply of an operator.
pub(crate) fn binary(
    alloc: Global,
    store: &Store,
    op: BinaryOperator,
    left: PyObjectRef,
    right: PyObjectRef,
) -> Result<Reply, NoMemory>
    requires known { is_asked op ≡ true }
    requires readable { IsReadable store.now }
    requires left_below { left.number < length store.now.made }
    requires right_below { right.number < length store.now.made }
    ensures reply { IfOk result (Says (Replies store.now.made (Binary op left right))) }
    ensures sized { IfOk result IsSized }
{
    let first = entry(store, left);
    let second = entry(store, right);
    operate(alloc, store, op, first, second)
}

/// The reply of an operator at two payloads.
pub(crate) fn operate(
    alloc: Global,
    store: &Store,
    op: BinaryOperator,
    left: &Payload,
    right: &Payload,
) -> Result<Reply, NoMemory>
    requires known { is_asked op ≡ true }
    requires left_made { IsMade store.now.made left.now }
    requires right_made { IsMade store.now.made right.now }
    ensures reply { IfOk result (Says (IsOperated store.now.made op left.now right.now)) }
    ensures sized { IfOk result IsSized }
{
    match op {
        BinaryOperator::Add => sum(alloc, store, left, right),
        BinaryOperator::Subtract => difference(alloc, store, left, right),
        _ => unreachable!(),
    }
}

/// The sum of two payloads.
fn sum(alloc: Global, store: &Store, left: &Payload, right: &Payload) -> Result<Reply, NoMemory>
    requires left_made { IsMade store.now.made left.now }
    requires right_made { IsMade store.now.made right.now }
    ensures reply { IfOk result (Says (IsSum store.now.made left.now right.now)) }
    ensures sized { IfOk result IsSized }
{
    if let Some(text) = concatenated(alloc, left, right)? {
        return Ok(Reply::Str(text));
    }
    let (Some(first), Some(second)) = (left.number(), right.number()) else {
        return refused(alloc, store, b"+", left, right);
    };
    whole(alloc, first.checked_add(second))
}

/// The difference of two payloads.
fn difference(
    alloc: Global,
    store: &Store,
    left: &Payload,
    right: &Payload,
) -> Result<Reply, NoMemory>
    requires left_made { IsMade store.now.made left.now }
    requires right_made { IsMade store.now.made right.now }
    ensures reply { IfOk result (Says (IsDifference store.now.made left.now right.now)) }
    ensures sized { IfOk result IsSized }
{
    let (Some(first), Some(second)) = (left.number(), right.number()) else {
        return refused(alloc, store, b"-", left, right);
    };
    whole(alloc, first.checked_sub(second))
}

/// Two texts as one. None where either is no text.
fn concatenated(alloc: Global, left: &Payload, right: &Payload) -> Result<Option<PyText>, NoMemory>
    ensures { IfOk result (λ text. text ≡ joined (text_of left.now) (text_of right.now)) }
{
    let (Some(first), Some(second)) = (left.text(), right.text()) else {
        return Ok(None);
    };
    let mut text = first.copy(alloc)?;
    push_text(&mut text, second)?;
    Ok(Some(text))
}

/// The reply that is a number, which is given where it fits 128 bits.
fn whole(alloc: Global, number: Option<i128>) -> Result<Reply, NoMemory>
    requires { IfSome number (FitsSigned w128) }
    ensures reply { IfOk result (Says (IsWhole number)) }
    ensures sized { IfOk result IsSized }
{
    match number {
        Some(number) => Ok(Reply::Int(number)),
        None => {
            let text = text_of_bytes(alloc, b"integer out of range")?;
            Ok(Reply::Fails(ErrorKind::OverflowError, text))
        }
    }
}
