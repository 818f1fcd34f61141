//! What units do with several values of a stack at once.

ghost use Rattle.std.specs.Prelude.{◌≡◌, ◌+◌, ◌<◌, ◌≤◌, ◌∷◌, length, take, drop, reverse, IfOk, OnOk, OnErr};
ghost use Rattle.py_stack.specs.Stacks.{bottom, places};

use py_code::NoMemory;
use py_objects::{ObjList, PyObjectRef};
use py_stack::ValueStack;
use std::alloc::Global;

/// Takes all but the lowest `level` values off, where there are more.
pub(crate) fn lower<S: ValueStack>(stack: &mut S, level: usize)
    ensures list { (S.seen stack.new).list ≡ bottom level (S.seen stack.old).list }
    ensures room { places (S.seen stack.new) ≡ places (S.seen stack.old) }
{
    let level = level.min(stack.len());
    stack.truncate(level);
}

/// Takes the top two values off, and hands over first the lower one.
pub(crate) fn pop_two<S: ValueStack>(stack: &mut S) -> (PyObjectRef, PyObjectRef)
    requires { 1 < length (S.seen stack.old).list }
    ensures list { (S.seen stack.old).list ≡ result.1 ∷ result.0 ∷ (S.seen stack.new).list }
    ensures room { (S.seen stack.new).room ≡ (S.seen stack.old).room + 2 }
{
    let upper = stack.pop();
    let lower = stack.pop();
    (lower, upper)
}

/// Takes the top `count` values off and hands them over, the lowest of them first.
pub(crate) fn pop_many<S: ValueStack>(
    stack: &mut S,
    alloc: Global,
    count: usize,
) -> Result<ObjList, NoMemory>
    requires { count ≤ length (S.seen stack.old).list }
    ensures values { IfOk result (λ values. values ≡ reverse (take count (S.seen stack.old).list)) }
    ensures list { OnOk result ((S.seen stack.new).list ≡ drop count (S.seen stack.old).list) }
    ensures room { OnOk result (places (S.seen stack.new) ≡ places (S.seen stack.old)) }
    ensures err { OnErr result (S.seen stack.new ≡ S.seen stack.old) }
{
    let from = stack.len() - count;
    stack.drain(alloc, from)
}
