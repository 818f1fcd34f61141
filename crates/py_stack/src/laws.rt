//! What holds of every stack.

ghost use Rattle.std.specs.Prelude.{◌≡◌, ◌≢◌, ◌+◌, ◌<◌, ◌≤◌, ◌∷◌, ◌++◌, length, reverse, Some};
ghost use Rattle.py_stack.specs.Stacks.{entry_at, with_entry};

use crate::stack::ValueStack;
use py_code::NoMemory;
use py_objects::PyObjectRef;
use std::alloc::Global;

/// Pushes a value and pops it again, which changes nothing.
pub fn push_pop<S: ValueStack>(stack: &mut S, value: PyObjectRef) -> PyObjectRef
    requires { 0 < (S.seen stack.old).room }
    ensures value { result ≡ value }
    ensures same { S.seen stack.new ≡ S.seen stack.old }
{
    stack.push(value);
    stack.pop()
}

/// Pushes a value and finds it above all that lay there.
pub fn push_at<S: ValueStack>(stack: &mut S, value: PyObjectRef) -> PyObjectRef
    requires { 0 < (S.seen stack.old).room }
    ensures value { result ≡ value }
    ensures list { (S.seen stack.new).list ≡ value ∷ (S.seen stack.old).list }
    ensures room { (S.seen stack.new).room + 1 ≡ (S.seen stack.old).room }
{
    let index = stack.len();
    stack.push(value);
    stack.at(index)
}

/// Puts a value in a place and finds it there.
pub fn put_at<S: ValueStack>(stack: &mut S, index: usize, value: PyObjectRef) -> PyObjectRef
    requires { index < length (S.seen stack.old).list }
    ensures value { result ≡ value }
    ensures list { (S.seen stack.new).list ≡ with_entry index value (S.seen stack.old).list }
    ensures room { (S.seen stack.new).room ≡ (S.seen stack.old).room }
{
    stack.put(index, value);
    stack.at(index)
}

/// Puts a value in a place and finds another entry as it was.
pub fn put_beside<S: ValueStack>(
    stack: &mut S,
    index: usize,
    value: PyObjectRef,
    other: usize,
) -> PyObjectRef
    requires place { index < length (S.seen stack.old).list }
    requires other { other < length (S.seen stack.old).list }
    requires beside { other ≢ index }
    ensures entry { entry_at other (S.seen stack.old).list ≡ Some result }
    ensures list { (S.seen stack.new).list ≡ with_entry index value (S.seen stack.old).list }
    ensures room { (S.seen stack.new).room ≡ (S.seen stack.old).room }
{
    stack.put(index, value);
    stack.at(other)
}

/// Pushes values, the first of them first.
pub fn push_all<S: ValueStack>(stack: &mut S, values: &[PyObjectRef])
    requires { length values.now ≤ (S.seen stack.old).room }
    ensures list { (S.seen stack.new).list ≡ reverse values.now ++ (S.seen stack.old).list }
    ensures room { (S.seen stack.new).room + length values.now ≡ (S.seen stack.old).room }
{
    for value in values {
        stack.push(*value);
    }
}

/// Pushes values and truncates to what lay there before, which changes nothing.
pub fn push_truncate<S: ValueStack>(stack: &mut S, values: &[PyObjectRef])
    requires { length values.now ≤ (S.seen stack.old).room }
    ensures same { S.seen stack.new ≡ S.seen stack.old }
{
    let len = stack.len();
    push_all(stack, values);
    stack.truncate(len);
}

/// Drains entries and pushes them back, which changes nothing, also where memory runs out.
pub fn drain_push<S: ValueStack>(stack: &mut S, alloc: Global, from: usize) -> Result<(), NoMemory>
    requires { from ≤ length (S.seen stack.old).list }
    ensures same { S.seen stack.new ≡ S.seen stack.old }
{
    let drained = stack.drain(alloc, from)?;
    push_all(stack, drained.as_slice());
    Ok(())
}
