//! The slots of handled exceptions.

ghost use Rattle.std.specs.Prelude.{◌≡◌, ◌<◌, [], ◌∷◌, length, slice_get, slice_set, reverse, None, Some, OnOk, OnErr};
ghost use Rattle.py_stack.specs.Slots.{IsTopmost, top_of, topmost};

use py_code::NoMemory;
use py_objects::PyBaseExceptionRef;
use std::alloc::Global;
use std::marker::Model;
use std::mem;

/// The exceptions that are being handled (Python Language Reference, 8.4), seen as slots, the top first. What is pushed hides the slots
/// below until it is popped; an empty slot handles nothing. There is always a slot.
#[derive(Drop)]
pub struct ExceptionStack {
    /// The slots below the top one, the lowest first.
    below: Vec<Option<PyBaseExceptionRef>>,
    /// The top slot.
    current: Option<PyBaseExceptionRef>,
}

impl Model for ExceptionStack {
    ghost use Rattle.std.specs.Prelude.{◌∷◌, reverse};
    ghost use Rattle.py_stack.specs.Slots.{Slots};

    ghost Value = { Slots };

    ghost view = { λ s. s.current ∷ reverse s.below.items };
}

impl ExceptionStack {
    /// One empty slot, which takes no memory.
    pub fn new(alloc: Global) -> ExceptionStack
        ensures { result ≡ None ∷ [] }
    {
        ExceptionStack {
            below: Vec::new(alloc),
            current: None,
        }
    }

    /// Puts a slot on top.
    pub fn push_exception(&mut self, exc: Option<PyBaseExceptionRef>) -> Result<(), NoMemory>
        ensures pushed { OnOk result (self.new ≡ exc ∷ self.old) }
        ensures err { OnErr result (self.new ≡ self.old) }
    {
        self.below.push(self.current)?;
        self.current = exc;
        Ok(())
    }

    /// Takes off the slot that was pushed last, with what it holds.
    pub fn pop_exception(&mut self) -> Option<PyBaseExceptionRef>
        requires { 1 < length self.old }
        ensures { self.old ≡ result ∷ self.new }
    {
        let below = self.below.pop().unwrap();
        mem::replace(&mut self.current, below)
    }

    /// What the top slot holds.
    pub fn current_exception(&self) -> Option<PyBaseExceptionRef>
        ensures there { slice_get self.now 0 ≡ Some result }
        ensures top { result ≡ top_of self.now }
    {
        self.current
    }

    /// Makes the top slot hold this.
    pub fn set_exception(&mut self, exc: Option<PyBaseExceptionRef>)
        ensures set { self.new ≡ slice_set self.old 0 exc }
        ensures top { top_of self.new ≡ exc }
    {
        self.current = exc;
    }

    /// Takes what the top slot holds, which is then empty.
    pub fn take_exception(&mut self) -> Option<PyBaseExceptionRef>
        ensures taken { slice_get self.old 0 ≡ Some result }
        ensures emptied { self.new ≡ slice_set self.old 0 None }
    {
        self.current.take()
    }

    /// The exception that is being handled: that of the first slot from the top that holds one.
    pub fn topmost_exception(&self) -> Option<PyBaseExceptionRef>
        ensures first { IsTopmost self.now result }
        ensures value { result ≡ topmost self.now }
    {
        self.current.or(topmost(self.below.as_slice()))
    }
}

/// The exception of the last of these slots that holds one.
fn topmost(slots: &[Option<PyBaseExceptionRef>]) -> Option<PyBaseExceptionRef>
    ensures { IsTopmost (reverse slots.now) result }
{
    let mut left = slots;
    'slots_left: while let [lower @ .., slot] = left {
        if let Some(exception) = slot {
            return Some(*exception);
        }
        left = lower;
    }
    None
}
