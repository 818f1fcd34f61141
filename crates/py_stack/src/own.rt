//! A stack that owns its memory.

ghost use Rattle.std.specs.Prelude.{◌≡◌, IfOk};
ghost use Rattle.py_stack.specs.Stacks.{empty};

use crate::stack::ValueStack;
use py_code::NoMemory;
use py_objects::{ObjList, PyObjectRef};
use std::alloc::Global;
use std::marker::Model;

/// A stack whose places are taken from memory when it is made. The top is last here, and first in what contracts see.
#[derive(Drop)]
pub struct OwnStack {
    entries: Vec<PyObjectRef>,
    spare: usize,
}

impl Model for OwnStack {
    ghost use Rattle.std.specs.Prelude.{◌+◌, ◌≤◌, reverse, vec_len, vec_capacity};
    ghost use Rattle.py_stack.specs.Stacks.{Stack};

    ghost Value = { Stack };

    ghost view = { λ s. record { list = reverse s.entries.items; room = s.spare } };

    ghost invariant = { λ s. vec_len s.entries + s.spare ≤ vec_capacity s.entries };
}

impl OwnStack {
    /// An empty stack of `size` places.
    pub fn new(alloc: Global, size: usize) -> Result<OwnStack, NoMemory>
        ensures { IfOk result (λ stack. stack ≡ empty size) }
    {
        Ok(OwnStack {
            entries: Vec::with_capacity(alloc, size)?,
            spare: size,
        })
    }
}

impl ValueStack for OwnStack {
    ghost seen = { λ s. s };

    fn len(&self) -> usize {
        self.entries.len()
    }

    fn spare(&self) -> usize {
        self.spare
    }

    fn push(&mut self, value: PyObjectRef) {
        self.entries.push_reserved(value);
        self.spare -= 1;
    }

    fn pop(&mut self) -> PyObjectRef {
        let value = self.entries.pop().unwrap();
        self.spare += 1;
        value
    }

    fn top(&self) -> PyObjectRef {
        self.entries[self.entries.len() - 1]
    }

    fn truncate(&mut self, len: usize) {
        self.spare += self.entries.len() - len;
        self.entries.truncate(len);
    }

    fn at(&self, index: usize) -> PyObjectRef {
        self.entries[index]
    }

    fn put(&mut self, index: usize, value: PyObjectRef) {
        self.entries[index] = value;
    }

    fn drain(&mut self, alloc: Global, from: usize) -> Result<ObjList, NoMemory> {
        let mut drained = ObjList::new(alloc);
        for value in &self.entries[from..] {
            drained.push(*value)?;
        }
        self.truncate(from);
        Ok(drained)
    }
}
