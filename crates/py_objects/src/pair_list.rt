//! The pairs of a dict.

ghost use Rattle.std.specs.Prelude.{◌≡◌, ◌==◌, ◌<◌, [], ◌∷◌, ◌++◌, length, slice_get, option_copied, remove, IfOk, OnOk, OnErr};
ghost use Rattle.std.specs.Slice.Iter.{iter_rest};
ghost use Rattle.py_objects.specs.Pairs.{with_value};

use crate::refs::PyObjectRef;
use py_code::NoMemory;
use std::alloc::Global;
use std::marker::Model;
use std::slice;

/// Keys with their values, in order.
#[derive(Drop)]
pub struct PairList {
    items: Vec<(PyObjectRef, PyObjectRef)>,
}

impl Model for PairList {
    ghost use Rattle.py_objects.specs.Pairs.{Pairs};

    ghost Value = { Pairs };

    ghost view = { λ l. l.items.items };
}

impl PairList {
    /// No pairs, which takes no memory.
    pub fn new(alloc: Global) -> PairList
        ensures { result ≡ [] }
    {
        PairList {
            items: Vec::new(alloc),
        }
    }

    /// Puts a pair behind the others.
    pub fn push(&mut self, pair: (PyObjectRef, PyObjectRef)) -> Result<(), NoMemory>
        ensures added { OnOk result (self.new ≡ self.old ++ pair ∷ []) }
        ensures err { OnErr result (self.new ≡ self.old) }
    {
        self.items.push(pair)?;
        Ok(())
    }

    /// How many pairs there are.
    pub fn len(&self) -> usize
        ensures { result ≡ length self.now }
    {
        self.items.len()
    }

    /// Whether there are none.
    pub fn is_empty(&self) -> bool
        ensures { result ≡ (length self.now == 0) }
    {
        self.items.is_empty()
    }

    /// The pairs in order, one after another.
    pub fn iter(&self) -> slice::Iter<'_, (PyObjectRef, PyObjectRef)>
        ensures { iter_rest result ≡ self.now }
    {
        self.items.iter()
    }

    /// The pair at a place, from 0.
    pub fn get(&self, at: usize) -> Option<&(PyObjectRef, PyObjectRef)>
        ensures { option_copied result ≡ slice_get self.now at }
    {
        self.items.get(at)
    }

    /// The pairs as a slice.
    pub fn as_slice(&self) -> &[(PyObjectRef, PyObjectRef)]
        ensures { result.now ≡ self.now }
    {
        self.items.as_slice()
    }

    /// Sets the value of the pair at a place.
    pub(crate) fn set_value(&mut self, at: usize, value: PyObjectRef)
        requires { at < length self.old }
        ensures { self.new ≡ with_value self.old at value }
    {
        let (key, _) = self.items[at];
        self.items[at] = (key, value);
    }

    /// Takes the pair at a place out; the others keep their order.
    pub(crate) fn remove(&mut self, at: usize)
        requires { at < length self.old }
        ensures { self.new ≡ remove self.old at }
    {
        let _pair = self.items.remove(at);
    }

    /// The same pairs in a list of their own.
    pub(crate) fn copy(&self, alloc: Global) -> Result<PairList, NoMemory>
        ensures { IfOk result (λ copy. copy ≡ self.now) }
    {
        let mut copy = PairList::new(alloc);
        for pair in self.items.as_slice() {
            copy.push(*pair)?;
        }
        Ok(copy)
    }
}
