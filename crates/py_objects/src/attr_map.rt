//! The attributes of an object.

ghost use Rattle.std.specs.Prelude.{◌≡◌, ◌==◌, ◌<◌, [], length, slice_get, Some, IfOk, OnOk, OnErr};
ghost use Rattle.py_objects.specs.Attrs.{inserted, without, value_of};

use crate::refs::PyObjectRef;
use indexmap::IndexMap;
use py_code::{NoMemory, PyText};
use std::alloc::Global;
use std::marker::Model;

/// Values by their names, in the order in which the names came. Seen as the list of both.
#[derive(Drop)]
pub struct AttrMap {
    /// The names by their characters.
    entries: IndexMap<Vec<char>, PyObjectRef>,
}

impl Model for AttrMap {
    ghost use Rattle.py_objects.specs.Attrs.{Attrs};
    ghost use Rattle.py_objects.specs.AttrEntries.{attrs_of};

    ghost Value = { Attrs };

    ghost view = { λ m. attrs_of m.entries.entries };
}

impl AttrMap {
    /// No attributes, which takes no memory.
    pub fn new(alloc: Global) -> AttrMap
        ensures { result ≡ [] }
    {
        AttrMap {
            entries: IndexMap::new(alloc),
        }
    }

    /// Sets the value of a name, which keeps its place where it is known, and else goes last.
    pub fn insert(&mut self, name: PyText, value: PyObjectRef) -> Result<(), NoMemory>
        ensures inserted { OnOk result (self.new ≡ inserted name value self.old) }
        ensures err { OnErr result (self.new ≡ self.old) }
    {
        self.entries.insert(name.into_vec(), value)?;
        Ok(())
    }

    /// How many names there are.
    pub fn len(&self) -> usize
        ensures { result ≡ length self.now }
    {
        self.entries.len()
    }

    /// Whether there are none.
    pub fn is_empty(&self) -> bool
        ensures { result ≡ (length self.now == 0) }
    {
        self.entries.is_empty()
    }

    /// The value of a name, where it is known.
    pub fn get(&self, name: &PyText) -> Option<PyObjectRef>
        ensures { result ≡ value_of name.now self.now }
    {
        self.entries.get(name.as_slice()).copied()
    }

    /// The attribute at a place, from 0: its name, as a text of its own, and its value.
    pub fn at(&self, place: usize) -> Result<(PyText, PyObjectRef), NoMemory>
        requires { place < length self.now }
        ensures { IfOk result (λ attr. slice_get self.now place ≡ Some attr) }
    {
        let Some((name, value)) = self.entries.get_index(place) else {
            unreachable!();
        };
        Ok((PyText::of(name.clone()?), *value))
    }

    /// Takes a name off; the others keep their order.
    pub fn remove(&mut self, name: &PyText)
        ensures { self.new ≡ without name.now self.old }
    {
        let _value = self.entries.shift_remove(name.as_slice());
    }

    /// The same attributes in a map of their own.
    pub fn copy(&self) -> Result<AttrMap, NoMemory>
        ensures { IfOk result (λ copy. copy ≡ self.now) }
    {
        Ok(AttrMap {
            entries: self.entries.clone()?,
        })
    }
}
