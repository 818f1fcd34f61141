//! Names in the order of their places, each once. A name is looked up by its hash, so a look-up among many names takes no
//! longer than one among few.

ghost use Rattle.std.specs.Prelude.{◌≡◌, ◌==◌, ◌<◌, [], length, slice_get, bytes_eq, IfOk, IfSome, OnOk, OnErr, option_map};
ghost use Rattle.std.specs.List.{list_any};
ghost use Rattle.py_code.specs.Names.{interned, place_of, TextsDiffer};

use crate::list::{ItemList, NoMemory};
use crate::text::PyText;
use indexmap::IndexSet;
use std::alloc::Global;
use std::marker::Model;

/// Distinct names, each known by its place. Seen as the list of their characters.
#[derive(Drop)]
pub struct NameSet {
    alloc: Global,
    names: IndexSet<Vec<char>>,
}

impl Model for NameSet {
    ghost use Rattle.std.specs.Prelude.{List, ℕ, map};
    ghost use Rattle.py_code.specs.Names.{TextsDiffer};

    ghost Value = { List (List ℕ) };

    ghost view = { λ s. map (λ name. name.items) s.names.keys };

    ghost invariant = { λ s. TextsDiffer (map (λ name. name.items) s.names.keys) };
}

impl NameSet {
    /// No names, which takes no memory.
    pub fn new(alloc: Global) -> NameSet
        ensures { result ≡ [] }
    {
        NameSet {
            alloc,
            names: IndexSet::new(alloc),
        }
    }

    /// How many names there are.
    pub fn len(&self) -> usize
        ensures { result ≡ length self.now }
    {
        self.names.len()
    }

    /// Whether there are none.
    pub fn is_empty(&self) -> bool
        ensures { result ≡ (length self.now == 0) }
    {
        self.names.is_empty()
    }

    /// The characters of the name at a place, from 0.
    pub fn get(&self, at: usize) -> Option<&[char]>
        ensures { option_map (λ name. name.now) result ≡ slice_get self.now at }
    {
        let name = self.names.get_index(at)?;
        Some(name.as_slice())
    }

    /// The place of a name.
    pub fn place(&self, name: &PyText) -> Option<usize>
        ensures place { result ≡ place_of self.now name.now }
        ensures found { IfSome result (λ at. slice_get self.now at ≡ Some name.now) }
        ensures within { IfSome result (λ at. at < length self.now) }
        ensures differ { TextsDiffer self.now }
    {
        self.names.get_index_of(name.as_slice())
    }

    /// Whether a name is one of these.
    pub fn contains(&self, name: &PyText) -> bool
        ensures { result ≡ list_any (bytes_eq name.now) self.now }
    {
        self.names.contains(name.as_slice())
    }

    /// Puts a name behind the others, unless it is one of them. The answer is its place.
    pub fn insert(&mut self, name: &PyText) -> Result<usize, NoMemory>
        ensures names { OnOk result (self.new ≡ interned self.old name.now) }
        ensures place { IfOk result (λ at. place_of self.new name.now ≡ Some at) }
        ensures found { IfOk result (λ at. slice_get self.new at ≡ Some name.now) }
        ensures err { OnErr result (self.new ≡ self.old) }
    {
        if let Some(at) = self.place(name) {
            return Ok(at);
        }
        let characters = name.copy(self.alloc)?.into_vec();
        let (at, _) = self.names.insert_full(characters)?;
        Ok(at)
    }

    /// The names in order, as texts.
    pub fn into_texts(self) -> Result<ItemList<PyText>, NoMemory>
        ensures { IfOk result (λ texts. texts ≡ self) }
    {
        let NameSet { alloc, names } = self;
        let mut texts = ItemList::new(alloc);
        for name in names {
            texts.push(PyText::of(name))?;
        }
        Ok(texts)
    }
}
