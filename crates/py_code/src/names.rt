//! The table of names.

ghost use Rattle.std.specs.Prelude.{◌≡◌, ◌==◌, ◌≢◌, ◌<◌, ℕ, [], length, slice_get, IfOk, OnOk, OnErr, IfSome, IfNone, option_map};
ghost use Rattle.py_code.specs.Names.{interned, place_of, TextsDiffer};

use crate::list::NoMemory;
use indexmap::IndexSet;
use std::alloc::Global;
use std::marker::Model;

/// A name: the place of its text in the table, from 0.
#[derive(Clone, Copy, Debug, PartialEq, Eq)]
pub struct NameId {
    pub index: usize,
}

/// Distinct texts, each known by its place. Seen as the list of their bytes.
#[derive(Drop)]
pub struct Names {
    alloc: Global,
    texts: IndexSet<String>,
}

impl Model for Names {
    ghost use Rattle.std.specs.Prelude.{List, ℕ, map, string_bytes};
    ghost use Rattle.py_code.specs.Names.{TextsDiffer};

    ghost Value = { List (List ℕ) };

    ghost view = { λ n. map string_bytes n.texts.keys };

    ghost invariant = { λ n. TextsDiffer (map string_bytes n.texts.keys) };
}

impl Names {
    /// A table without texts, which takes no memory.
    pub fn new(alloc: Global) -> Names
        ensures { result ≡ [] }
    {
        Names {
            alloc,
            texts: IndexSet::new(alloc),
        }
    }

    /// How many texts there are.
    pub fn len(&self) -> usize
        ensures { result ≡ length self.now }
    {
        self.texts.len()
    }

    /// Whether there are none.
    pub fn is_empty(&self) -> bool
        ensures { result ≡ (length self.now == 0) }
    {
        self.texts.is_empty()
    }

    /// The text of a name.
    pub fn text(&self, id: NameId) -> &str
        requires { id.index < length self.now }
        ensures text { slice_get self.now id.index ≡ Some result.now }
        ensures differ { TextsDiffer self.now }
    {
        match self.texts.get_index(id.index) {
            Some(text) => text.as_str(),
            None => unreachable!(),
        }
    }

    /// The name that has a text.
    pub fn get(&self, text: &str) -> Option<NameId>
        ensures place { option_map (λ id. id.index) result ≡ place_of self.now text.now }
        ensures found { IfSome result (λ id. slice_get self.now id.index ≡ Some text.now) }
        ensures absent { IfNone result ((at : ℕ) → slice_get self.now at ≢ Some text.now) }
    {
        let index = self.texts.get_index_of(text)?;
        Some(NameId { index })
    }

    /// The name of a text, which goes last where the table doesn't have it yet.
    pub fn intern(&mut self, text: &str) -> Result<NameId, NoMemory>
        ensures texts { OnOk result (self.new ≡ interned self.old text.now) }
        ensures place { IfOk result (λ id. place_of self.new text.now ≡ Some id.index) }
        ensures found { IfOk result (λ id. slice_get self.new id.index ≡ Some text.now) }
        ensures err { OnErr result (self.new ≡ self.old) }
    {
        if let Some(id) = self.get(text) {
            return Ok(id);
        }
        let text = String::from_str(self.alloc, text)?;
        let (index, _) = self.texts.insert_full(text)?;
        Ok(NameId { index })
    }
}
