//! The codes of a program, with the names that they use.

ghost use Rattle.std.specs.Prelude.{◌≡◌, ◌==◌, [], ◌∷◌, ◌++◌, length, slice_get, option_copied, OnOk, OnErr};
ghost use Rattle.std.specs.Slice.Iter.{iter_rest};
ghost use Rattle.py_code.specs.Codes.{Codes};

use crate::code::PyCode;
use crate::list::NoMemory;
use crate::names::Names;
use std::alloc::Global;
use std::marker::Model;
use std::slice;

/// Codes in order, and the table that their names are places in. A constant refers to a code by
/// its place, from 0.
#[derive(Drop)]
pub struct CodeList {
    names: Names,
    items: Vec<PyCode>,
}

impl Model for CodeList {
    ghost use Rattle.py_code.specs.Codes.{Codes};
    ghost use Rattle.py_code.specs.contracts.literal.Literal as literal;
    ghost use Rattle.std.specs.Coded.{codes};

    ghost Value = { Codes };

    ghost coded = { Prim.hlevel (codes, literal.the_row.coded) };

    ghost view = { λ l. record { names = l.names; codes = l.items.items } };
}

impl CodeList {
    /// A list without codes.
    pub fn new(alloc: Global, names: Names) -> CodeList
        ensures { result ≡ record { names = names; codes = [] } }
    {
        CodeList {
            names,
            items: Vec::new(alloc),
        }
    }

    /// The list of these codes.
    pub fn of(names: Names, items: Vec<PyCode>) -> CodeList
        ensures { result ≡ record { names = names; codes = items.items } }
    {
        CodeList { names, items }
    }

    /// Puts a code behind the others.
    pub fn push(&mut self, code: PyCode) -> Result<(), NoMemory>
        ensures added { OnOk result (self.new ≡ record self.old { codes = self.old.codes ++ code ∷ [] }) }
        ensures err { OnErr result (self.new ≡ self.old) }
    {
        self.items.push(code)?;
        Ok(())
    }

    /// How many codes there are.
    pub fn len(&self) -> usize
        ensures { result ≡ length self.now.codes }
    {
        self.items.len()
    }

    /// Whether there are none.
    pub fn is_empty(&self) -> bool
        ensures { result ≡ (length self.now.codes == 0) }
    {
        self.items.is_empty()
    }

    /// The codes in order, one after another.
    pub fn iter(&self) -> slice::Iter<'_, PyCode>
        ensures { iter_rest result ≡ self.now.codes }
    {
        self.items.iter()
    }

    /// The code at a place, from 0.
    pub fn get(&self, at: usize) -> Option<&PyCode>
        ensures { option_copied result ≡ slice_get self.now.codes at }
    {
        self.items.get(at)
    }

    /// The table that the codes' names are places in.
    pub fn names(&self) -> &Names
        ensures { result.now ≡ self.now.names }
    {
        &self.names
    }
}
