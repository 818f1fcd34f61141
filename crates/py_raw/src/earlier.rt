//! What a raw code may ask of the codes before it.

ghost use Rattle.std.specs.Prelude.{◌≡◌, [], false, OnOk};
ghost use Rattle.py_grammar.specs.Rules.{is_among};
ghost use Rattle.py_raw.specs.Earlier.{no_codes, with_code};

use py_check::Shapes;
use py_code::{NameSet, NoMemory, PyText};
use std::alloc::Global;

/// What is read of earlier codes.
#[derive(Drop)]
pub struct Earlier {
    /// Their names, each at the place that is its number.
    pub names: NameSet,
    /// How many free names each has.
    pub shapes: Shapes,
}

impl Earlier {
    /// No codes.
    pub fn new(alloc: Global) -> Earlier
        ensures { result ≡ no_codes }
    {
        Earlier {
            names: NameSet::new(alloc),
            shapes: Shapes::new(alloc),
        }
    }

    /// Puts a code of a new name after the others, with so many free names.
    pub fn push(&mut self, name: &PyText, free: usize) -> Result<(), NoMemory>
        requires { is_among name.now self.old.names ≡ false }
        ensures { OnOk result (self.new ≡ with_code self.old name.now free) }
    {
        self.names.insert(name)?;
        self.shapes.push(free)?;
        Ok(())
    }
}
