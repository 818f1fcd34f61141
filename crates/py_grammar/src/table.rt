//! The names of what was declared.

ghost use Rattle.std.specs.Prelude.{◌≡◌, [], None, OnOk};
ghost use Rattle.py_grammar.specs.Tables.{table_of, with_class_name, with_function_name, with_manager_name};

use py_code::{NameSet, NoMemory, PyText};
use std::alloc::Global;

/// The names of the declarations in order, and behind them that of an open body; also those of functions and those of classes alone.
#[derive(Drop)]
pub struct Table {
    pub names: NameSet,
    pub functions: NameSet,
    pub classes: NameSet,
}

impl Table {
    /// The table of no declarations.
    pub fn new(alloc: Global) -> Table
        ensures { result ≡ table_of [] None }
    {
        Table {
            names: NameSet::new(alloc),
            functions: NameSet::new(alloc),
            classes: NameSet::new(alloc),
        }
    }

    /// Takes the name of a function too.
    pub fn add_function(&mut self, name: &PyText) -> Result<(), NoMemory>
        ensures { OnOk result (self.new ≡ with_function_name self.old name.now) }
    {
        self.names.insert(name)?;
        self.functions.insert(name)?;
        Ok(())
    }

    /// Takes the name of a class too.
    pub fn add_class(&mut self, name: &PyText) -> Result<(), NoMemory>
        ensures { OnOk result (self.new ≡ with_class_name self.old name.now) }
    {
        self.names.insert(name)?;
        self.classes.insert(name)?;
        Ok(())
    }

    /// Takes the name of a manager too.
    pub fn add_manager(&mut self, name: &PyText) -> Result<(), NoMemory>
        ensures { OnOk result (self.new ≡ with_manager_name self.old name.now) }
    {
        self.names.insert(name)?;
        Ok(())
    }
}
