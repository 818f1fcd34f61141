//! A script: what it declares, and what it drives.

ghost use Rattle.std.specs.Prelude.{◌≡◌};
ghost use Rattle.py_grammar.specs.Grammar.{decl_name};
ghost use Rattle.py_grammar.specs.Script.{decl_of};

use crate::raw_block::RawBlock;
use py_code::{ItemList, PyText};
use py_lines::DriveLine;
use py_tree::Body;

/// What a script declares.
#[derive(Drop)]
pub enum Declaration {
    /// `class C B`: an exception class, by its name and its base (Python Language Reference, 8.8).
    Class(PyText, PyText),
    /// `manager M E X`: a context manager, by its name and the functions that enter and leave it (Python Language Reference, 3.3.9).
    Manager(PyText, PyText, PyText),
    /// `def f p ..` or `gen f p ..`, its statements and `end`.
    Function(Body),
    /// `code f p ..`, its lines and `end`.
    Raw(RawBlock),
}

impl Declaration {
    /// The name that is declared.
    pub fn name(&self) -> &PyText
        ensures { result.now ≡ decl_name (decl_of self.now) }
    {
        match self {
            Declaration::Class(name, _) => name,
            Declaration::Manager(name, _, _) => name,
            Declaration::Function(body) => &body.name,
            Declaration::Raw(block) => &block.name,
        }
    }
}

/// Declarations in order.
pub type DeclList = ItemList<Declaration>;

/// Drives in order.
pub type DriveList = ItemList<DriveLine>;

/// A script, with the characters that it was read of.
#[derive(Drop)]
pub struct Script {
    pub text: PyText,
    pub declarations: DeclList,
    pub drives: DriveList,
}
