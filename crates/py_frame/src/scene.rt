//! What units are run by.

ghost use Rattle.std.specs.Prelude.{◌≡◌, ◌<◌, length, slice_get, Some};
ghost use Rattle.py_frame.specs.Frames.{parts};

use py_check::CheckedCode;
use py_code::{CodeObject, CodeUnit, Names};
use std::alloc::Global;
use std::marker::Model;

/// What units are run by: a code, the table that its names are places in, and where memory is taken from.
#[derive(Drop)]
pub struct Scene<'a> {
    pub alloc: Global,
    pub code: &'a CheckedCode,
    pub names: &'a Names,
}

impl<'a> Model for Scene<'a> {
    ghost use Rattle.std.specs.Coded.{codes};
    ghost use Rattle.py_code.specs.contracts.literal.Literal as literal;
    ghost use Rattle.py_frame.specs.Frames.{NamedCode};

    ghost Value = { NamedCode };

    ghost coded = { Prim.hlevel (codes, literal.the_row.coded) };

    ghost view = { λ s. record { code = s.code.now; names = s.names.now } };
}

impl<'a> Scene<'a> {
    /// What the code is made of.
    pub(crate) fn parts(&self) -> &CodeObject
        ensures { result.now ≡ parts self.now }
    {
        &self.code.code().code
    }

    /// The unit at a place.
    pub(crate) fn unit_at(&self, place: u32) -> CodeUnit
        requires { place < length (parts self.now).instructions.items }
        ensures { slice_get (parts self.now).instructions.items place ≡ Some result }
    {
        self.parts().instructions[place as usize]
    }
}
