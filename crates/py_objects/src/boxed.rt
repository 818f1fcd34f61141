//! Values in boxes of their own, so that what holds them stays small.

ghost use Rattle.std.specs.Prelude.{◌≡◌, IfOk};

use py_code::NoMemory;
use std::alloc::Global;
use std::marker::Model;

/// A value in a box, seen as the value.
#[derive(Drop)]
pub struct Boxed<T> {
    pub(crate) value: Box<T>,
}

impl<T> Model for Boxed<T> {
    ghost Value = { T };

    ghost coded = { T.code };

    ghost view = { λ b. b.value.value };
}

impl<T: Drop> Boxed<T> {
    /// Puts a value into a box.
    pub fn new(alloc: Global, value: T) -> Result<Boxed<T>, NoMemory>
        ensures { IfOk result (λ boxed. boxed ≡ value) }
    {
        Ok(Boxed {
            value: Box::new(alloc, value)?,
        })
    }

    /// The value.
    pub fn value(&self) -> &T
        ensures { result.now ≡ self.now }
    {
        &self.value
    }
}
