//! Generators.

ghost use Rattle.std.specs.Prelude.{◌≡◌};
ghost use Rattle.std.specs.Borrow.{Lends, sem};
ghost use Rattle.py_objects.specs.declared.payload.CoroKind.TheVariants.{Generator};
ghost use Rattle.py_coro.specs.Coros.{fresh};
ghost use Rattle.py_coro.specs.contracts.coro.Coro.{the_row as coro_row};
ghost use Rattle.py_coro.specs.contracts.generator.PyGenerator.{the_row as generator_row};

use crate::coro::Coro;
use py_code::NameId;
use py_objects::{CoroKind, FrameRef};
use std::marker::Model;

/// A generator (Python Language Reference, 6.2.9), seen as the state of its activation.
#[derive(Drop)]
pub struct PyGenerator {
    inner: Coro,
}

impl Model for PyGenerator {
    ghost use Rattle.py_coro.specs.Coros.{State};

    ghost Value = { State };

    ghost view = { λ g. g.inner };
}

impl PyGenerator {
    /// One that hasn't been entered.
    pub fn new(frame: FrameRef, name: NameId) -> PyGenerator
        ensures { result ≡ fresh frame name Generator }
    {
        PyGenerator {
            inner: Coro::new(frame, name, CoroKind::Generator),
        }
    }

    /// Its activation.
    pub fn as_coro(&self) -> &Coro
        ensures { result.now ≡ self.now }
    {
        &self.inner
    }

    /// Its activation, to be changed: the generator is then what that became.
    pub fn as_coro_mut(&mut self) -> &mut Coro
        ensures* writes_back { sem 𝓛 (Lends generator_row coro_row self.entry result (λ w. w)) }
        ensures value { result.now ≡ self.old }
    {
        &mut self.inner
    }
}
