//! Units of code, and the arguments that prefixes build.

ghost use Rattle.std.specs.Prelude.{◌≡◌};
ghost use Rattle.py_code.specs.Units.{with_byte};

use crate::instruction::Instruction;
use std::marker::Model;

/// An instruction with the lowest byte of its argument.
#[derive(Clone, Copy, Debug, PartialEq, Eq)]
pub struct CodeUnit {
    pub op: Instruction,
    pub arg: u8,
}

/// A whole argument.
#[derive(Clone, Copy, Debug, PartialEq, Eq)]
pub struct OpArg(pub u32);

/// A place among the units of a code, from 0.
#[derive(Clone, Copy, Debug, PartialEq, Eq)]
pub struct Label(pub u32);

/// The argument that the prefixes so far have built.
#[derive(Clone, Copy, Debug, PartialEq, Eq)]
pub struct OpArgState {
    state: u32,
}

impl Model for OpArgState {
    ghost use Rattle.std.specs.Prelude.{ℕ};

    ghost Value = { ℕ };

    ghost view = { λ s. s.state };

    ghost inverse = { λ n. record { state = n } };
}

impl OpArgState {
    /// No prefix so far.
    pub fn new() -> OpArgState
        ensures { result ≡ 0 }
    {
        OpArgState { state: 0 }
    }

    /// Puts one more byte behind those so far. Only the low 32 bits stay.
    pub fn extend(&mut self, arg: u8) -> OpArg
        ensures state { self.new ≡ with_byte self.old arg }
        ensures value { result.0 ≡ with_byte self.old arg }
    {
        let whole = u64::from(self.state) * 256 + u64::from(arg);
        self.state = (whole % (1 << 32)) as u32;
        OpArg(self.state)
    }

    /// Where the bytes so far have built this argument.
    pub fn of(arg: OpArg) -> OpArgState
        ensures { result ≡ arg.0 }
    {
        OpArgState { state: arg.0 }
    }

    /// The argument so far.
    pub fn arg(&self) -> OpArg
        ensures { result.0 ≡ self.now }
    {
        OpArg(self.state)
    }

    /// Forgets the prefixes so far.
    pub fn reset(&mut self)
        ensures { self.new ≡ 0 }
    {
        self.state = 0;
    }
}
