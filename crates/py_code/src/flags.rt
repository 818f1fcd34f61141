//! The flags of a code, and of what makes a function: sets of named bits.

ghost use Rattle.std.specs.Prelude.{⊤, [], ◌∷◌, codes};

use bitflags::{Flag, Flags, bitflag_items};

/// The flags of a code, each a bit of one number (CPython's `co_flags` has other bits).
#[derive(Clone, Copy, Debug, PartialEq, Eq)]
pub struct CodeFlags(pub u16);

bitflag_items! {
    impl CodeFlags: u16 {
        /// A frame of this code makes a scope of its own.
        const NEW_LOCALS = 1;
        /// A call of this code makes a generator.
        const IS_GENERATOR = 2;
        /// A call of this code makes a coroutine.
        const IS_COROUTINE = 4;
        /// A parameter takes the further positional arguments.
        const HAS_VARARGS = 8;
        /// A parameter takes the further keyword arguments.
        const HAS_VARKEYWORDS = 16;
        /// Locals are known by their places.
        const IS_OPTIMIZED = 32;
    }
}

impl Flags for CodeFlags {
    type Bits = u16;

    ghost exact = { ⊤ };

    // The items of `FLAGS` again: clauses read this table, and the proof of `flags` compares both.
    ghost table = { (codes "NEW_LOCALS", 1) ∷ (codes "IS_GENERATOR", 2) ∷ (codes "IS_COROUTINE", 4)
        ∷ (codes "HAS_VARARGS", 8) ∷ (codes "HAS_VARKEYWORDS", 16) ∷ (codes "IS_OPTIMIZED", 32) ∷ [] };

    ghost set_of = { λ flags. flags.0 };

    fn flags<'a>() -> &'a [Flag<CodeFlags>] {
        CodeFlags::FLAGS
    }

    fn bits(&self) -> u16 {
        self.0
    }

    fn from_bits_retain(bits: u16) -> CodeFlags {
        CodeFlags(bits)
    }
}

/// Which parts a new function has, each a bit of one number.
#[derive(Clone, Copy, Debug, PartialEq, Eq)]
pub struct MakeFunctionFlags(pub u8);

bitflag_items! {
    impl MakeFunctionFlags: u8 {
        /// It has cells of bodies around.
        const CLOSURE = 1;
        /// It has annotations.
        const ANNOTATIONS = 2;
        /// It has defaults of parameters that are passed by name alone.
        const KW_ONLY_DEFAULTS = 4;
        /// It has defaults of parameters that are passed by position.
        const DEFAULTS = 8;
    }
}

impl Flags for MakeFunctionFlags {
    type Bits = u8;

    ghost exact = { ⊤ };

    ghost table = { (codes "CLOSURE", 1) ∷ (codes "ANNOTATIONS", 2) ∷ (codes "KW_ONLY_DEFAULTS", 4) ∷ (codes "DEFAULTS", 8) ∷ [] };

    ghost set_of = { λ flags. flags.0 };

    fn flags<'a>() -> &'a [Flag<MakeFunctionFlags>] {
        MakeFunctionFlags::FLAGS
    }

    fn bits(&self) -> u8 {
        self.0
    }

    fn from_bits_retain(bits: u8) -> MakeFunctionFlags {
        MakeFunctionFlags(bits)
    }
}
