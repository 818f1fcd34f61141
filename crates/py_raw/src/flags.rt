//! The flags of a raw code.

ghost use Rattle.std.specs.Prelude.{◌≡◌};
ghost use Rattle.py_raw.specs.RawSheet.{flag_of, flags_of};

use bitflags::Flags;
use py_code::CodeFlags;
use py_lines::RawFlag;

/// The flag of a word.
fn flag_of(flag: RawFlag) -> CodeFlags
    ensures { result ≡ flag_of flag }
{
    match flag {
        RawFlag::Gen => CodeFlags::IS_GENERATOR,
        RawFlag::Coro => CodeFlags::IS_COROUTINE,
        RawFlag::VarArgs => CodeFlags::HAS_VARARGS,
        RawFlag::VarKw => CodeFlags::HAS_VARKEYWORDS,
        RawFlag::NewLocals => CodeFlags::NEW_LOCALS,
        RawFlag::Optimized => CodeFlags::IS_OPTIMIZED,
    }
}

/// The flags of all these words.
pub(crate) fn flags_of(words: &[RawFlag]) -> CodeFlags
    ensures { result ≡ flags_of words.now }
{
    let mut flags = CodeFlags(0);
    for word in words {
        flags = flags.union(flag_of(*word));
    }
    flags
}
