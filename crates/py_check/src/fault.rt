//! Why a code isn't checked.

ghost use Rattle.std.specs.Prelude.{◌≡◌};
ghost use Rattle.py_check.specs.declared.fault.CheckFault.TheVariants as CheckFault;

use py_code::NoMemory;
use thiserror::Error;

/// Why a code isn't checked. Its text is the name of its variant.
#[derive(Clone, Copy, Debug, PartialEq, Eq, Error)]
pub enum CheckFault {
    /// A rule is broken, first at this unit; the rules on the whole code count as unit 0's.
    #[error("Breaks")]
    Breaks(usize),
    /// Memory ran out.
    #[error("NoMemory")]
    NoMemory,
}

impl From<NoMemory> for CheckFault {
    ghost from_gives = { λ error fault. fault ≡ CheckFault.NoMemory };

    fn from(_error: NoMemory) -> CheckFault {
        CheckFault::NoMemory
    }
}
