//! The first locals of a frame.

ghost use Rattle.std.specs.Prelude.{◌≡◌, IfOk};
ghost use Rattle.py_frame.specs.Frames.{first_locals};

use py_check::CheckedCode;
use py_code::{ItemList, NoMemory};
use py_objects::{ObjList, PyObjectRef};
use std::alloc::Global;

/// The first locals of a frame, one for each local of its code, where it is set.
pub type Filled = ItemList<Option<PyObjectRef>>;

/// The locals of a code whose first ones are these arguments, while the others are unset.
#[tactic(auto, using(crate::proofs::Filling::filled_next))]
pub fn positional(alloc: Global, code: &CheckedCode, args: &ObjList) -> Result<Filled, NoMemory>
    ensures { IfOk result (λ locals. locals ≡ first_locals code.now args.now) }
{
    let mut locals = Filled::new(alloc);
    for place in 0..code.code().code.varnames.len() {
        locals.push(args.get(place).copied())?;
    }
    Ok(locals)
}
