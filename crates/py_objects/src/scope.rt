//! Where names are looked up.

ghost use Rattle.std.specs.Prelude.{◌≡◌};
ghost use Rattle.py_objects.specs.Scopes.{scope_of};

use crate::refs::PyObjectRef;

/// The dicts of a frame's names (Python Language Reference, 4.2).
#[derive(Clone, Copy, Debug, PartialEq, Eq)]
pub struct Scope {
    pub locals: PyObjectRef,
    pub globals: PyObjectRef,
}

impl Scope {
    /// The scope of these dicts. Without locals the globals are both.
    pub fn new(locals: Option<PyObjectRef>, globals: PyObjectRef) -> Scope
        ensures { result ≡ scope_of locals globals }
    {
        Scope {
            locals: locals.unwrap_or(globals),
            globals,
        }
    }
}
