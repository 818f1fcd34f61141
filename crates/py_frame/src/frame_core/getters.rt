//! What a core says of itself.

ghost use Rattle.std.specs.Prelude.{◌≡◌, ◌<◌, length, slice_get, slice_set};
ghost use Rattle.py_frame.specs.Frames.{with_locals};

use super::FrameCore;
use py_code::OpArgState;
use py_objects::{PyBaseExceptionRef, PyObjectRef};
use py_rows::Expect;

impl FrameCore {
    /// Which input the frame expects.
    pub(crate) fn expects(&self) -> Expect
        ensures { result ≡ self.now.state.wants }
    {
        self.wants
    }

    /// The unit that runs or comes next.
    pub(crate) fn unit(&self) -> u32
        ensures { result ≡ self.now.state.at }
    {
        self.at
    }

    /// The argument that the prefixes in front of the unit have built.
    pub(crate) fn prefix(&self) -> OpArgState
        ensures { result ≡ self.now.state.prefix }
    {
        self.prefix
    }

    /// How many answers the unit that runs has had, where it asks again.
    pub(crate) fn phase(&self) -> u32
        ensures { result ≡ self.now.state.phase }
    {
        self.phase
    }

    /// The exception in the slot.
    pub(crate) fn slot(&self) -> Option<PyBaseExceptionRef>
        ensures { result ≡ self.now.state.slot }
    {
        self.slot
    }

    /// The dict of the frame's globals.
    pub(crate) fn globals(&self) -> PyObjectRef
        ensures { result ≡ self.now.scope.globals }
    {
        self.scope.globals
    }

    /// The local at a place, where there is one.
    pub(crate) fn local(&self, place: usize) -> Option<Option<PyObjectRef>>
        ensures { result ≡ slice_get self.now.state.locals place }
    {
        self.locals.get(place).copied()
    }

    /// Sets a local, or unsets it.
    pub(crate) fn set_local(&mut self, place: usize, value: Option<PyObjectRef>)
        requires { place < length self.old.state.locals }
        ensures { self.new ≡ with_locals (slice_set self.old.state.locals place value) self.old }
    {
        self.locals[place] = value;
    }
}
