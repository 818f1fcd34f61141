//! Instructions on locals.

ghost use Rattle.std.specs.Prelude.{◌≡◌, ◌+◌, ◌^◌, ◌<◌, Some, true, IfOk, OnErr};
ghost use Rattle.py_rows.specs.Rows.{is_there, store_fast};
ghost use Rattle.py_frame.specs.Cores.{CanDo, Does, IsUnchanged};
ghost use Rattle.py_frame.specs.UnitRows.{deletes_local, loads_local, local_name};

use crate::executing::ExecutingFrame;
use crate::scene::Scene;
use crate::unit_step::UnitStep;
use py_code::{NoMemory, PyText, text_of_str};
use py_objects::Request;
use py_stack::ValueStack;

impl<S: ValueStack> ExecutingFrame<S> {
    /// Pushes a local, or asks for one that is unset.
    pub(crate) fn load_fast(
        &mut self,
        scene: &Scene<'_>,
        place: usize,
    ) -> Result<UnitStep, NoMemory>
        requires next { self.old.core.state.at + 1 < 2 ^ 32 }
        requires safe { CanDo S.seen (loads_local scene.now place) self.old }
        ensures row { IfOk result (Does S.seen (loads_local scene.now place) self.old self.new) }
        ensures err { OnErr result (IsUnchanged S.seen self.old self.new) }
    {
        match self.core.local(place) {
            Some(Some(value)) => {
                self.core.goes_on();
                self.stack.push(value);
                Ok(UnitStep::Goes)
            }
            Some(None) => {
                let name = name_of_local(scene, place)?;
                Ok(self.asks(Request::Unbound(name)))
            }
            None => unreachable!(),
        }
    }

    /// Unsets a local, or asks for one that is unset.
    pub(crate) fn delete_fast(
        &mut self,
        scene: &Scene<'_>,
        place: usize,
    ) -> Result<UnitStep, NoMemory>
        requires next { self.old.core.state.at + 1 < 2 ^ 32 }
        requires safe { CanDo S.seen (deletes_local scene.now place) self.old }
        ensures row { IfOk result (Does S.seen (deletes_local scene.now place) self.old self.new) }
        ensures err { OnErr result (IsUnchanged S.seen self.old self.new) }
    {
        match self.core.local(place) {
            Some(Some(_)) => {
                self.core.goes_on();
                self.core.set_local(place, None);
                Ok(UnitStep::Goes)
            }
            Some(None) => {
                let name = name_of_local(scene, place)?;
                Ok(self.asks(Request::Unbound(name)))
            }
            None => unreachable!(),
        }
    }

    /// Moves the top into a local.
    pub(crate) fn store_fast(&mut self, place: usize) -> UnitStep
        requires next { self.old.core.state.at + 1 < 2 ^ 32 }
        requires safe { CanDo S.seen (store_fast place) self.old }
        ensures { Does S.seen (store_fast place) self.old self.new result }
    {
        let value = self.stack.pop();
        self.core.goes_on();
        self.core.set_local(place, Some(value));
        UnitStep::Goes
    }
}

/// The name of a local.
fn name_of_local(scene: &Scene<'_>, place: usize) -> Result<PyText, NoMemory>
    requires { is_there (local_name scene.now place) ≡ true }
    ensures { IfOk result (λ name. local_name scene.now place ≡ Some name) }
{
    match scene.parts().varnames.get(place) {
        Some(id) => text_of_str(scene.alloc, scene.names.text(*id)),
        None => unreachable!(),
    }
}
