//! Running units until one tells an event.

ghost use Rattle.std.specs.Prelude.{ℕ, ◌≡◌, length, IfOk, OnErr};
ghost use Rattle.py_rows.specs.Below.{HearsBelow};
ghost use Rattle.py_rows.specs.Laws.{IsMoving};
ghost use Rattle.py_frame.specs.Added.{AddsConstants, ClassesAreThere};
ghost use Rattle.py_frame.specs.Exits.{TellsExit};
ghost use Rattle.py_frame.specs.Cores.{HasToldOn, IsCutOn, IsRunningOn, IsSteppedOn, KeepsFrame};
ghost use Rattle.py_frame.specs.Steps.{events, heard};
ghost use Rattle.py_frame.specs.Running.{MayTake, SlotFits};

use crate::executing::ExecutingFrame;
use crate::input::{FrameStep, Input};
use crate::scene::Scene;
use crate::unit_step::UnitStep;
use py_code::NoMemory;
use py_objects::{PyBaseExceptionRef, Store};
use py_stack::ValueStack;

impl<S: ValueStack> ExecutingFrame<S> {
    /// Takes an input, and goes on until a unit tells an event. Where memory runs out the frame has ended.
    pub(crate) fn step(
        &mut self,
        scene: &Scene<'_>,
        store: &mut Store,
        slot: Option<PyBaseExceptionRef>,
        input: Input,
    ) -> FrameStep
        requires running { IsRunningOn S.seen store.old.made scene.now self.old }
        requires classes { ClassesAreThere store.old.made }
        requires slot { SlotFits store.old.made self.old.core.state slot }
        requires expected { MayTake store.old.made scene.now self.old.core input }
        requires named { (k : ℕ) → HearsBelow (length store.old.made) (events (heard k input)) }
        ensures stepped { IsSteppedOn S.seen store.new.made scene.now slot input self.old self.new result }
        ensures traceback { TellsExit store.old store.new result }
        ensures objects { AddsConstants store.old.made store.new.made }
        ensures unchanged { store.new ≡ record store.old { made = store.new.made } }
    {
        self.core.hear(slot, input);
        match self.run(scene, store) {
            Ok(step) => step,
            Err(NoMemory) => {
                self.core.gives_up();
                FrameStep::NoMemory
            }
        }
    }

    /// Goes on until a unit tells an event. Where memory runs out the unit that wanted it has begun.
    fn run(&mut self, scene: &Scene<'_>, store: &mut Store) -> Result<FrameStep, NoMemory>
        requires running { IsRunningOn S.seen store.old.made scene.now self.old }
        requires moving { IsMoving self.old.core.state.wants }
        requires classes { ClassesAreThere store.old.made }
        ensures told { IfOk result (HasToldOn S.seen store.new.made scene.now self.old self.new) }
        ensures cut { OnErr result (IsCutOn S.seen store.new.made scene.now self.old self.new) }
        ensures same { KeepsFrame S.seen self.old self.new }
        ensures traceback { IfOk result (λ step. TellsExit store.old store.new step) }
        ensures objects { AddsConstants store.old.made store.new.made }
        ensures unchanged { store.new ≡ record store.old { made = store.new.made } }
    {
        'silent: loop {
            match self.moves(scene, store)? {
                UnitStep::Goes => {}
                UnitStep::Tells(step) => return Ok(step),
            }
        }
    }
}
