//! Instructions that load constants.

ghost use Rattle.std.specs.Prelude.{◌≡◌, ◌+◌, ◌^◌, ◌<◌, is_some, true, IfOk, OnErr};
ghost use Rattle.py_code.specs.Literals.{constant_of, literals_of};
ghost use Rattle.py_rows.specs.Constants.{HasConstant};
ghost use Rattle.py_frame.specs.Added.{AddsConstants};
ghost use Rattle.py_frame.specs.Cores.{CanMove, IsUnchanged, MayDo};
ghost use Rattle.py_frame.specs.UnitRows.{constant_at, loading, returning};
ghost use Rattle.py_frame.specs.UnitSteps.{AreConstants, IsConstant};

use crate::executing::ExecutingFrame;
use crate::objects::add_constant;
use crate::scene::Scene;
use crate::unit_step::UnitStep;
use py_code::{Literal, LiteralList, NoMemory};
use py_objects::{ObjList, Payload, PyObjectRef, Store};
use py_rows::UnwindReason;
use py_stack::ValueStack;
use std::alloc::Global;

impl<S: ValueStack> ExecutingFrame<S> {
    /// Pushes a constant.
    pub(crate) fn load_const(
        &mut self,
        scene: &Scene<'_>,
        store: &mut Store,
        place: usize,
    ) -> Result<UnitStep, NoMemory>
        requires next { self.old.core.state.at + 1 < 2 ^ 32 }
        requires safe { CanMove S.seen store.old (loading scene.now place) self.old }
        ensures row { IfOk result (MayDo S.seen store.new (loading scene.now place) self.old self.new) }
        ensures err { OnErr result (IsUnchanged S.seen self.old self.new) }
        ensures objects { AddsConstants store.old.made store.new.made }
        ensures unchanged { store.new ≡ record store.old { made = store.new.made } }
    {
        let value = load(scene, store, place)?;
        self.core.goes_on();
        self.stack.push(value);
        Ok(UnitStep::Goes)
    }

    /// Returns a constant.
    pub(crate) fn return_const(
        &mut self,
        scene: &Scene<'_>,
        store: &mut Store,
        place: usize,
    ) -> Result<UnitStep, NoMemory>
        requires safe { CanMove S.seen store.old (returning scene.now place) self.old }
        ensures row { IfOk result (MayDo S.seen store.new (returning scene.now place) self.old self.new) }
        ensures err { OnErr result (IsUnchanged S.seen self.old self.new) }
        ensures objects { AddsConstants store.old.made store.new.made }
        ensures unchanged { store.new ≡ record store.old { made = store.new.made } }
    {
        let value = load(scene, store, place)?;
        Ok(self.unwind(UnwindReason::Returning(value)))
    }
}

/// A new object of a constant.
fn load(scene: &Scene<'_>, store: &mut Store, place: usize) -> Result<PyObjectRef, NoMemory>
    requires { is_some (constant_at scene.now place) ≡ true }
    ensures constant { IfOk result (IsConstant store.new.made (constant_at scene.now place)) }
    ensures objects { AddsConstants store.old.made store.new.made }
    ensures unchanged { store.new ≡ record store.old { made = store.new.made } }
{
    match scene.parts().constants.get(place) {
        Some(literal) => add(scene.alloc, store, literal),
        None => unreachable!(),
    }
}

/// A new object of this constant. Its text is a copy, and the items of a tuple are new objects too.
#[cycle(add)]
fn add(alloc: Global, store: &mut Store, literal: &Literal) -> Result<PyObjectRef, NoMemory>
    ensures constant { IfOk result (λ v. HasConstant store.new.made v (constant_of literal.now)) }
    ensures objects { AddsConstants store.old.made store.new.made }
    ensures unchanged { store.new ≡ record store.old { made = store.new.made } }
{
    match literal {
        Literal::None => add_constant(store, Payload::None),
        Literal::Bool(truth) => add_constant(store, Payload::Bool(*truth)),
        Literal::Int(number) => add_constant(store, Payload::Int(*number)),
        Literal::Str(text) => {
            let text = text.copy(alloc)?;
            add_constant(store, Payload::Str(text))
        }
        Literal::Tuple(items) => {
            let items = add_items(alloc, store, items)?;
            add_constant(store, Payload::Tuple(items))
        }
        Literal::Code(place) => add_constant(store, Payload::Code(*place)),
        Literal::Builtin(function) => add_constant(store, Payload::Builtin(*function)),
    }
}

/// New objects of these constants, in order.
#[cycle(add)]
fn add_items(alloc: Global, store: &mut Store, literals: &LiteralList) -> Result<ObjList, NoMemory>
    ensures items { IfOk result (λ vs. AreConstants store.new.made vs (literals_of literals.now)) }
    ensures objects { AddsConstants store.old.made store.new.made }
    ensures unchanged { store.new ≡ record store.old { made = store.new.made } }
{
    let mut objects = ObjList::new(alloc);
    for place in 0..literals.len() {
        let Some(literal) = literals.get(place) else {
            unreachable!()
        };
        let object = add(alloc, store, literal)?;
        objects.push(object)?;
    }
    Ok(objects)
}
