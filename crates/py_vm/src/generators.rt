//! The generators of a machine.

ghost use Rattle.std.specs.Prelude.{◌≡◌, [], ◌∷◌, ◌++◌, None, Some, IfErr, OnOk, OnErr};
ghost use Rattle.py_objects.specs.Objects.{AllFit};
ghost use Rattle.py_coro.specs.declared.refusal.CoroRefusal.TheVariants as refusal;
ghost use Rattle.py_coro.specs.Modes.{closed};
ghost use Rattle.py_coro.specs.Coros.{State, AreRead};
ghost use Rattle.py_vm.specs.Generators.{changed_at, kept_at, kept_by, place_of, sent_in, settled, without_activation, FinishesAt, IsCalledOn, IsRunningNow, IsThrownInto, TakesFrom};

use crate::stage::Suspended;
use indexmap::IndexSet;
use py_code::NoMemory;
use py_coro::{Begin, Coro, CoroAnswer, CoroEnd, CoroRefusal};
use py_objects::{PyBaseExceptionRef, PyObjectRef, Store};
use std::alloc::Global;
use std::marker::Model;

/// A generator: its object, its activation's number, its state, and the activation while that isn't entered and may still be.
#[derive(Drop)]
pub(crate) struct KeptGenerator {
    pub object: PyObjectRef,
    pub act: u64,
    pub generator: Coro,
    pub suspended: Option<Suspended>,
}

/// Generators in the order in which they were made, each known by its object. Seen as their list.
#[derive(Drop)]
pub(crate) struct GeneratorList {
    /// The numbers of their objects.
    objects: IndexSet<u64>,
    items: Vec<KeptGenerator>,
}

impl Model for GeneratorList {
    ghost use Rattle.std.specs.Prelude.{◌≡◌, List, map};
    ghost use Rattle.std.specs.Coded.{codes};
    ghost use Rattle.py_code.specs.contracts.literal.Literal as literal;
    ghost use Rattle.py_vm.specs.declared.generators.KeptGenerator.{KeptGenerator};

    ghost Value = { List KeptGenerator };

    ghost coded = { Prim.hlevel (codes, literal.the_row.coded) };

    ghost view = { λ l. l.items.items };

    ghost invariant = { λ l. l.objects.keys ≡ map (λ (x : KeptGenerator). x.object.number) l.items.items };
}

impl GeneratorList {
    /// None, which takes no memory.
    pub(crate) fn new(alloc: Global) -> GeneratorList
        ensures { result ≡ [] }
    {
        GeneratorList {
            objects: IndexSet::new(alloc),
            items: Vec::new(alloc),
        }
    }

    /// One more, whose object is none of the others'.
    pub(crate) fn push(&mut self, generator: KeptGenerator) -> Result<(), NoMemory>
        requires other { kept_at self.old generator.object ≡ None }
        ensures { OnOk result (self.new ≡ self.old ++ generator ∷ []) }
    {
        self.items.reserve(1)?;
        self.objects.insert(generator.object.number)?;
        self.items.push_reserved(generator);
        Ok(())
    }

    /// Sends a value, which is None or isn't, to the generator that an object is, where so many activations run.
    pub(crate) fn send(&mut self, object: PyObjectRef, is_none: bool, depth: usize) -> Option<Begin>
        ensures { IsCalledOn object (sent_in is_none depth) self.old self.new result }
    {
        let at = self.find(object)?;
        Some(self.items[at].generator.send(is_none, depth))
    }

    /// Refuses a throw where the generator that an object is runs.
    pub(crate) fn throw_check(&self, object: PyObjectRef) -> Result<(), CoroRefusal>
        ensures free { OnOk result (IsRunningNow self.now object → ⊥) }
        ensures running { OnErr result (IsRunningNow self.now object) }
        ensures refusal { IfErr result (λ refused. refused ≡ refusal.Running) }
    {
        match self.find(object) {
            Some(at) => self.items[at].generator.throw_check(),
            None => Ok(()),
        }
    }

    /// Throws an exception into the generator that an object is, where so many activations run.
    pub(crate) fn throw(
        &mut self,
        object: PyObjectRef,
        exception: PyBaseExceptionRef,
        depth: usize,
    ) -> Option<Begin>
        ensures { IsThrownInto object exception depth self.old self.new result }
    {
        let at = self.find(object)?;
        Some(self.items[at].generator.throw(exception, depth))
    }

    /// Closes the generator that an object is, where so many activations run.
    pub(crate) fn close(&mut self, object: PyObjectRef, depth: usize) -> Option<Begin>
        ensures { IsCalledOn object (λ (s : State). closed s.mode depth) self.old self.new result }
    {
        let at = self.find(object)?;
        Some(self.items[at].generator.close(depth))
    }

    /// What the generator that an object is answers, whose activation was entered and left like this. The activation is kept where it may be
    /// entered again, and dropped where it may not.
    pub(crate) fn finish(
        &mut self,
        object: PyObjectRef,
        store: &Store,
        left: Suspended,
        how: CoroEnd,
    ) -> CoroAnswer
        requires runs { IsRunningNow self.old object }
        requires fit { AllFit store.now.made }
        requires read { AreRead store.now.made how }
        ensures answer { FinishesAt self.old object store.now how result }
        ensures left { self.new ≡ changed_at object (settled left how) self.old }
    {
        let Some(at) = self.find(object) else {
            unreachable!();
        };
        let item = &mut self.items[at];
        let answer = item.generator.finish(store, how);
        item.suspended = kept_by(answer, left);
        answer
    }

    /// Takes the activation of the generator that an object is, to be entered or dropped.
    pub(crate) fn take(&mut self, object: PyObjectRef) -> Option<Suspended>
        ensures taken { TakesFrom self.old object result }
        ensures left { self.new ≡ changed_at object without_activation self.old }
    {
        let at = self.find(object)?;
        self.items[at].suspended.take()
    }

    /// The place of the generator that an object is.
    fn find(&self, object: PyObjectRef) -> Option<usize>
        ensures place { result ≡ place_of self.now object }
    {
        self.objects.get_index_of(&object.number)
    }
}

/// An activation that was left, if that may be entered again where its generator answers this.
fn kept_by(answer: CoroAnswer, left: Suspended) -> Option<Suspended>
    ensures { result ≡ kept_by answer left }
{
    match answer {
        CoroAnswer::Value(_) => Some(left),
        _ => None,
    }
}
