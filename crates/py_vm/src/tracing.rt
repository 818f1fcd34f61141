//! The links that an exception gets in the body that it is brought into: its context, and an entry in front of its traceback.

ghost use Rattle.std.specs.Prelude.{◌≡◌, ◌≤◌, ◌<◌, ◌+◌, length, IfOk, OnOk, OnErr};
ghost use Rattle.py_objects.specs.Objects.{as_object, IfThere, IsException, IsTraceback};
ghost use Rattle.py_exceptions.specs.Tracebacks.{traceback_object};
ghost use Rattle.py_answers.specs.Readable.{IsReadable};
ghost use Rattle.py_stack.specs.Slots.{topmost};
ghost use Rattle.py_vm.specs.Raising.{raising_in, AreThere, CanLink, ContextOf, EntryOf, IsTraceable, Linked, MakesEntry, NotedOne, RaisesException};
ghost use Rattle.py_vm.specs.Turns.{AsksAt, Halts};

use crate::machinery::Core;
use crate::raising::Raising;
use crate::stage::{Halted, Running};
use crate::world::World;
use py_code::NoMemory;
use py_exceptions::{BaseException, PyTraceback, contextualize_exception};
use py_frame::Answer;
use py_objects::{Event, PyBaseExceptionRef, PyTracebackRef, Store};
use py_stack::ExceptionStack;

impl Core {
    /// Notes what an answer brings into the body that gets it, if it raises anything there (Python Language Reference, 7.8). Its entry is made
    /// before the answer is told, so that nothing has happened where memory runs out here.
    pub(crate) fn note(&mut self, halted: &Halted, answer: Answer) -> Result<(), NoMemory>
        requires asked { AsksAt self.old.events halted.now.place }
        requires traceable { IsTraceable self.old.world.codes self.old.world.store.made halted.now.running }
        requires readable { IsReadable self.old.world.store }
        requires raises { RaisesException self.old.world.store.made (raising_in self.old.events halted.now answer) }
        ensures ok { OnOk result (NotedOne self.old halted.now answer self.new) }
        ensures err { OnErr result (Halts self.old self.new) }
    {
        let Some(Event::Ask { request, .. }) = self.events.get(halted.place) else {
            unreachable!();
        };
        let Some(raising) = Raising::by_answer(request, answer) else {
            return Ok(());
        };
        let entry = self.world.new_entry(&halted.running, raising.exception)?;
        self.raising = Some(Raising {
            exception: raising.exception,
            gets_context: raising.gets_context,
            entry: Some(entry),
        });
        Ok(())
    }

    /// The exception that the event has brought into a body gets its links there, if there is one.
    pub(crate) fn link(&mut self)
        requires room { 3 ≤ self.old.world.store.spare }
        requires marked { self.old.world.store.mark ≤ length self.old.events }
        requires can { CanLink self.old self.old.raising }
        ensures { Linked self.old self.new }
    {
        let Some(raising) = self.raising else {
            return;
        };
        self.world.store.mark(self.events.len() as u64);
        contextualize(&mut self.world.store, &self.slots, raising);
        trace(&mut self.world.store, raising);
    }
}

impl World {
    /// A new entry for the traceback of an exception, which leads on to the one that it has: the frame of an activation that asked, the place
    /// after the unit that asked, and that unit's line.
    fn new_entry(
        &mut self,
        running: &Running,
        exception: PyBaseExceptionRef,
    ) -> Result<PyTracebackRef, NoMemory>
        requires traceable { IsTraceable self.old.codes self.old.store.made running.now }
        requires readable { IsReadable self.old.store }
        requires exception { IsException self.old.store.made (as_object exception) }
        ensures ok { IfOk result (MakesEntry self.old running.now exception self.new) }
        ensures err { OnErr result (self.new ≡ self.old) }
    {
        let frame = &running.frame;
        let Some(code) = self.codes.get(frame.f_code()) else {
            unreachable!();
        };
        let lineno = frame.current_location(code);
        let next = exception.traceback(&self.store);
        PyTraceback::new(
            &mut self.store,
            next,
            frame.entry(),
            running.after_told(),
            lineno,
        )
    }
}

/// What is handled becomes the context of an exception that gets it.
fn contextualize(store: &mut Store, slots: &ExceptionStack, raising: Raising)
    requires room { 2 ≤ store.old.spare }
    requires there { AreThere store.old.made (topmost slots.now) raising }
    ensures context { ContextOf raising.gets_context store.old store.new (topmost slots.now) raising.exception }
    ensures spare { store.old.spare ≤ store.new.spare + 2 }
{
    if raising.gets_context {
        contextualize_exception(store, slots, raising.exception);
    }
}

/// The traceback of an exception gets its entry in front, if there is one.
fn trace(store: &mut Store, raising: Raising)
    requires room { 0 < store.old.spare }
    requires exception { IsException store.old.made (as_object raising.exception) }
    requires entry { IfThere (IsTraceback store.old.made) (traceback_object raising.entry) }
    ensures { EntryOf store.old store.new raising.exception raising.entry }
{
    if let Some(entry) = raising.entry {
        raising.exception.set_traceback(store, Some(entry));
    }
}
