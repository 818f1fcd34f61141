//! What the entries of tracebacks hold, and what they lead on to (Python Language Reference, 3.2, under traceback objects).

ghost use Rattle.std.specs.Prelude.{◌≡◌, ◌<◌, ◌≤◌, ◌+◌, true, false, OnOk, OnErr};
ghost use Rattle.py_objects.specs.declared.refs.PyTracebackRef.{PyTracebackRef as TracebackRef};
ghost use Rattle.py_objects.specs.Objects.{IfThere, IsTraceback};
ghost use Rattle.py_objects.specs.Edits.{objects_of};
ghost use Rattle.py_objects.specs.Refs.{object_of_traceback};
ghost use Rattle.py_exceptions.specs.Nexts.{AreEntries, IsInEntry, IsNextSet, LeadsBack, LeadsOn};
ghost use Rattle.py_exceptions.specs.Tracebacks.{traceback_object};

use crate::links::first_to;
use crate::reading::traceback_body;
use crate::traceback_iter::TracebackIter;
use crate::tracebacks::traceback_object;
use py_objects::{Edit, FrameRef, LinkField, PyObjectRef, PyTracebackRef, Store};
use thiserror::Error;

/// An entry of a traceback would lead back to itself.
#[derive(Clone, Copy, Debug, PartialEq, Eq, Error)]
#[error("traceback loop detected")]
pub struct LinkLoop;

/// An entry of a traceback, in a store.
pub trait Traceback {
    ghost entry: { Self → TracebackRef };

    /// Its frame.
    fn tb_frame(&self, store: &Store) -> FrameRef
        requires { IsTraceback (objects_of store.now) (object_of_traceback (entry self.now)) }
        ensures { IsInEntry (λ t. t.frame) (objects_of store.now) (entry self.now) result };

    /// The place behind the last unit that its frame began.
    fn tb_lasti(&self, store: &Store) -> u32
        requires { IsTraceback (objects_of store.now) (object_of_traceback (entry self.now)) }
        ensures { IsInEntry (λ t. t.lasti) (objects_of store.now) (entry self.now) result };

    /// That unit's line.
    fn tb_lineno(&self, store: &Store) -> u32
        requires { IsTraceback (objects_of store.now) (object_of_traceback (entry self.now)) }
        ensures { IsInEntry (λ t. t.lineno) (objects_of store.now) (entry self.now) result };

    /// The entry that it leads on to: the last that it was given.
    fn tb_next(&self, store: &Store) -> Option<PyTracebackRef>
        requires { IsTraceback (objects_of store.now) (object_of_traceback (entry self.now)) }
        ensures { LeadsOn (objects_of store.now) (entry self.now) result };

    /// Makes it lead on to another entry, or to none, by a change that there is a place for. It is refused exactly where it is
    /// reached from the other one, and then nothing changes.
    fn set_tb_next(&self, store: &mut Store, value: Option<PyTracebackRef>) -> Result<(), LinkLoop>
        requires spare { 0 < store.old.spare }
        requires entry { IsTraceback (objects_of store.old) (object_of_traceback (entry self.now)) }
        requires value { IfThere (IsTraceback (objects_of store.old)) (traceback_object value) }
        ensures edited { OnOk result (IsNextSet store.old store.new (entry self.now) value) }
        ensures now { OnOk result (LeadsOn (objects_of store.new) (entry self.now) value) }
        ensures apart { OnOk result (LeadsBack (objects_of store.old) (entry self.now) value → ⊥) }
        ensures back { OnErr result (LeadsBack (objects_of store.old) (entry self.now) value) }
        ensures err { OnErr result (store.new ≡ store.old) }
        ensures spare { store.old.spare ≤ store.new.spare + 1 };

    /// The entries along the links from this one on, each once, on any links.
    fn iter<'a>(&self, store: &'a Store) -> TracebackIter<'a>
        ensures { AreEntries (objects_of store.now) (entry self.now) result };
}

impl Traceback for PyTracebackRef {
    ghost entry = { λ t. t };

    fn tb_frame(&self, store: &Store) -> FrameRef {
        traceback_body(store, *self).frame
    }

    fn tb_lasti(&self, store: &Store) -> u32 {
        traceback_body(store, *self).lasti
    }

    fn tb_lineno(&self, store: &Store) -> u32 {
        traceback_body(store, *self).lineno
    }

    fn tb_next(&self, store: &Store) -> Option<PyTracebackRef> {
        as_traceback(traceback_body(store, *self).next)
    }

    fn set_tb_next(
        &self,
        store: &mut Store,
        value: Option<PyTracebackRef>,
    ) -> Result<(), LinkLoop> {
        if leads_back(store, *self, value) {
            return Err(LinkLoop);
        }
        set_next(store, *self, value);
        Ok(())
    }

    fn iter<'a>(&self, store: &'a Store) -> TracebackIter<'a> {
        TracebackIter::new(store, PyObjectRef::from(*self))
    }
}

/// Makes an entry lead on to another, or to none.
fn set_next(store: &mut Store, entry: PyTracebackRef, value: Option<PyTracebackRef>)
    requires spare { 0 < store.old.spare }
    requires entry { IsTraceback (objects_of store.old) (object_of_traceback entry) }
    requires value { IfThere (IsTraceback (objects_of store.old)) (traceback_object value) }
    ensures edited { IsNextSet store.old store.new entry value }
    ensures now { LeadsOn (objects_of store.new) entry value }
    ensures spare { store.old.spare ≤ store.new.spare + 1 }
{
    let link = traceback_object(value);
    store.change(PyObjectRef::from(entry), Edit::Link(LinkField::Next, link));
}

/// Whether an entry is reached from another one, where there is one.
fn leads_back(store: &Store, entry: PyTracebackRef, from: Option<PyTracebackRef>) -> bool
    ensures yes { result ≡ true → LeadsBack (objects_of store.now) entry from }
    ensures no { result ≡ false → LeadsBack (objects_of store.now) entry from → ⊥ }
{
    let Some(from) = from else {
        return false;
    };
    if from.number == entry.number {
        return true;
    }
    first_to(
        store,
        LinkField::Next,
        PyObjectRef::from(from),
        PyObjectRef::from(entry),
    )
    .is_some()
}

/// An object as an entry, where there is one.
fn as_traceback(object: Option<PyObjectRef>) -> Option<PyTracebackRef>
    ensures { traceback_object result ≡ object }
{
    let object = object?;
    Some(PyTracebackRef {
        number: object.number,
    })
}
