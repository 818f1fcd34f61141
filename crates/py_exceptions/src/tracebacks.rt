//! The entries of tracebacks, and what stands for those of exceptions.

ghost use Rattle.std.specs.Prelude.{◌≡◌, length, IfOk, OnOk, OnErr};
ghost use Rattle.py_objects.specs.Objects.{as_object, IfThere, IsException, IsTraceback};
ghost use Rattle.py_objects.specs.Edits.{objects_of};
ghost use Rattle.py_objects.specs.Growth.{IsGrown};
ghost use Rattle.py_exceptions.specs.Tracebacks.{traceback_object as object_of_traceback, with_entry, IsFrame, IsSplit, StandsForTraceback};

use crate::reading::exception_body;
use py_code::NoMemory;
use py_objects::{
    FrameRef, Payload, PyBaseExceptionRef, PyObjectRef, PyTracebackRef, Store, TracebackBody,
};

/// What makes the entries of tracebacks (Python Language Reference, 3.2, under traceback objects).
#[derive(Clone, Copy, Debug, PartialEq, Eq)]
pub struct PyTraceback;

impl PyTraceback {
    /// A new entry: what it leads on to, its frame, the place in that frame's code, and the line.
    pub fn new(
        store: &mut Store,
        next: Option<PyTracebackRef>,
        frame: FrameRef,
        lasti: u32,
        lineno: u32,
    ) -> Result<PyTracebackRef, NoMemory>
        requires next { IfThere (IsTraceback store.old.made) (object_of_traceback next) }
        requires frame { IsFrame store.old.made frame }
        ensures number { IfOk result (λ entry. entry.number ≡ length store.old.made) }
        ensures added { OnOk result (store.new ≡ with_entry store.old next frame lasti lineno) }
        ensures err { OnErr result (store.new ≡ store.old) }
        ensures grows { IsGrown store.old store.new }
    {
        let entry = store.add(Payload::Traceback(TracebackBody {
            next: traceback_object(next),
            frame,
            lasti,
            lineno,
        }))?;
        Ok(PyTracebackRef {
            number: entry.number,
        })
    }
}

/// The class of an exception, the exception, and its traceback or the store's own None (Python Language Reference, 3.3.9).
pub fn split_exception(
    store: &Store,
    exc: PyBaseExceptionRef,
) -> (PyObjectRef, PyObjectRef, PyObjectRef)
    requires { IsException (objects_of store.now) (as_object exc) }
    ensures { IsSplit store.now exc result.0 result.1 result.2 }
{
    let body = exception_body(store, exc);
    (
        PyObjectRef::from(body.class),
        PyObjectRef::from(exc),
        traceback_or_none(store, body.traceback),
    )
}

/// A traceback, or the store's own None in place of none.
fn traceback_or_none(store: &Store, traceback: Option<PyObjectRef>) -> PyObjectRef
    ensures { StandsForTraceback store.now.made traceback result }
{
    match traceback {
        Some(traceback) => traceback,
        None => store.none(),
    }
}

/// A traceback as an object, where there is one.
pub(crate) fn traceback_object(traceback: Option<PyTracebackRef>) -> Option<PyObjectRef>
    ensures { result ≡ object_of_traceback traceback }
{
    match traceback {
        None => None,
        Some(traceback) => Some(PyObjectRef::from(traceback)),
    }
}
