//! Classes, exceptions, entries of tracebacks and tuples, as they are now.

ghost use Rattle.py_objects.specs.Objects.{as_object, HasPayload, IsClassObject, IsException, IsTraceback};
ghost use Rattle.py_objects.specs.Edits.{objects_of};
ghost use Rattle.py_objects.specs.Refs.{object_of_traceback};
ghost use Rattle.py_objects.specs.declared.payload.Payload.TheVariants.{Class, Exception, Traceback, Tuple};
ghost use Rattle.py_exceptions.specs.Arguments.{IsTuple};

use py_objects::{
    ClassBody, ExceptionBody, ObjList, Payload, PyBaseExceptionRef, PyObjectRef, PyTracebackRef,
    Store, TracebackBody,
};

/// What a class is.
pub(crate) fn class_body(store: &Store, class: PyObjectRef) -> &ClassBody
    requires { IsClassObject (objects_of store.now) class }
    ensures { HasPayload (objects_of store.now) class (Class result.now) }
{
    let Some(body) = store.get(class).class() else {
        unreachable!();
    };
    body
}

/// What an exception is.
pub(crate) fn exception_body(store: &Store, exc: PyBaseExceptionRef) -> &ExceptionBody
    requires { IsException (objects_of store.now) (as_object exc) }
    ensures { HasPayload (objects_of store.now) (as_object exc) (Exception result.now) }
{
    let Some(body) = store.get(PyObjectRef::from(exc)).exception() else {
        unreachable!();
    };
    body
}

/// What an entry of a traceback is.
pub(crate) fn traceback_body(store: &Store, tb: PyTracebackRef) -> &TracebackBody
    requires { IsTraceback (objects_of store.now) (object_of_traceback tb) }
    ensures { HasPayload (objects_of store.now) (object_of_traceback tb) (Traceback result.now) }
{
    let Payload::Traceback(body) = store.get(PyObjectRef::from(tb)) else {
        unreachable!();
    };
    body
}

/// The items of a tuple.
pub(crate) fn tuple_items(store: &Store, tuple: PyObjectRef) -> &ObjList
    requires { IsTuple (objects_of store.now) tuple }
    ensures { HasPayload (objects_of store.now) tuple (Tuple result.now) }
{
    let Some(items) = store.get(tuple).tuple() else {
        unreachable!();
    };
    items
}
