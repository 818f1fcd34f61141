//! The objects that are there at first.

ghost use Rattle.std.specs.Prelude.{◌≡◌, [], ◌∷◌, IfOk, OnOk};
ghost use Rattle.py_objects.specs.declared.payload.Payload.TheVariants as payload;
ghost use Rattle.frame_tests.specs.declared.tables.First.TheVariants as first;
ghost use Rattle.frame_tests.specs.FirstObjects.{exception_body, first_objects, payload_of};

use crate::inputs::exception as exception_at;
use crate::tables::{FIRST, First};
use py_code::{NoMemory, text_of};
use py_exceptions::BaseException;
use py_objects::{
    AttrMap, Boxed, ClassBody, ExceptionBody, FrameRef, ManagerBody, ObjList, Payload, PyObjectRef,
    PyTracebackRef, PyTypeRef, Store, TracebackBody,
};
use std::alloc::Global;

/// The object with a number.
pub const fn object(number: u64) -> PyObjectRef
    ensures { result ≡ record { number = number } }
{
    PyObjectRef { number }
}

/// An exception of class 3 with the arguments 4.
fn exception(alloc: Global) -> ExceptionBody
    ensures { result ≡ exception_body }
{
    ExceptionBody {
        class: PyTypeRef { number: 3 },
        args: object(4),
        cause: None,
        context: None,
        suppress: false,
        traceback: None,
        attrs: AttrMap::new(alloc),
    }
}

/// A class.
fn class(alloc: Global) -> Result<Payload, NoMemory>
    ensures { IfOk result (λ made. made ≡ payload_of first.Class) }
{
    let name = text_of(alloc, b"x")?;
    let mro = ObjList::new(alloc);
    Ok(Payload::Class(Boxed::new(alloc, ClassBody { name, mro })?))
}

/// A manager.
fn manager(alloc: Global) -> Result<Payload, NoMemory>
    ensures { IfOk result (λ made. made ≡ payload_of first.Manager) }
{
    Ok(Payload::Manager(ManagerBody {
        name: text_of(alloc, b"x")?,
        enter: object(7),
        exit: object(7),
    }))
}

/// The payload of an object.
fn payload(alloc: Global, first: First) -> Result<Payload, NoMemory>
    ensures { IfOk result (λ made. made ≡ payload_of first) }
{
    match first {
        First::Class => class(alloc),
        First::Arguments => Ok(Payload::Tuple(ObjList::new(alloc))),
        First::Exception => Ok(Payload::Exception(Boxed::new(alloc, exception(alloc))?)),
        First::Frame => Ok(Payload::Frame(0)),
        First::Manager => manager(alloc),
        First::Traceback => Ok(Payload::Traceback(TracebackBody {
            next: None,
            frame: FrameRef { number: 7 },
            lasti: 0,
            lineno: 0,
        })),
    }
}

/// A store of these objects, where exception 6 has traceback 9 by now.
pub fn first_store(alloc: Global) -> Result<Store, NoMemory>
    ensures { IfOk result (λ store. store.made ≡ first_objects) }
{
    let mut store = Store::new(alloc)?;
    add_first(alloc, &mut store)?;
    Ok(store)
}

/// Puts them into a store of one object.
fn add_first(alloc: Global, store: &mut Store) -> Result<(), NoMemory>
    requires made { store.old.made ≡ payload.None ∷ [] }
    requires changes { store.old.changes ≡ [] }
    ensures { OnOk result (store.new.made ≡ first_objects) }
{
    store.add(Payload::Bool(false))?;
    store.add(Payload::Bool(true))?;
    for first in FIRST {
        store.add(payload(alloc, first)?)?;
    }
    store.reserve_changes(1)?;
    let traceback = PyTracebackRef { number: 9 };
    exception_at(6).set_traceback(store, Some(traceback));
    Ok(())
}
