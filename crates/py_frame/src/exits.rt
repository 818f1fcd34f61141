//! What the exit of a manager is told.

ghost use Rattle.std.specs.Prelude.{◌≡◌, Some, IfOk};
ghost use Rattle.py_objects.specs.declared.payload.Payload.TheVariants as payload;
ghost use Rattle.py_objects.specs.Objects.{HasPayload};
ghost use Rattle.py_rows.specs.Laws.{RaisedThere};
ghost use Rattle.py_rows.specs.RunOfRows.{IsExit};
ghost use Rattle.py_frame.specs.Added.{AddsConstants, ClassesAreThere};
ghost use Rattle.py_frame.specs.Exits.{HasTraceback, IsClassOf, IsException, IsTold, TellsIf, TellsTraceback};

use crate::objects::{add_constant, as_object, is_traceback};
use py_code::NoMemory;
use py_objects::{Payload, PyBaseExceptionRef, PyObjectRef, Store};

/// An exception between its class and its traceback, or three times None.
pub(crate) fn exit_arguments(
    store: &mut Store,
    raised: Option<PyBaseExceptionRef>,
) -> Result<(PyObjectRef, PyObjectRef, PyObjectRef), NoMemory>
    requires classes { ClassesAreThere store.old.made }
    requires there { RaisedThere store.old.made raised }
    ensures told { IfOk result (λ told. IsExit store.new.made raised told.0 told.1 told.2) }
    ensures traceback { IfOk result (λ told. TellsIf store.old store.new raised told.2) }
    ensures objects { AddsConstants store.old.made store.new.made }
    ensures unchanged { store.new ≡ record store.old { made = store.new.made } }
{
    match raised {
        None => {
            let class = add_none(store)?;
            let exception = add_none(store)?;
            let traceback = add_none(store)?;
            Ok((class, exception, traceback))
        }
        Some(exception) => {
            let exception = as_object(exception);
            let class = class(store, exception);
            let traceback = traceback(store, exception)?;
            Ok((class, exception, traceback))
        }
    }
}

/// The class of an exception.
fn class(store: &Store, exception: PyObjectRef) -> PyObjectRef
    requires classes { ClassesAreThere store.now.made }
    requires there { IsException store.now.made exception }
    ensures { IsClassOf store.now.made exception result }
{
    match store.get(exception) {
        Payload::Exception(body) => PyObjectRef {
            number: body.value().class.number,
        },
        _ => unreachable!(),
    }
}

/// The traceback of an exception, where it has one that is a traceback, else a new None.
fn traceback(store: &mut Store, exception: PyObjectRef) -> Result<PyObjectRef, NoMemory>
    requires { IsException store.old.made exception }
    ensures told { IfOk result (λ told. TellsTraceback store.old store.new exception told) }
    ensures objects { AddsConstants store.old.made store.new.made }
    ensures unchanged { store.new ≡ record store.old { made = store.new.made } }
{
    match traceback_of(store, exception) {
        Some(traceback) => own_traceback(store, traceback),
        None => add_none(store),
    }
}

/// An object that is a traceback, of any other a new None.
fn own_traceback(store: &mut Store, traceback: PyObjectRef) -> Result<PyObjectRef, NoMemory>
    ensures told { IfOk result (λ told. IsTold store.old store.new (Some traceback) told) }
    ensures objects { AddsConstants store.old.made store.new.made }
    ensures unchanged { store.new ≡ record store.old { made = store.new.made } }
{
    if is_traceback(store, traceback) {
        Ok(traceback)
    } else {
        add_none(store)
    }
}

/// The traceback that an exception has by now, if any.
fn traceback_of(store: &Store, exception: PyObjectRef) -> Option<PyObjectRef>
    requires { IsException store.now.made exception }
    ensures { HasTraceback store.now exception result }
{
    match store.get(exception) {
        Payload::Exception(body) => body.value().traceback,
        _ => unreachable!(),
    }
}

/// A new None.
fn add_none(store: &mut Store) -> Result<PyObjectRef, NoMemory>
    ensures none { IfOk result (λ object. HasPayload store.new.made object payload.None) }
    ensures objects { AddsConstants store.old.made store.new.made }
    ensures unchanged { store.new ≡ record store.old { made = store.new.made } }
{
    add_constant(store, Payload::None)
}
