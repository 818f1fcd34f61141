//! What may be raised: a class of exceptions or an exception, and what comes of it with a value.

ghost use Rattle.std.specs.Prelude.{◌≡◌, ◌<◌, length, IfOk};
ghost use Rattle.py_objects.specs.Edits.{objects_of};
ghost use Rattle.py_objects.specs.Objects.{class_object, IfThere};
ghost use Rattle.py_objects.specs.Ancestry.{derives_from};
ghost use Rattle.py_objects.specs.ErrorKinds.{name_of};
ghost use Rattle.py_objects.specs.declared.error_kind.ErrorKind.TheVariants.{BaseException};
ghost use Rattle.py_exceptions.specs.Raisable.{IsNotException, IsRefusal, IsTaken};
ghost use Rattle.py_exceptions.specs.Instantiating.{instantiated, Instantiates, StandsFor};
ghost use Rattle.py_exceptions.specs.Memory.{UnlessNoMemory};
ghost use Rattle.py_exceptions.specs.Normalizing.{Normalizes};
ghost use Rattle.py_exceptions.specs.Deriving.{IsInstanceOf};
ghost use Rattle.py_exceptions.specs.Parts.{AreParts, HasParts};
ghost use Rattle.py_exceptions.specs.TypeNames.{HasTypeName};
ghost use Rattle.py_exceptions.specs.declared.ctor.ExceptionCtor.TheVariants.{Class, Instance};

use crate::reading::{class_body, tuple_items};
use crate::type_names::type_name;
use py_code::{NoMemory, PyText, push_text, text_of};
use py_objects::{
    ErrorKind, Fault, ObjList, Payload, PyBaseExceptionRef, PyObjectRef, PyTypeRef, Store, derives,
};
use std::alloc::Global;
use thiserror::Error;

/// What may be raised (Python Language Reference, 7.8).
#[derive(Clone, Copy, Debug, PartialEq, Eq)]
pub enum ExceptionCtor {
    /// A class that is BaseException or derives from it, whose call makes an exception.
    Class(PyTypeRef),
    /// An exception.
    Instance(PyBaseExceptionRef),
}

/// Why an object can't be raised, or wasn't tried.
#[derive(Debug, Drop, Error)]
pub enum CtorFault {
    /// It is neither an exception nor a class that is BaseException or derives from it.
    #[error("{0}")]
    NotException(Fault),
    /// Memory ran out.
    #[error("memory ran out")]
    NoMemory,
}

/// What comes of a class or an exception.
#[derive(Drop)]
pub enum Instantiate {
    /// This exception.
    Done(PyBaseExceptionRef),
    /// A call of this class with these arguments.
    Make(PyTypeRef, ObjList),
    /// A refusal.
    Fault(Fault),
    /// Memory ran out.
    NoMemory,
}

impl ExceptionCtor {
    /// What an object is taken for, where it may be raised.
    pub fn try_from_object(
        alloc: Global,
        store: &Store,
        obj: PyObjectRef,
    ) -> Result<ExceptionCtor, CtorFault>
        requires { obj.number < length store.now.made }
        ensures { IsTaken (objects_of store.now) obj result }
    {
        let payload = store.get(obj);
        if payload.exception().is_some() {
            return Ok(ExceptionCtor::Instance(PyBaseExceptionRef { number: obj.number }));
        }
        let Some(_) = payload.class() else {
            return Err(not_exception(alloc, store, payload));
        };
        let class = PyTypeRef { number: obj.number };
        if is_of_exceptions(store, class) {
            return Ok(ExceptionCtor::Class(class));
        }
        Err(not_exception(alloc, store, payload))
    }

    /// What comes of it without a value.
    pub fn instantiate(self, alloc: Global) -> Instantiate
        ensures { result ≡ instantiated self }
    {
        match self {
            ExceptionCtor::Class(class) => Instantiate::Make(class, ObjList::new(alloc)),
            ExceptionCtor::Instance(exception) => Instantiate::Done(exception),
        }
    }

    /// What comes of it with a value.
    pub fn instantiate_value(self, alloc: Global, store: &Store, value: PyObjectRef) -> Instantiate
        requires { HasParts (objects_of store.now) value }
        ensures { UnlessNoMemory (Instantiates (objects_of store.now) self value) result }
    {
        let outcome = match self {
            ExceptionCtor::Class(class) => class_with(alloc, store, class, value),
            ExceptionCtor::Instance(exception) => instance_with(alloc, store, exception, value),
        };
        outcome.unwrap_or(Instantiate::NoMemory)
    }
}

/// What comes of an object that is thrown, with a value or without one (Python Language Reference, 6.2.9.1).
pub fn normalized(
    alloc: Global,
    store: &Store,
    thrown: PyObjectRef,
    value: Option<PyObjectRef>,
) -> Instantiate
    requires below { thrown.number < length store.now.made }
    requires value { IfThere (HasParts (objects_of store.now)) value }
    ensures { UnlessNoMemory (Normalizes (objects_of store.now) thrown value) result }
{
    match ExceptionCtor::try_from_object(alloc, store, thrown) {
        Ok(ctor) => match value {
            None => ctor.instantiate(alloc),
            Some(value) => ctor.instantiate_value(alloc, store, value),
        },
        Err(CtorFault::NotException(fault)) => Instantiate::Fault(fault),
        Err(CtorFault::NoMemory) => Instantiate::NoMemory,
    }
}

/// Whether a class is one of exceptions: BaseException, or one that derives from it.
fn is_of_exceptions(store: &Store, class: PyTypeRef) -> bool
    ensures { result ≡ derives_from store.now.made (class_object class) (name_of BaseException) }
{
    store.derives_from(class, ErrorKind::BaseException)
}

/// The refusal of what is neither an exception nor a class of exceptions.
fn not_exception(alloc: Global, store: &Store, payload: &Payload) -> CtorFault
    requires { HasTypeName store.now.made payload.now }
    ensures { IsNotException store.now.made payload.now result }
{
    match refusal(alloc, store, payload) {
        Ok(text) => CtorFault::NotException(Fault {
            kind: ErrorKind::TypeError,
            text,
        }),
        Err(NoMemory) => CtorFault::NoMemory,
    }
}

/// Its text.
fn refusal(alloc: Global, store: &Store, payload: &Payload) -> Result<PyText, NoMemory>
    requires { HasTypeName store.now.made payload.now }
    ensures { IfOk result (IsRefusal store.now.made payload.now) }
{
    let name = type_name(alloc, store, payload)?;
    let mut text = text_of(
        alloc,
        b"exceptions must be classes or instances deriving from BaseException, not ",
    )?;
    push_text(&mut text, &name)?;
    Ok(text)
}

/// What comes of an exception with a value.
fn instance_with(
    alloc: Global,
    store: &Store,
    exception: PyBaseExceptionRef,
    value: PyObjectRef,
) -> Result<Instantiate, NoMemory>
    requires { value.number < length store.now.made }
    ensures { IfOk result (Instantiates (objects_of store.now) (Instance exception) value) }
{
    if store.get(value).exception().is_none() {
        return Ok(Instantiate::Done(exception));
    }
    let text = text_of(alloc, b"instance exception may not have a separate value")?;
    Ok(Instantiate::Fault(Fault {
        kind: ErrorKind::TypeError,
        text,
    }))
}

/// What comes of a class with a value: the value, where it is an exception of the class, or a call.
fn class_with(
    alloc: Global,
    store: &Store,
    class: PyTypeRef,
    value: PyObjectRef,
) -> Result<Instantiate, NoMemory>
    requires { HasParts (objects_of store.now) value }
    ensures { IfOk result (Instantiates (objects_of store.now) (Class class) value) }
{
    let payload = store.get(value);
    if is_instance(store, payload, class) {
        return Ok(Instantiate::Done(PyBaseExceptionRef {
            number: value.number,
        }));
    }
    let args = arguments(alloc, store, value, payload)?;
    Ok(Instantiate::Make(class, args))
}

/// Whether what has a payload is an exception of a class, or of one that derives from it.
pub fn is_instance(store: &Store, payload: &Payload, class: PyTypeRef) -> bool
    requires { AreParts (objects_of store.now) payload.now }
    ensures { IsInstanceOf (objects_of store.now) payload.now (class_object class) result }
{
    let Some(exception) = payload.exception() else {
        return false;
    };
    let own = exception.class;
    let body = class_body(store, PyObjectRef::from(own));
    derives(own, body, PyObjectRef::from(class))
}

/// The arguments that a value stands for, which has this payload.
fn arguments(
    alloc: Global,
    store: &Store,
    value: PyObjectRef,
    payload: &Payload,
) -> Result<ObjList, NoMemory>
    requires { AreParts (objects_of store.now) payload.now }
    ensures { IfOk result (StandsFor (objects_of store.now) value payload.now) }
{
    match payload {
        Payload::None => Ok(ObjList::new(alloc)),
        Payload::Tuple(items) => items.copy(alloc),
        Payload::Exception(exception) => {
            let items = tuple_items(store, exception.value().args);
            items.copy(alloc)
        }
        _ => {
            let mut args = ObjList::new(alloc);
            args.push(value)?;
            Ok(args)
        }
    }
}
