//! The links of exceptions and of the entries of tracebacks, and the walk that looks for the one that leads to an object.

ghost use Rattle.std.specs.Prelude.{◌≡◌, ◌<◌, ◌≤◌, ◌+◌, length};
ghost use Rattle.py_objects.specs.Objects.{as_object, AllBelow, IfThere, IsException};
ghost use Rattle.py_objects.specs.Edits.{edit_numbers, objects_of, FitsException, IsEdited, IsInPlace};
ghost use Rattle.py_exceptions.specs.Links.{exception_object, IsBetweenExceptions, IsExceptionEdited, IsLinkSet, HasLink};
ghost use Rattle.py_exceptions.specs.Walks.{link_at, link_of, IsFirstTo};

use crate::repr::payload_at;
use py_objects::{Edit, LinkField, Payload, PyBaseExceptionRef, PyObjectRef, Store};

/// What a link of an object leads to. One that isn't there leads nowhere, nor does one without links of that kind.
pub fn link_at(objects: &[Payload], field: LinkField, object: PyObjectRef) -> Option<PyObjectRef>
    ensures { result ≡ link_at field objects.now object }
{
    let payload = payload_at(objects, object)?;
    link_of(field, payload)
}

/// The same in a store, as the object is now.
pub(crate) fn link(store: &Store, field: LinkField, object: PyObjectRef) -> Option<PyObjectRef>
    ensures { result ≡ link_at field (objects_of store.now) object }
{
    link_at(store.objects(), field, object)
}

/// What a link of a payload leads to.
fn link_of(field: LinkField, payload: &Payload) -> Option<PyObjectRef>
    ensures { result ≡ link_of field payload.now }
{
    match payload {
        Payload::Exception(body) => {
            let body = body.value();
            match field {
                LinkField::Cause => body.cause,
                LinkField::Context => body.context,
                LinkField::Traceback => body.traceback,
                LinkField::Next => None,
            }
        }
        Payload::Traceback(body) => match field {
            LinkField::Next => body.next,
            LinkField::Cause | LinkField::Context | LinkField::Traceback => None,
        },
        Payload::None
        | Payload::Bool(_)
        | Payload::Int(_)
        | Payload::Str(_)
        | Payload::Tuple(_)
        | Payload::Dict(_)
        | Payload::Class(_)
        | Payload::Function(_)
        | Payload::Builtin(_)
        | Payload::Code(_)
        | Payload::Manager(_)
        | Payload::Frame(_)
        | Payload::Generator(_) => None,
    }
}

/// The first object, on the way from one, whose link leads to another. It ends on any links: a walk that hasn't found it in as
/// many steps as there are objects has come back.
pub(crate) fn first_to(
    store: &Store,
    field: LinkField,
    from: PyObjectRef,
    to: PyObjectRef,
) -> Option<PyObjectRef>
    ensures { IsFirstTo (link_at field (objects_of store.now)) from to result }
{
    let mut at = from;
    for _step in 0..store.len() {
        let next = link(store, field, at)?;
        if next.number == to.number {
            return Some(at);
        }
        at = next;
    }
    None
}

/// Makes an edit of an exception that takes no memory, and names objects that are there.
pub(crate) fn change_exception(store: &mut Store, exc: PyBaseExceptionRef, edit: Edit)
    requires spare { 0 < store.old.spare }
    requires exception { IsException (objects_of store.old) (as_object exc) }
    requires named { AllBelow (length store.old.made) (edit_numbers edit) }
    requires fits { FitsException edit }
    requires in_place { IsInPlace edit }
    ensures edited { IsEdited store.old store.new (as_object exc) edit }
    ensures now { IsExceptionEdited (objects_of store.old) (objects_of store.new) exc edit }
    ensures spare { store.old.spare ≤ store.new.spare + 1 }
{
    store.change(PyObjectRef::from(exc), edit);
}

/// Makes the cause or the context of an exception another one, or none.
pub(crate) fn set_link(
    store: &mut Store,
    exc: PyBaseExceptionRef,
    field: LinkField,
    value: Option<PyBaseExceptionRef>,
)
    requires spare { 0 < store.old.spare }
    requires exception { IsException (objects_of store.old) (as_object exc) }
    requires value { IfThere (IsException (objects_of store.old)) (exception_object value) }
    requires field { IsBetweenExceptions field }
    ensures edited { IsLinkSet store.old store.new field exc value }
    ensures now { HasLink field (objects_of store.new) exc value }
    ensures spare { store.old.spare ≤ store.new.spare + 1 }
{
    let link = exception_object(value);
    change_exception(store, exc, Edit::Link(field, link));
}

/// An object as an exception, where there is one.
pub(crate) fn as_exception(object: Option<PyObjectRef>) -> Option<PyBaseExceptionRef>
    ensures { exception_object result ≡ object }
{
    let object = object?;
    Some(PyBaseExceptionRef {
        number: object.number,
    })
}

/// An exception as an object, where there is one.
fn exception_object(exc: Option<PyBaseExceptionRef>) -> Option<PyObjectRef>
    ensures { result ≡ exception_object exc }
{
    match exc {
        None => None,
        Some(exc) => Some(PyObjectRef::from(exc)),
    }
}
