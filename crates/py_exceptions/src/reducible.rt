//! Whether an exception can be made again from what it names.

ghost use Rattle.std.specs.Prelude.{◌≡◌, Decides, IfOk, nat_lt};
ghost use Rattle.std.specs.List.{list_all};
ghost use Rattle.py_objects.specs.Objects.{IsClassObject};
ghost use Rattle.py_exceptions.specs.Reducing.{HasAllParts, IsReducible};

use crate::repr::payload_at;
use py_code::NoMemory;
use py_objects::{AttrMap, ExceptionBody, Payload, PyBaseExceptionRef, PyObjectRef, Store};

/// Whether an object is an exception, and what it names is there.
pub(crate) fn is_reducible(store: &Store, exc: PyBaseExceptionRef) -> Result<bool, NoMemory>
    ensures { IfOk result (λ yes. Decides yes (IsReducible store.now exc)) }
{
    let payload = payload_at(store.objects(), PyObjectRef::from(exc));
    let Some(body) = payload.and_then(Payload::exception) else {
        return Ok(false);
    };
    has_all_parts(store, body)
}

/// Whether what an exception names is there: its class, its arguments, and the values of its attributes.
fn has_all_parts(store: &Store, body: &ExceptionBody) -> Result<bool, NoMemory>
    ensures { IfOk result (λ yes. Decides yes (HasAllParts store.now body.now)) }
{
    let objects = store.objects();
    if !is_class(objects, PyObjectRef::from(body.class)) {
        return Ok(false);
    }
    let Some(payload) = payload_at(objects, body.args) else {
        return Ok(false);
    };
    let Some(items) = payload.tuple() else {
        return Ok(false);
    };
    if !are_there(items.as_slice(), store.len()) {
        return Ok(false);
    }
    are_values_there(&body.attrs, store.len())
}

fn is_class(objects: &[Payload], object: PyObjectRef) -> bool
    ensures { Decides result (IsClassObject objects.now object) }
{
    payload_at(objects, object)
        .and_then(Payload::class)
        .is_some()
}

/// Whether all of these are among so many objects.
fn are_there(items: &[PyObjectRef], count: u64) -> bool
    ensures { result ≡ list_all (λ v. nat_lt v.number count) items.now }
{
    items.iter().all(|item| item.number < count)
}

/// Whether the values of attributes are among so many objects. Each name is read as a copy.
fn are_values_there(attrs: &AttrMap, count: u64) -> Result<bool, NoMemory>
    ensures { IfOk result (λ yes. yes ≡ list_all (λ a. nat_lt a.1.number count) attrs.now) }
{
    for place in 0..attrs.len() {
        let (_name, value) = attrs.at(place)?;
        if value.number >= count {
            return Ok(false);
        }
    }
    Ok(true)
}
