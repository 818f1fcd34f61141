//! What objects are.

use py_code::PyText;
use py_objects::{Payload, PyBaseExceptionRef, PyObjectRef, PyTypeRef, Store};

/// What an object is, where the store has it.
pub(crate) fn payload_at(store: &Store, object: PyObjectRef) -> Option<&Payload> {
    if object.number < store.len() {
        Some(store.get(object))
    } else {
        None
    }
}

/// The text that an object is, if it is one.
pub(crate) fn text_at(store: &Store, object: PyObjectRef) -> Option<&PyText> {
    payload_at(store, object)?.text()
}

/// The class of an exception, where the store has that.
pub(crate) fn class_of(store: &Store, exception: PyBaseExceptionRef) -> Option<PyTypeRef> {
    let body = payload_at(store, PyObjectRef::from(exception))?.exception()?;
    Some(body.class)
}

/// The name of a class, where the store has that.
pub(crate) fn class_name(store: &Store, class: PyTypeRef) -> Option<&PyText> {
    let body = payload_at(store, PyObjectRef::from(class))?.class()?;
    Some(&body.name)
}
