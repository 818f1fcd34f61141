//! What objects are, by the store.

ghost use Rattle.std.specs.Prelude.{◌≡◌, Bool, true, false, IfOk, length};
ghost use Rattle.py_objects.specs.declared.payload.Payload.{Payload as PayloadOf};
ghost use Rattle.py_objects.specs.declared.payload.Payload.TheVariants as payload;
ghost use Rattle.py_objects.specs.Objects.{HasPayload, IsTraceback, as_exception, as_object};
ghost use Rattle.py_objects.specs.Callees.{builtin_of, is_manager};
ghost use Rattle.py_frame.specs.Added.{AddsConstants, IsOfConstant};

use py_code::{BuiltinFn, NoMemory};
use py_objects::{Payload, PyBaseExceptionRef, PyObjectRef, Store};

/// An exception as an object.
pub(crate) fn as_object(exception: PyBaseExceptionRef) -> PyObjectRef
    ensures { result ≡ as_object exception }
{
    PyObjectRef {
        number: exception.number,
    }
}

/// An object as an exception.
pub(crate) fn as_exception(value: PyObjectRef) -> PyBaseExceptionRef
    ensures { result ≡ as_exception value }
{
    PyBaseExceptionRef {
        number: value.number,
    }
}

/// Which truth value an object is.
pub(crate) fn truth(store: &Store, value: PyObjectRef) -> bool
    requires { (b : Bool) × HasPayload store.now.made value (payload.Bool b) }
    ensures { HasPayload store.now.made value (payload.Bool result) }
{
    match store.get(value) {
        Payload::Bool(truth) => *truth,
        _ => unreachable!(),
    }
}

/// Whether an object is a manager, which has an exit.
pub(crate) fn is_manager(store: &Store, value: PyObjectRef) -> bool
    requires { (p : PayloadOf) × HasPayload store.now.made value p }
    ensures { (p : PayloadOf) × HasPayload store.now.made value p × (is_manager p ≡ result) }
{
    matches!(store.get(value), Payload::Manager(_))
}

/// Which function of the machine's own an object is, if any.
pub(crate) fn builtin(store: &Store, value: PyObjectRef) -> Option<BuiltinFn>
    requires { (p : PayloadOf) × HasPayload store.now.made value p }
    ensures { (p : PayloadOf) × HasPayload store.now.made value p × (builtin_of p ≡ result) }
{
    match store.get(value) {
        Payload::Builtin(function) => Some(*function),
        _ => None,
    }
}

/// Whether an object is there and a traceback.
pub(crate) fn is_traceback(store: &Store, value: PyObjectRef) -> bool
    ensures is { result ≡ true → IsTraceback store.now.made value }
    ensures no { result ≡ false → IsTraceback store.now.made value → ⊥ }
{
    value.number < store.len() && matches!(store.get(value), Payload::Traceback(_))
}

/// A new object with a payload that a constant may have.
pub(crate) fn add_constant(store: &mut Store, payload: Payload) -> Result<PyObjectRef, NoMemory>
    requires { IsOfConstant (length store.old.made) payload }
    ensures number { IfOk result (λ object. object.number ≡ length store.old.made) }
    ensures has { IfOk result (λ object. HasPayload store.new.made object payload) }
    ensures objects { AddsConstants store.old.made store.new.made }
    ensures unchanged { store.new ≡ record store.old { made = store.new.made } }
{
    store.add(payload)
}
