//! The names of types.

ghost use Rattle.std.specs.Prelude.{◌≡◌, IfOk};
ghost use Rattle.py_objects.specs.Objects.{class_object, IsClassObject};
ghost use Rattle.py_exceptions.specs.TypeNames.{HasTypeName, IsNameOf, IsTypeName, kind_name};

use crate::reading::class_body;
use py_code::{NoMemory, PyText, text_of};
use py_objects::{CoroKind, Payload, PyObjectRef, PyTypeRef, Store};
use std::alloc::Global;

/// The name of a payload's type.
pub fn type_name(alloc: Global, store: &Store, payload: &Payload) -> Result<PyText, NoMemory>
    requires { HasTypeName store.now.made payload.now }
    ensures { IfOk result (IsTypeName store.now.made payload.now) }
{
    match payload {
        Payload::None => text_of(alloc, b"NoneType"),
        Payload::Bool(_) => text_of(alloc, b"bool"),
        Payload::Int(_) => text_of(alloc, b"int"),
        Payload::Str(_) => text_of(alloc, b"str"),
        Payload::Tuple(_) => text_of(alloc, b"tuple"),
        Payload::Dict(_) => text_of(alloc, b"dict"),
        Payload::Class(_) => text_of(alloc, b"type"),
        Payload::Function(_) => text_of(alloc, b"function"),
        Payload::Builtin(_) => text_of(alloc, b"builtin_function_or_method"),
        Payload::Code(_) => text_of(alloc, b"code"),
        Payload::Manager(_) => text_of(alloc, b"manager"),
        Payload::Frame(_) => text_of(alloc, b"frame"),
        Payload::Generator(body) => kind_name(alloc, body.kind),
        Payload::Exception(body) => class_name(alloc, store, body.value().class),
        Payload::Traceback(_) => text_of(alloc, b"traceback"),
    }
}

/// The name of a suspended activation's type.
fn kind_name(alloc: Global, kind: CoroKind) -> Result<PyText, NoMemory>
    ensures { IfOk result (λ name. name ≡ kind_name kind) }
{
    match kind {
        CoroKind::Generator => text_of(alloc, b"generator"),
        CoroKind::Coroutine => text_of(alloc, b"coroutine"),
        CoroKind::AsyncGen => text_of(alloc, b"async_generator"),
    }
}

/// The name of a class.
fn class_name(alloc: Global, store: &Store, class: PyTypeRef) -> Result<PyText, NoMemory>
    requires { IsClassObject store.now.made (class_object class) }
    ensures { IfOk result (IsNameOf store.now.made class) }
{
    let body = class_body(store, PyObjectRef::from(class));
    body.name.copy(alloc)
}
