//! The replies to who enters what is no manager, and to who leaves by an exit that is none.

ghost use Rattle.std.specs.Prelude.{◌≡◌, ◌<◌, ◌∷◌, [], length, IfOk};
ghost use Rattle.py_objects.specs.Objects.{IsMade};
ghost use Rattle.py_objects.specs.Callees.{is_manager};
ghost use Rattle.py_answers.specs.Answers.{no_exit, no_protocol, IsRefusedBy, RefusesExit};
ghost use Rattle.py_answers.specs.Readable.{IsReadable};
ghost use Rattle.py_answers.specs.Replying.{IsEntryReplied, IsExitReplied, IsSized, Says};

use crate::calling::called;
use crate::reply::Reply;
use crate::values::entry;
use py_code::{NoMemory, PyText, push_bytes, push_text, text_of};
use py_exceptions::type_name;
use py_objects::{ErrorKind, ObjList, Payload, PyObjectRef, Store};
use std::alloc::Global;

/// The reply to the entry of an object (Python Language Reference, 8.5). None where it is a manager, whose enter function is called.
pub(crate) fn entered(
    alloc: Global,
    store: &Store,
    object: PyObjectRef,
) -> Result<Option<Reply>, NoMemory>
    requires readable { IsReadable store.now }
    requires below { object.number < length store.now.made }
    ensures { IfOk result (IsEntryReplied store.now.made object) }
{
    let payload = entry(store, object);
    if is_manager(payload) {
        return Ok(None);
    }
    Ok(Some(not_entered(alloc, store, payload)?))
}

/// The reply to who asks for the exit of an object without one.
pub(crate) fn without_exit(
    alloc: Global,
    store: &Store,
    object: PyObjectRef,
) -> Result<Reply, NoMemory>
    requires readable { IsReadable store.now }
    requires below { object.number < length store.now.made }
    ensures reply { IfOk result (Says (RefusesExit store.now.made object)) }
    ensures sized { IfOk result IsSized }
{
    not_exited(alloc, store, entry(store, object))
}

/// The reply where control leaves by an exit that is told this. None where it is a manager, whose exit function is called, or a function.
pub(crate) fn exited(
    alloc: Global,
    store: &Store,
    exit: PyObjectRef,
    told: &ObjList,
) -> Result<Option<Reply>, NoMemory>
    requires readable { IsReadable store.now }
    requires below { exit.number < length store.now.made }
    ensures { IfOk result (IsExitReplied store.now.made exit told.now) }
{
    if is_manager(entry(store, exit)) {
        return Ok(None);
    }
    called(alloc, store, exit, told)
}

/// What an exit is told, as the arguments of a call.
pub fn told(
    alloc: Global,
    class: PyObjectRef,
    exception: PyObjectRef,
    traceback: PyObjectRef,
) -> Result<ObjList, NoMemory>
    ensures { IfOk result (λ told. told ≡ class ∷ exception ∷ traceback ∷ []) }
{
    let mut told = ObjList::new(alloc);
    told.push(class)?;
    told.push(exception)?;
    told.push(traceback)?;
    Ok(told)
}

/// Whether a payload is a manager's.
fn is_manager(payload: &Payload) -> bool
    ensures { result ≡ is_manager payload.now }
{
    matches!(payload, Payload::Manager(_))
}

/// The refusal to enter what has this payload.
fn not_entered(alloc: Global, store: &Store, payload: &Payload) -> Result<Reply, NoMemory>
    requires { IsMade store.now.made payload.now }
    ensures reply { IfOk result (Says (IsRefusedBy store.now.made no_protocol payload.now)) }
    ensures sized { IfOk result IsSized }
{
    let kind = type_name(alloc, store, payload)?;
    Ok(Reply::Fails(ErrorKind::TypeError, no_protocol(alloc, &kind)?))
}

/// The refusal where the exit of what has this payload is missing.
fn not_exited(alloc: Global, store: &Store, payload: &Payload) -> Result<Reply, NoMemory>
    requires { IsMade store.now.made payload.now }
    ensures reply { IfOk result (Says (IsRefusedBy store.now.made no_exit payload.now)) }
    ensures sized { IfOk result IsSized }
{
    let kind = type_name(alloc, store, payload)?;
    Ok(Reply::Fails(ErrorKind::TypeError, no_exit(alloc, &kind)?))
}

/// The text of the refusal to enter an object of the type of this name.
fn no_protocol(alloc: Global, kind: &PyText) -> Result<PyText, NoMemory>
    ensures { IfOk result (λ text. text ≡ no_protocol kind.now) }
{
    let mut text = text_of(alloc, b"'")?;
    push_text(&mut text, kind)?;
    push_bytes(
        &mut text,
        b"' object does not support the context manager protocol",
    )?;
    Ok(text)
}

/// The text of the refusal where the exit of one is missing.
fn no_exit(alloc: Global, kind: &PyText) -> Result<PyText, NoMemory>
    ensures { IfOk result (λ text. text ≡ no_exit kind.now) }
{
    let mut text = text_of(alloc, b"'")?;
    push_text(&mut text, &no_protocol(alloc, kind)?)?;
    push_bytes(&mut text, b" (missed __exit__ method)")?;
    Ok(text)
}
