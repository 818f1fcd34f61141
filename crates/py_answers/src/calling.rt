//! The replies to calls of anything but functions.

ghost use Rattle.std.specs.Prelude.{◌≡◌, ◌<◌, length, IfOk};
ghost use Rattle.py_objects.specs.Objects.{IsClassObject, IsMade};
ghost use Rattle.py_answers.specs.Answers.{IsRefusedCall, refused_arguments};
ghost use Rattle.py_answers.specs.Readable.{IsReadable};
ghost use Rattle.py_answers.specs.Replying.{reply_of, IsCallReplied, IsClassCalled, IsSized, Says};

use crate::reply::Reply;
use crate::values::{entry, is_of_exceptions};
use py_code::{BuiltinFn, NoMemory, push_bytes, push_text, text_of};
use py_exceptions::type_name;
use py_objects::{ErrorKind, ObjList, Payload, PyObjectRef, PyTypeRef, Store};
use std::alloc::Global;

/// The reply to the call of an object with these arguments (Python Language Reference, 6.3.4), where it isn't a function, whose call needs an
/// activation.
pub(crate) fn called(
    alloc: Global,
    store: &Store,
    callee: PyObjectRef,
    args: &ObjList,
) -> Result<Option<Reply>, NoMemory>
    requires readable { IsReadable store.now }
    requires below { callee.number < length store.now.made }
    ensures { IfOk result (IsCallReplied store.now.made callee args.now) }
{
    let payload = entry(store, callee);
    match payload {
        Payload::Function(_) => Ok(None),
        Payload::Class(_) => Ok(Some(class_called(alloc, store, callee, payload, args)?)),
        Payload::Builtin(function) => Ok(Some(bad_arguments(alloc, *function)?)),
        _ => Ok(Some(not_callable(alloc, store, payload)?)),
    }
}

/// The reply to the call of a class of this payload with these arguments: one of exceptions makes one.
fn class_called(
    alloc: Global,
    store: &Store,
    callee: PyObjectRef,
    payload: &Payload,
    args: &ObjList,
) -> Result<Reply, NoMemory>
    requires class { IsClassObject store.now.made callee }
    requires made { IsMade store.now.made payload.now }
    ensures reply { IfOk result (Says (IsClassCalled store.now.made callee payload.now args.now)) }
    ensures sized { IfOk result IsSized }
{
    if is_of_exceptions(store, callee) {
        let class = PyTypeRef {
            number: callee.number,
        };
        return Ok(Reply::Makes(class, args.copy(alloc)?));
    }
    not_callable(alloc, store, payload)
}

/// The refusal of a function of the machine's own, whose arguments don't fit.
fn bad_arguments(alloc: Global, function: BuiltinFn) -> Result<Reply, NoMemory>
    ensures reply { IfOk result (λ reply. reply_of reply ≡ refused_arguments function) }
    ensures sized { IfOk result IsSized }
{
    let mut text = text_of(alloc, b"bad arguments for ")?;
    push_bytes(&mut text, function.name())?;
    push_bytes(&mut text, b"()")?;
    Ok(Reply::Fails(ErrorKind::TypeError, text))
}

/// The refusal of what can't be called.
fn not_callable(alloc: Global, store: &Store, payload: &Payload) -> Result<Reply, NoMemory>
    requires { IsMade store.now.made payload.now }
    ensures reply { IfOk result (Says (IsRefusedCall store.now.made payload.now)) }
    ensures sized { IfOk result IsSized }
{
    let name = type_name(alloc, store, payload)?;
    let mut text = text_of(alloc, b"'")?;
    push_text(&mut text, &name)?;
    push_bytes(&mut text, b"' object is not callable")?;
    Ok(Reply::Fails(ErrorKind::TypeError, text))
}
