//! The replies to calls of `send`, `throw` and `close` on what is no generator, which lacks them.

ghost use Rattle.std.specs.Prelude.{◌≡◌, ◌<◌, length, IfOk};
ghost use Rattle.py_objects.specs.Objects.{IsMade};
ghost use Rattle.py_answers.specs.Answers.{IsLacking, lacks_attribute};
ghost use Rattle.py_answers.specs.Readable.{IsReadable};
ghost use Rattle.py_answers.specs.Replying.{reply_of, is_generator, IsLackReplied, IsSized, Says};

use crate::reply::Reply;
use crate::values::entry;
use py_code::{NoMemory, PyText, push_bytes, push_text, text_of};
use py_exceptions::type_name;
use py_objects::{ErrorKind, Payload, PyObjectRef, Store};
use std::alloc::Global;

/// The reply to the call of an attribute of this name, which generators alone have (Python Language Reference, 6.2.9.1). None where it is one of a
/// generator, whose answer comes by how that stands.
pub(crate) fn lacking(
    alloc: Global,
    store: &Store,
    object: PyObjectRef,
    name: &[u8],
) -> Result<Option<Reply>, NoMemory>
    requires readable { IsReadable store.now }
    requires below { object.number < length store.now.made }
    ensures { IfOk result (IsLackReplied store.now.made name.now object) }
{
    let payload = entry(store, object);
    if is_generator(payload) {
        return Ok(None);
    }
    Ok(Some(no_attribute(alloc, store, payload, name)?))
}

/// Whether a payload is a generator's.
fn is_generator(payload: &Payload) -> bool
    ensures { result ≡ is_generator payload.now }
{
    matches!(payload, Payload::Generator(_))
}

/// The refusal of an attribute that what has this payload hasn't.
fn no_attribute(
    alloc: Global,
    store: &Store,
    payload: &Payload,
    name: &[u8],
) -> Result<Reply, NoMemory>
    requires { IsMade store.now.made payload.now }
    ensures reply { IfOk result (Says (IsLacking store.now.made name.now payload.now)) }
    ensures sized { IfOk result IsSized }
{
    let kind = type_name(alloc, store, payload)?;
    without_attribute(alloc, &kind, name)
}

/// The same of an object of the type of this name.
fn without_attribute(alloc: Global, kind: &PyText, name: &[u8]) -> Result<Reply, NoMemory>
    ensures reply { IfOk result (λ reply. reply_of reply ≡ lacks_attribute kind.now name.now) }
    ensures sized { IfOk result IsSized }
{
    let mut text = text_of(alloc, b"'")?;
    push_text(&mut text, kind)?;
    push_bytes(&mut text, b"' object has no attribute '")?;
    push_bytes(&mut text, name)?;
    push_bytes(&mut text, b"'")?;
    Ok(Reply::Fails(ErrorKind::AttributeError, text))
}
