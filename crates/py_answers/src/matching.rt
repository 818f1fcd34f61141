//! The reply to whether an exception is caught by a class.

ghost use Rattle.std.specs.Prelude.{◌≡◌, ◌<◌, length, IfOk};
ghost use Rattle.py_answers.specs.Answers.{cannot_catch, Matches};
ghost use Rattle.py_answers.specs.Readable.{IsReadable};
ghost use Rattle.py_answers.specs.Replying.{reply_of, IsSized, Says};

use crate::reply::Reply;
use crate::values::{entry, is_of_exceptions};
use py_code::{NoMemory, text_of};
use py_exceptions::is_instance;
use py_objects::{ErrorKind, Payload, PyObjectRef, PyTypeRef, Store};
use std::alloc::Global;

/// Whether an exception is caught by a class: it is of that class, or of one that derives from it (Python Language Reference, 8.4.1).
pub(crate) fn matches(
    alloc: Global,
    store: &Store,
    exception: PyObjectRef,
    class: PyObjectRef,
) -> Result<Reply, NoMemory>
    requires readable { IsReadable store.now }
    requires exception_below { exception.number < length store.now.made }
    requires class_below { class.number < length store.now.made }
    ensures reply { IfOk result (Says (Matches store.now.made exception class)) }
    ensures sized { IfOk result IsSized }
{
    let caught = entry(store, exception);
    let Payload::Class(_) = entry(store, class) else {
        return cannot_catch(alloc);
    };
    if !is_of_exceptions(store, class) {
        return cannot_catch(alloc);
    }
    let class = PyTypeRef {
        number: class.number,
    };
    Ok(Reply::Bool(is_instance(store, caught, class)))
}

/// The refusal to catch what isn't a class of exceptions.
fn cannot_catch(alloc: Global) -> Result<Reply, NoMemory>
    ensures reply { IfOk result (λ reply. reply_of reply ≡ cannot_catch) }
    ensures sized { IfOk result IsSized }
{
    let text = text_of(
        alloc,
        b"catching classes that do not inherit from BaseException is not allowed",
    )?;
    Ok(Reply::Fails(ErrorKind::TypeError, text))
}
