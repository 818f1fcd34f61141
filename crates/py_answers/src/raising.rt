//! The replies to what is raised: the exception that it is raised as.

ghost use Rattle.std.specs.Prelude.{◌≡◌, ◌<◌, length, IfOk};
ghost use Rattle.py_answers.specs.Answers.{raised_as, Raises};
ghost use Rattle.py_answers.specs.Readable.{IsReadable};
ghost use Rattle.py_answers.specs.Replying.{reply_of, IsSized, Says};

use crate::reply::Reply;
use py_code::NoMemory;
use py_exceptions::{CtorFault, ExceptionCtor, Instantiate};
use py_objects::{PyObjectRef, Store};
use std::alloc::Global;

/// The reply to the raise of an object (Python Language Reference, 7.8).
pub(crate) fn raisable(alloc: Global, store: &Store, object: PyObjectRef) -> Result<Reply, NoMemory>
    requires readable { IsReadable store.now }
    requires below { object.number < length store.now.made }
    ensures reply { IfOk result (Says (Raises store.now.made object)) }
    ensures sized { IfOk result IsSized }
{
    match ExceptionCtor::try_from_object(alloc, store, object) {
        Ok(ctor) => Ok(raised_as(alloc, ctor)),
        Err(CtorFault::NotException(fault)) => Ok(Reply::Fails(fault.kind, fault.text)),
        Err(CtorFault::NoMemory) => Err(NoMemory),
    }
}

/// The reply to the raise of what may be raised.
fn raised_as(alloc: Global, ctor: ExceptionCtor) -> Reply
    ensures reply { reply_of result ≡ raised_as ctor }
    ensures sized { IsSized result }
{
    match ctor.instantiate(alloc) {
        Instantiate::Done(exception) => Reply::Is(PyObjectRef::from(exception)),
        Instantiate::Make(class, args) => Reply::Makes(class, args),
        Instantiate::Fault(_) | Instantiate::NoMemory => unreachable!(),
    }
}
