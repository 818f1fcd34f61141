//! What requests are answered, one at a time, by the objects of a store.

ghost use Rattle.std.specs.Prelude.{◌≡◌, true, length};
ghost use Rattle.py_objects.specs.Attrs.{value_of};
ghost use Rattle.py_objects.specs.Objects.{Name, declared, request_numbers, AllBelow};
ghost use Rattle.py_objects.specs.Growth.{IsGrown};
ghost use Rattle.py_answers.specs.Readable.{IsReadable};
ghost use Rattle.py_answers.specs.declared.answering.Answered.TheVariants.{Machine};
ghost use Rattle.py_answers.specs.Replying.{is_answered, IsAnsweredBy};

use crate::giving::give;
use crate::reply::reply_to;
use py_code::NoMemory;
use py_objects::{
    AttrMap, ErrorKind, Fault, ObjList, PyBaseExceptionRef, PyObjectRef, Request, Store,
};

/// What a request is answered.
#[derive(Drop)]
pub enum Answered {
    /// This object.
    Done(PyObjectRef),
    /// The raise of a new exception with a text.
    Fault(Fault),
    /// The raise of a new exception with objects as its arguments, which no request so far comes to.
    Raise(ErrorKind, ObjList),
    /// The raise of an exception that was there, which no request so far comes to.
    Passed(PyBaseExceptionRef),
    /// A machine answers it by what it runs.
    Machine,
    /// Memory ran out.
    NoMemory,
}

/// What a request is answered, where `declarations` has the first object that is declared under each name. The objects that it needs are
/// new, except `None`, `True` and `False`.
pub fn answer(store: &mut Store, declarations: &AttrMap, request: &Request) -> Answered
    requires known { is_answered request.now ≡ true }
    requires readable { IsReadable store.old }
    requires declarations { (x : Name) → value_of x declarations.now ≡ declared store.old.made x }
    requires below { AllBelow (length store.old.made) (request_numbers request.now) }
    ensures grows { IsGrown store.old store.new }
    ensures answered { IsAnsweredBy store.old.made store.new.made request.now result }
    ensures untouched { result ≡ Machine → store.new ≡ store.old }
{
    match reply_to(store.allocator(), store, declarations, request) {
        Ok(Some(reply)) => give(store, reply),
        Ok(None) => Answered::Machine,
        Err(NoMemory) => Answered::NoMemory,
    }
}
