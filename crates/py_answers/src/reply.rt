//! Replies to requests, by the payloads of the objects that they name.

ghost use Rattle.std.specs.Prelude.{◌≡◌, true, length, IfOk};
ghost use Rattle.py_objects.specs.Attrs.{value_of};
ghost use Rattle.py_objects.specs.Objects.{Name, declared, request_numbers, AllBelow};
ghost use Rattle.py_answers.specs.Readable.{IsReadable};
ghost use Rattle.py_answers.specs.Replying.{is_answered, IsReplied};

use crate::arithmetic::binary;
use crate::calling::called;
use crate::comparison::{compare, is_true};
use crate::lacking::lacking;
use crate::managers::{entered, exited, told, without_exit};
use crate::matching::matches;
use crate::names::{global, unbound};
use crate::raising::raisable;
use crate::values::entry;
use py_code::{NoMemory, PyText};
use py_objects::{AttrMap, ErrorKind, Keywords, ObjList, PyObjectRef, PyTypeRef, Request, Store};
use std::alloc::Global;

/// What a question is answered: None, a truth value, a number, this object, a text, a new exception of a class with these arguments, or the
/// raise of a new exception of a built-in class with a text.
#[derive(Drop)]
pub(crate) enum Reply {
    None,
    Bool(bool),
    Int(i128),
    Is(PyObjectRef),
    Str(PyText),
    Makes(PyTypeRef, ObjList),
    Fails(ErrorKind, PyText),
}

/// The reply to a request, where `declarations` has the first object that is declared under each name. None where a machine answers it by what
/// it runs.
pub(crate) fn reply_to(
    alloc: Global,
    store: &Store,
    declarations: &AttrMap,
    request: &Request,
) -> Result<Option<Reply>, NoMemory>
    requires known { is_answered request.now ≡ true }
    requires readable { IsReadable store.now }
    requires declarations { (x : Name) → value_of x declarations.now ≡ declared store.now.made x }
    requires below { AllBelow (length store.now.made) (request_numbers request.now) }
    ensures { IfOk result (IsReplied store.now.made request.now) }
{
    match request {
        Request::Binary(op, left, right) => Ok(Some(binary(alloc, store, *op, *left, *right)?)),
        Request::Compare(op, left, right) => Ok(Some(compare(alloc, store, *op, *left, *right)?)),
        Request::Match(exception, class) => Ok(Some(matches(alloc, store, *exception, *class)?)),
        Request::Truth(value) => Ok(Some(Reply::Bool(is_true(entry(store, *value))))),
        Request::Global(_, name) => Ok(Some(global(alloc, declarations, name)?)),
        Request::Show(_) => Ok(Some(Reply::None)),
        Request::Unbound(name) => Ok(Some(unbound(alloc, name)?)),
        Request::Raisable(object) => Ok(Some(raisable(alloc, store, *object)?)),
        Request::Call(callee, args, Keywords::None) => called(alloc, store, *callee, args),
        Request::Send(object, _) => lacking(alloc, store, *object, b"send"),
        Request::Throw(object, _, _, None) => lacking(alloc, store, *object, b"throw"),
        Request::Close(object) => lacking(alloc, store, *object, b"close"),
        Request::Enter(manager) => entered(alloc, store, *manager),
        Request::NoExit(object) => Ok(Some(without_exit(alloc, store, *object)?)),
        Request::Exit(exit, class, exception, traceback) => {
            let told = told(alloc, *class, *exception, *traceback)?;
            exited(alloc, store, *exit, &told)
        }
        Request::Handled => Ok(None),
        _ => unreachable!(),
    }
}
