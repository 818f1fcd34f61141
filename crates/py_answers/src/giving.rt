//! What gives a reply: an object, or the raise of a new exception.

ghost use Rattle.std.specs.Prelude.{◌≡◌, length, None, false};
ghost use Rattle.py_objects.specs.Objects.{class_object, declares, numbers, payload_numbers, AllBelow, IsClassObject, IsMade};
ghost use Rattle.py_objects.specs.FrameEntries.{is_frame};
ghost use Rattle.py_objects.specs.Growth.{IsGrown};
ghost use Rattle.py_objects.specs.declared.payload.Payload.TheVariants.{Bool};
ghost use Rattle.py_answers.specs.Answers.{Has, Makes};
ghost use Rattle.py_answers.specs.Replying.{reply_of, IsGiven, IsSized, IsThere};

use crate::answering::Answered;
use crate::reply::Reply;
use py_code::NoMemory;
use py_exceptions::make_exception;
use py_objects::{Fault, ObjList, Payload, PyObjectRef, PyTypeRef, Store};

/// What gives a reply. The objects that it needs are new, except `None`, `True` and `False`.
pub(crate) fn give(store: &mut Store, reply: Reply) -> Answered
    requires sized { IsSized reply }
    requires there { IsThere store.old.made (reply_of reply) }
    ensures grows { IsGrown store.old store.new }
    ensures given { IsGiven store.old.made store.new.made (reply_of reply) result }
{
    match reply {
        Reply::None => Answered::Done(store.none()),
        Reply::Bool(flag) => truth(store, flag),
        Reply::Is(object) => Answered::Done(object),
        Reply::Int(number) => added(store, Payload::Int(number)),
        Reply::Str(text) => added(store, Payload::Str(text)),
        Reply::Makes(class, args) => made(store, class, args),
        Reply::Fails(kind, text) => Answered::Fault(Fault { kind, text }),
    }
}

/// `True` or `False`, the store's own where it has one.
fn truth(store: &mut Store, flag: bool) -> Answered
    ensures grows { IsGrown store.old store.new }
    ensures given { IsGiven store.old.made store.new.made (Has (Bool flag)) result }
{
    match store.truth(flag) {
        Some(object) => Answered::Done(object),
        None => added(store, Payload::Bool(flag)),
    }
}

/// A new object of a payload that declares nothing, and is no frame.
fn added(store: &mut Store, payload: Payload) -> Answered
    requires plain { declares payload ≡ None }
    requires no_frame { is_frame payload ≡ false }
    requires below { AllBelow (length store.old.made) (payload_numbers payload) }
    requires made { IsMade store.old.made payload }
    ensures grows { IsGrown store.old store.new }
    ensures given { IsGiven store.old.made store.new.made (Has payload) result }
{
    match store.add(payload) {
        Ok(object) => Answered::Done(object),
        Err(NoMemory) => Answered::NoMemory,
    }
}

/// The exception that a call of a class with these arguments makes.
fn made(store: &mut Store, class: PyTypeRef, args: ObjList) -> Answered
    requires class { IsClassObject store.old.made (class_object class) }
    requires args { AllBelow (length store.old.made) (numbers args) }
    ensures grows { IsGrown store.old store.new }
    ensures given { IsGiven store.old.made store.new.made (Makes class args) result }
{
    match make_exception(store, class, args) {
        Ok(exception) => Answered::Done(PyObjectRef::from(exception)),
        Err(NoMemory) => Answered::NoMemory,
    }
}
