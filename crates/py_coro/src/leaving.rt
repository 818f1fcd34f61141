//! What a call that entered an activation is answered where that was left, and how the activation stands by then.

ghost use Rattle.std.specs.Prelude.{◌≡◌, ◌<◌, false, length};
ghost use Rattle.py_objects.specs.Edits.{objects_of};
ghost use Rattle.py_objects.specs.Objects.{AllFit, as_object, IsException};
ghost use Rattle.py_coro.specs.declared.coro.CoroEnd.TheVariants as left;
ghost use Rattle.py_coro.specs.Leaving.{mode_behind, yielded as yield_answer, raised as raise_answer, stop_of as stop_by, ConvertsAs, Finishes, IsClassOf, IsOfClass, Returns, ReturnsBy, TellsNone};
ghost use Rattle.py_coro.specs.Coros.{AreRead};
ghost use Rattle.py_coro.specs.Stages.{mode_of, closing_of};

use crate::coro::{CoroAnswer, CoroEnd};
use crate::stage::Stage;
use py_objects::{CoroKind, ErrorKind, Payload, PyBaseExceptionRef, PyObjectRef, PyTypeRef, Store};

/// How one stands that was left like this: only a yield leaves it to be entered again, and not under a close.
pub(crate) fn stage_behind(closing: bool, how: CoroEnd) -> Stage
    ensures mode { mode_of result ≡ mode_behind closing how }
    ensures closing { closing_of result ≡ false }
{
    if closing {
        return Stage::Closed;
    }
    match how {
        CoroEnd::Yield(_) => Stage::Suspended,
        CoroEnd::Return(_) => Stage::Closed,
        CoroEnd::Raise(_) => Stage::Closed,
    }
}

/// What the call that entered one of this kind is answered, to be closed or not, where that was left like this.
pub(crate) fn answer_to(store: &Store, kind: CoroKind, closing: bool, how: CoroEnd) -> CoroAnswer
    requires fit { AllFit store.now.made }
    requires read { AreRead store.now.made how }
    ensures { Finishes store.now.made kind closing how result }
{
    match how {
        CoroEnd::Yield(value) => yielded(closing, value),
        CoroEnd::Return(value) => returned(store, closing, value),
        CoroEnd::Raise(exc) => raised(store, kind, closing, exc),
    }
}

/// What a yield is answered by.
fn yielded(closing: bool, value: PyObjectRef) -> CoroAnswer
    ensures { result ≡ yield_answer closing value }
{
    if closing {
        return CoroAnswer::Ignored;
    }
    CoroAnswer::Value(value)
}

/// What a return is answered by.
fn returned(store: &Store, closing: bool, value: PyObjectRef) -> CoroAnswer
    requires { value.number < length store.now.made }
    ensures { Returns store.now.made closing value result }
{
    let is_none = is_none(store, value);
    answer_of_return(closing, value, is_none)
}

/// What a return of a value is answered by that is None or isn't.
fn answer_of_return(closing: bool, value: PyObjectRef, is_none: bool) -> CoroAnswer
    ensures { ReturnsBy closing value is_none result }
{
    if closing {
        return CoroAnswer::Closed;
    }
    if is_none {
        return CoroAnswer::Stop(None);
    }
    CoroAnswer::Stop(Some(value))
}

/// Whether an object is None.
fn is_none(store: &Store, object: PyObjectRef) -> bool
    requires { object.number < length store.now.made }
    ensures { TellsNone store.now.made object result }
{
    matches!(store.get(object), Payload::None)
}

/// What a raise out of one of this kind is answered by.
fn raised(store: &Store, kind: CoroKind, closing: bool, exc: PyBaseExceptionRef) -> CoroAnswer
    requires fit { AllFit store.now.made }
    requires exception { IsException store.now.made (as_object exc) }
    ensures { Finishes store.now.made kind closing (left.Raise exc) result }
{
    let stop = converted_as(store, kind, exc);
    let exits = is_of_class(store, exc, ErrorKind::GeneratorExit);
    answer_of_raise(closing, exc, stop, exits)
}

/// What the raise of an exception is answered by that is converted, or a GeneratorExit, or neither.
fn answer_of_raise(
    closing: bool,
    exc: PyBaseExceptionRef,
    stop: Option<ErrorKind>,
    exits: bool,
) -> CoroAnswer
    ensures { result ≡ raise_answer closing exc stop exits }
{
    if let Some(stop) = stop {
        return CoroAnswer::Convert(exc, stop);
    }
    if closing && exits {
        return CoroAnswer::Closed;
    }
    CoroAnswer::Raise(exc)
}

/// As which stop an exception is converted that comes out of one of this kind, if it is: a StopIteration is (PEP 479), and out of an
/// asynchronous generator a StopAsyncIteration, too (PEP 525).
fn converted_as(store: &Store, kind: CoroKind, exc: PyBaseExceptionRef) -> Option<ErrorKind>
    requires fit { AllFit store.now.made }
    requires exception { IsException store.now.made (as_object exc) }
    ensures { ConvertsAs store.now.made kind exc result }
{
    let stops = is_of_class(store, exc, ErrorKind::StopIteration);
    match kind {
        CoroKind::Generator => stop_of(stops, false),
        CoroKind::Coroutine => stop_of(stops, false),
        CoroKind::AsyncGen => {
            let stops_async = is_of_class(store, exc, ErrorKind::StopAsyncIteration);
            stop_of(stops, stops_async)
        }
    }
}

/// Which stop an exception is, by whether it is a StopIteration and whether it is a StopAsyncIteration; the first goes before.
fn stop_of(stops: bool, stops_async: bool) -> Option<ErrorKind>
    ensures { result ≡ stop_by stops stops_async }
{
    if stops {
        return Some(ErrorKind::StopIteration);
    }
    if stops_async {
        return Some(ErrorKind::StopAsyncIteration);
    }
    None
}

/// Whether an exception is of a built-in class.
fn is_of_class(store: &Store, exc: PyBaseExceptionRef, kind: ErrorKind) -> bool
    requires fit { AllFit store.now.made }
    requires exception { IsException store.now.made (as_object exc) }
    ensures { IsOfClass store.now.made exc kind result }
{
    let class = class_of(store, exc);
    store.derives_from(class, kind)
}

/// The class of an exception.
fn class_of(store: &Store, exc: PyBaseExceptionRef) -> PyTypeRef
    requires { IsException (objects_of store.now) (as_object exc) }
    ensures { IsClassOf (objects_of store.now) exc result }
{
    let Some(body) = store.get(PyObjectRef::from(exc)).exception() else {
        unreachable!();
    };
    body.class
}
