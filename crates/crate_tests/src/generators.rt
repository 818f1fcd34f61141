//! Generators that are entered and left, and what they show.

ghost use Rattle.std.specs.Prelude.{◌≡◌, [], ◌∷◌, IfOk, OnOk};
ghost use Rattle.py_objects.specs.declared.payload.Payload.TheVariants.{None as NonePayload};
ghost use Rattle.py_objects.specs.Objects.{AllFit};
ghost use Rattle.crate_tests.specs.Stop.{stop_objects};

use crate::made::{class, exception};
use py_code::{NameId, Names, NoMemory, utf8_of};
use py_coro::{
    Begin, Coro, CoroAnswer, CoroEnd, CoroRefusal, MOST_DEPTH, PyGenerator, converted, ignored,
};
use py_objects::{
    CoroKind, ErrorKind, Fault, FrameRef, ObjList, Payload, PyBaseExceptionRef, PyObjectRef,
    PyTypeRef, Store,
};
use std::alloc::Global;
use std::process::Abort;

const FRAME: FrameRef = FrameRef { number: 3 };

const NAME: NameId = NameId { index: 0 };

/// A store of one object.
fn only_none(alloc: Global) -> Result<Store, NoMemory>
    ensures { IfOk result (λ store. AllFit store.made) }
{
    Store::new(alloc)
}

#[test]
fn what_is_started_yields_a_value(rt: HostRuntime) -> Result<(), NoMemory> {
    let store = only_none(rt.alloc())?;
    let none = store.none();
    let mut coro = Coro::new(FRAME, NAME, CoroKind::Coroutine);
    assert_eq!(rt; coro.send(true, 0), Begin::EnterStart);
    assert_eq!(rt; coro.throw_check(), Err(CoroRefusal::Running));
    let answer = coro.finish(&store, CoroEnd::Yield(none));
    assert_eq!(rt; answer, CoroAnswer::Value(none));
    assert_eq!(rt;
        coro.send(false, MOST_DEPTH),
        Begin::Refused(CoroRefusal::TooDeep)
    );
    Ok(())
}

#[test]
fn what_is_thrown_into_stops_without_a_value(rt: HostRuntime) -> Result<(), NoMemory> {
    let store = only_none(rt.alloc())?;
    let none = store.none();
    let thrown = PyBaseExceptionRef { number: 7 };
    let mut coro = Coro::new(FRAME, NAME, CoroKind::Generator);
    assert_eq!(rt; coro.throw(thrown, 0), Begin::EnterThrow);
    assert!(rt; coro.running());
    let answer = coro.finish(&store, CoroEnd::Return(none));
    assert_eq!(rt; answer, CoroAnswer::Stop(None));
    assert_eq!(rt; coro.throw(thrown, 0), Begin::Raise(thrown));
    Ok(())
}

const STOP: PyBaseExceptionRef = PyBaseExceptionRef { number: 3 };

/// A store whose object 3 is a StopAsyncIteration.
fn store_of_a_stop(alloc: Global) -> Result<Store, NoMemory>
    ensures { IfOk result (λ store. store.made ≡ stop_objects) }
{
    let mut store = Store::new(alloc)?;
    add_stop(alloc, &mut store)?;
    Ok(store)
}

/// Puts it into a store of one object.
fn add_stop(alloc: Global, store: &mut Store) -> Result<(), NoMemory>
    requires { store.old.made ≡ NonePayload ∷ [] }
    ensures { OnOk result (store.new.made ≡ stop_objects) }
{
    let name = b"StopAsyncIteration";
    store.add(class(alloc, name, ObjList::new(alloc))?)?;
    store.add(Payload::Tuple(ObjList::new(alloc)))?;
    let args = PyObjectRef { number: 2 };
    store.add(exception(alloc, PyTypeRef { number: 1 }, args)?)?;
    Ok(())
}

/// What one of this kind answers where that comes out of it.
fn left_by_a_stop(store: &Store, kind: CoroKind) -> CoroAnswer
    requires { store.now.made ≡ stop_objects }
{
    let mut coro = Coro::new(FRAME, NAME, kind);
    coro.send(true, 0);
    coro.finish(store, CoroEnd::Raise(STOP))
}

#[test]
fn an_asynchronous_generator_converts_a_stop_of_its_own(rt: HostRuntime) -> Result<(), NoMemory> {
    let store = store_of_a_stop(rt.alloc())?;
    assert_eq!(rt;
        left_by_a_stop(&store, CoroKind::AsyncGen),
        CoroAnswer::Convert(STOP, ErrorKind::StopAsyncIteration)
    );
    assert_eq!(rt;
        left_by_a_stop(&store, CoroKind::Generator),
        CoroAnswer::Raise(STOP)
    );
    Ok(())
}

#[test]
fn a_fresh_generator_is_closed_at_once(rt: HostRuntime) {
    let mut generator = PyGenerator::new(FRAME, NAME);
    assert_eq!(rt; generator.as_coro().frame(), FRAME);
    assert_eq!(rt; generator.as_coro_mut().close(MOST_DEPTH), Begin::Done);
    assert!(rt; generator.as_coro().closed());
}

/// Gives an asynchronous generator a name, and compares what it shows as object 7.
fn compare_shown(rt: &impl Abort, alloc: Global, names: &mut Names) -> Result<(), NoMemory> {
    let name = names.intern("ticks")?;
    let mut coro = Coro::new(FRAME, NAME, CoroKind::AsyncGen);
    coro.set_name(name);
    assert_eq!(rt; coro.name(), name);
    let text = utf8_of(alloc, &coro.repr(alloc, names, 7)?)?;
    assert_eq!(rt; text.as_str(), "<async generator object ticks at 7>");
    Ok(())
}

#[test]
fn a_generator_shows_its_name_and_number(rt: HostRuntime) -> Result<(), NoMemory> {
    compare_shown(&rt, rt.alloc(), &mut Names::new(rt.alloc()))
}

/// Compares what a fault says, where there was memory to make it, with what it is to say.
fn compare_said(
    rt: &impl Abort,
    alloc: Global,
    fault: Result<Fault, NoMemory>,
    said: &str,
) -> Result<(), NoMemory> {
    let text = utf8_of(alloc, &fault?.text)?;
    assert_eq!(rt; text.as_str(), said);
    Ok(())
}

#[test]
fn refusals_say_what_was_called(rt: HostRuntime) -> Result<(), NoMemory> {
    let alloc = rt.alloc();
    let kind = CoroKind::Generator;
    let first = CoroRefusal::FirstValue.fault(alloc, kind);
    let said = "can't send non-None value to a just-started generator";
    compare_said(&rt, alloc, first, said)?;
    let stop = converted(alloc, kind, ErrorKind::StopIteration);
    compare_said(&rt, alloc, stop, "generator raised StopIteration")?;
    let asynchronous = CoroKind::AsyncGen;
    let stop = converted(alloc, asynchronous, ErrorKind::StopAsyncIteration);
    let said = "async generator raised StopAsyncIteration";
    compare_said(&rt, alloc, stop, said)?;
    let exit = ignored(alloc, kind);
    compare_said(&rt, alloc, exit, "generator ignored GeneratorExit")
}
