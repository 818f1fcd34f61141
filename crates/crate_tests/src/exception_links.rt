//! Links of exceptions and of the entries of tracebacks, in a store that is worked by hand.

ghost use Rattle.std.specs.Prelude.{◌≡◌, ◌≤◌, IfOk, OnErr, OnOk};
ghost use Rattle.py_objects.specs.declared.payload.Payload.TheVariants.{Exception, Traceback as TracebackPayload};
ghost use Rattle.crate_tests.specs.Linked.{bare_body, entry_body, AreLinked, IsFresh, IsNew, IsOneOfThree, IsOneOfTwo};

use crate::made::{class, exception};
use py_code::{NoMemory, PyText, same_text, text_of};
use py_exceptions::{
    BaseException, ExceptionStack, ExceptionZoo, LinkLoop, Traceback, contextualize_exception,
    cstring_error, push_whole_repr,
};
use py_objects::{
    AttrMap, FrameRef, ObjList, Payload, PyBaseExceptionRef, PyObjectRef, PyTracebackRef,
    PyTypeRef, Store, TracebackBody,
};
use std::alloc::Global;
use std::process::Abort;

const FIRST: PyBaseExceptionRef = PyBaseExceptionRef { number: 3 };

const SECOND: PyBaseExceptionRef = PyBaseExceptionRef { number: 4 };

const THIRD: PyBaseExceptionRef = PyBaseExceptionRef { number: 5 };

const FRAME: FrameRef = FrameRef { number: 6 };

const LAST_ENTRY: PyTracebackRef = PyTracebackRef { number: 7 };

const FIRST_ENTRY: PyTracebackRef = PyTracebackRef { number: 8 };

const ARGS: PyObjectRef = PyObjectRef { number: 9 };

/// An exception without links.
fn bare(alloc: Global) -> Result<Payload, NoMemory>
    ensures { IfOk result (λ made. made ≡ Exception bare_body) }
{
    exception(alloc, PyTypeRef { number: 1 }, PyObjectRef { number: 2 })
}

/// An entry of a traceback in the frame.
fn entry(next: Option<PyObjectRef>, lasti: u32, lineno: u32) -> Payload
    ensures { result ≡ TracebackPayload (entry_body next lasti lineno) }
{
    Payload::Traceback(TracebackBody {
        next,
        frame: FRAME,
        lasti,
        lineno,
    })
}

/// Puts the objects into a store of one.
fn add_objects(alloc: Global, store: &mut Store) -> Result<(), NoMemory>
    requires { IsNew store.old }
    ensures { OnOk result (IsFresh store.new) }
{
    store.add(class(alloc, b"BaseException", ObjList::new(alloc))?)?;
    store.add(Payload::Tuple(ObjList::new(alloc)))?;
    store.add(bare(alloc)?)?;
    store.add(bare(alloc)?)?;
    store.add(bare(alloc)?)?;
    store.add(Payload::Frame(0))?;
    store.add(entry(None, 3, 5))?;
    store.add(entry(Some(PyObjectRef { number: 7 }), 4, 8))?;
    let mut items = ObjList::new(alloc);
    items.push(PyObjectRef { number: 0 })?;
    store.add(Payload::Tuple(items))?;
    Ok(())
}

/// A store of the objects, with places for changes.
fn fresh_store(alloc: Global) -> Result<Store, NoMemory>
    ensures fresh { IfOk result IsFresh }
    ensures spare { IfOk result (λ store. 8 ≤ store.spare) }
{
    let mut store = Store::new(alloc)?;
    add_objects(alloc, &mut store)?;
    store.reserve_changes(8)?;
    Ok(store)
}

/// Gives the first exception the second one for its cause, the third one for its context, and more.
fn give(store: &mut Store)
    requires made { AreLinked store.old }
    requires spare { 8 ≤ store.old.spare }
    ensures { AreLinked store.new }
{
    FIRST.set_cause(store, Some(SECOND));
    FIRST.set_context(store, Some(THIRD));
    FIRST.set_args(store, ARGS);
    FIRST.with_traceback(store, Some(LAST_ENTRY));
    FIRST.set_suppress_context(store, false);
}

/// What the first exception has: its cause, whether its context is suppressed, and its traceback.
fn given(store: &Store) -> (Option<PyBaseExceptionRef>, bool, Option<PyTracebackRef>)
    requires { AreLinked store.now }
{
    (
        FIRST.cause(store),
        FIRST.get_suppress_context(store),
        FIRST.traceback(store),
    )
}

/// The contexts of the three.
fn contexts(
    store: &Store,
) -> (
    Option<PyBaseExceptionRef>,
    Option<PyBaseExceptionRef>,
    Option<PyBaseExceptionRef>,
)
    requires { AreLinked store.now }
{
    (
        FIRST.context(store),
        SECOND.context(store),
        THIRD.context(store),
    )
}

#[test]
fn an_exception_has_what_it_was_given(rt: HostRuntime) -> Result<(), NoMemory> {
    let mut store = fresh_store(rt.alloc())?;
    give(&mut store);
    assert_eq!(rt; given(&store), (Some(SECOND), false, Some(LAST_ENTRY)));
    assert_eq!(rt; contexts(&store), (Some(THIRD), None, None));
    Ok(())
}

/// Makes two exceptions the contexts of the first and of the second one.
fn set_contexts(store: &mut Store, first: PyBaseExceptionRef, second: PyBaseExceptionRef)
    requires made { AreLinked store.old }
    requires spare { 8 ≤ store.old.spare }
    requires first { IsOneOfThree first }
    requires second { IsOneOfThree second }
    ensures made { AreLinked store.new }
    ensures spare { 6 ≤ store.new.spare }
{
    FIRST.set_context(store, Some(first));
    SECOND.set_context(store, Some(second));
}

/// The third exception comes while the first one is handled.
fn come(alloc: Global, store: &mut Store)
    requires made { AreLinked store.old }
    requires spare { 6 ≤ store.old.spare }
    ensures { AreLinked store.new }
{
    let mut stack = ExceptionStack::new(alloc);
    stack.set_exception(Some(FIRST));
    contextualize_exception(store, &stack, THIRD);
}

#[test]
fn contexts_that_lead_round_are_left(rt: HostRuntime) -> Result<(), NoMemory> {
    let mut store = fresh_store(rt.alloc())?;
    set_contexts(&mut store, SECOND, FIRST);
    come(rt.alloc(), &mut store);
    assert_eq!(rt; contexts(&store), (Some(SECOND), Some(FIRST), Some(FIRST)));
    Ok(())
}

#[test]
fn a_context_that_leads_to_the_exception_is_cut(rt: HostRuntime) -> Result<(), NoMemory> {
    let mut store = fresh_store(rt.alloc())?;
    set_contexts(&mut store, SECOND, THIRD);
    come(rt.alloc(), &mut store);
    assert_eq!(rt; contexts(&store), (Some(SECOND), None, Some(FIRST)));
    Ok(())
}

/// What stands in the first entry.
fn entry_read(store: &Store) -> (FrameRef, u32, u32)
    requires { AreLinked store.now }
{
    (
        FIRST_ENTRY.tb_frame(store),
        FIRST_ENTRY.tb_lasti(store),
        FIRST_ENTRY.tb_lineno(store),
    )
}

/// What the entries lead on to.
fn nexts(store: &Store) -> (Option<PyTracebackRef>, Option<PyTracebackRef>)
    requires { AreLinked store.now }
{
    (FIRST_ENTRY.tb_next(store), LAST_ENTRY.tb_next(store))
}

/// Makes the last entry lead on to another.
fn lead_on(store: &mut Store, value: PyTracebackRef) -> Result<(), LinkLoop>
    requires made { AreLinked store.old }
    requires spare { 8 ≤ store.old.spare }
    requires value { IsOneOfTwo value }
    ensures { OnErr result (store.new ≡ store.old) }
{
    LAST_ENTRY.set_tb_next(store, Some(value))
}

#[test]
fn an_entry_leads_on_and_never_back(rt: HostRuntime) -> Result<(), NoMemory> {
    let mut store = fresh_store(rt.alloc())?;
    assert_eq!(rt; entry_read(&store), (FRAME, 4, 8));
    let mut entries = FIRST_ENTRY.iter(&store);
    assert_eq!(rt;
        (entries.next(), entries.next()),
        (Some(FIRST_ENTRY), Some(LAST_ENTRY))
    );
    assert_eq!(rt; entries.next(), None);
    refuse(&rt, &mut store);
    Ok(())
}

/// Compares what is answered where an entry would lead back to itself.
fn refuse(rt: &impl Abort, store: &mut Store)
    requires made { AreLinked store.old }
    requires spare { 8 ≤ store.old.spare }
{
    assert_eq!(rt; lead_on(store, LAST_ENTRY), Err(LinkLoop));
}

/// Whether a text is the one that is wanted.
fn is_text(alloc: Global, text: &PyText, want: &[u8]) -> Result<bool, NoMemory> {
    Ok(same_text(text, &text_of(alloc, want)?))
}

/// What the error for a null character says.
fn null_text(alloc: Global) -> Result<PyText, NoMemory> {
    let mut store = Store::new(alloc)?;
    let mut names = AttrMap::new(alloc);
    let zoo = ExceptionZoo::extend(&mut store, &mut names)?;
    cstring_error(&mut store, &zoo)?.str(alloc, &store)
}

#[test]
fn a_null_character_has_its_text(rt: HostRuntime) -> Result<(), NoMemory> {
    let text = null_text(rt.alloc())?;
    assert!(rt; is_text(rt.alloc(), &text, b"embedded null character")?);
    Ok(())
}

/// What represents the reduction of the first exception.
fn reduction(alloc: Global, store: &mut Store) -> Result<String, NoMemory>
    requires { IsFresh store.old }
{
    let reduced = FIRST.reduce(store)?;
    let mut text = String::new(alloc);
    push_whole_repr(&mut text, store.objects(), reduced)?;
    Ok(text)
}

#[test]
fn an_exception_is_reduced_to_its_class_and_its_arguments(rt: HostRuntime) -> Result<(), NoMemory> {
    let mut store = fresh_store(rt.alloc())?;
    assert!(rt; FIRST.is_reducible(&store)?);
    let text = reduction(rt.alloc(), &mut store)?;
    assert_eq!(rt; text.as_str(), "(<class 'BaseException'>, ())");
    Ok(())
}
