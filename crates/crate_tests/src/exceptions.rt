//! The slots of handled exceptions, and calls on an exception that is made by hand.

ghost use Rattle.std.specs.Prelude.{◌≡◌, ◌<◌, [], ◌∷◌, IfOk, OnOk};
ghost use Rattle.py_objects.specs.declared.payload.Payload.TheVariants.{None as NonePayload};
ghost use Rattle.crate_tests.specs.Exit.{object, IsExit};

use crate::made::{class, exception};
use py_code::{NoMemory, PyText, push_text, same_text, text_of};
use py_exceptions::{
    BaseException, CtorFault, ExceptionCtor, ExceptionStack, Instantiate, is_gen_exit,
};
use py_objects::{ErrorKind, ObjList, Payload, PyBaseExceptionRef, PyObjectRef, PyTypeRef, Store};
use std::alloc::Global;
use std::process::Abort;

#[test]
fn the_topmost_exception_is_in_the_first_slot_that_has_one(
    rt: HostRuntime,
) -> Result<(), NoMemory> {
    let mut stack = ExceptionStack::new(rt.alloc());
    fill_and_empty(&rt, &mut stack)
}

/// Puts an exception into a slot below another, and takes both slots off, while it compares what is seen.
fn fill_and_empty(rt: &impl Abort, stack: &mut ExceptionStack) -> Result<(), NoMemory> {
    assert_eq!(rt;
        (stack.current_exception(), stack.topmost_exception()),
        (None, None)
    );
    let first = Some(PyBaseExceptionRef { number: 7 });
    stack.set_exception(first);
    stack.push_exception(None)?;
    assert_eq!(rt;
        (stack.current_exception(), stack.topmost_exception()),
        (None, first)
    );
    assert_eq!(rt; stack.pop_exception(), None);
    assert_eq!(rt; stack.take_exception(), first);
    assert_eq!(rt;
        (stack.current_exception(), stack.topmost_exception()),
        (None, None)
    );
    Ok(())
}

const EXIT: PyBaseExceptionRef = PyBaseExceptionRef { number: 7 };

const EXIT_CLASS: PyTypeRef = PyTypeRef { number: 4 };

const BASE_CLASS: PyTypeRef = PyTypeRef { number: 3 };

fn object(number: u64) -> PyObjectRef
    ensures { result ≡ object number }
{
    PyObjectRef { number }
}

/// A list of one object.
fn only(alloc: Global, number: u64) -> Result<ObjList, NoMemory>
    ensures { IfOk result (λ list. list ≡ object number ∷ []) }
{
    let mut list = ObjList::new(alloc);
    list.push(object(number))?;
    Ok(list)
}

/// A store whose object 7 is a GeneratorExit with object 5 for its argument. Object 8 is a class that derives from nothing.
fn store_of_exit(alloc: Global) -> Result<Store, NoMemory>
    ensures { IfOk result IsExit }
{
    let mut store = Store::new(alloc)?;
    add_exit(alloc, &mut store)?;
    Ok(store)
}

/// Puts these into a store of one object.
fn add_exit(alloc: Global, store: &mut Store) -> Result<(), NoMemory>
    requires made { store.old.made ≡ NonePayload ∷ [] }
    requires changes { store.old.changes ≡ [] }
    ensures { OnOk result (IsExit store.new) }
{
    store.add(Payload::Bool(false))?;
    store.add(Payload::Bool(true))?;
    store.add(class(alloc, b"BaseException", ObjList::new(alloc))?)?;
    store.add(class(alloc, b"GeneratorExit", only(alloc, 3)?)?)?;
    store.add(Payload::Int(3))?;
    store.add(Payload::Tuple(only(alloc, 5)?))?;
    store.add(exception(alloc, EXIT_CLASS, object(6))?)?;
    store.add(class(alloc, b"spam", ObjList::new(alloc))?)?;
    Ok(())
}

/// Whether the exception is a GeneratorExit, and whether its class and the class below are of this kind.
fn kinds(store: &Store, kind: ErrorKind) -> (bool, bool, bool)
    requires { IsExit store.now }
{
    (
        is_gen_exit(store, EXIT),
        store.derives_from(EXIT_CLASS, kind),
        store.derives_from(BASE_CLASS, kind),
    )
}

/// The exception's arguments, and the first two of them.
fn arguments(store: &Store) -> (PyObjectRef, Option<PyObjectRef>, Option<PyObjectRef>)
    requires { IsExit store.now }
{
    (
        EXIT.args(store),
        EXIT.get_arg(store, 0),
        EXIT.get_arg(store, 1),
    )
}

#[test]
fn an_exit_is_of_its_kind_and_of_that_which_it_derives_from(
    rt: HostRuntime,
) -> Result<(), NoMemory> {
    let store = store_of_exit(rt.alloc())?;
    assert_eq!(rt;
        kinds(&store, ErrorKind::GeneratorExit),
        (true, true, false)
    );
    assert_eq!(rt; kinds(&store, ErrorKind::BaseException), (true, true, true));
    assert_eq!(rt; kinds(&store, ErrorKind::Exception), (true, false, false));
    assert_eq!(rt; arguments(&store), (object(6), Some(object(5)), None));
    Ok(())
}

/// What an object of the store is taken for.
fn taken(alloc: Global, store: &Store, number: u64) -> Result<ExceptionCtor, CtorFault>
    requires store { IsExit store.now }
    requires number { number < 9 }
{
    ExceptionCtor::try_from_object(alloc, store, object(number))
}

/// The text of the refusal of an object whose type has this name.
fn refusal(alloc: Global, type_name: &[u8]) -> Result<PyText, NoMemory> {
    let mut text = text_of(
        alloc,
        b"exceptions must be classes or instances deriving from BaseException, not ",
    )?;
    push_text(&mut text, &text_of(alloc, type_name)?)?;
    Ok(text)
}

/// Whether this is a refusal with a text.
fn is_refusal(taken: &Result<ExceptionCtor, CtorFault>, text: &PyText) -> bool {
    match taken {
        Err(CtorFault::NotException(fault)) => same_text(&fault.text, text),
        _ => false,
    }
}

/// Whether an object of the store is refused as one whose type has this name.
fn is_refused(alloc: Global, store: &Store, number: u64, type_name: &[u8]) -> Result<bool, NoMemory>
    requires store { IsExit store.now }
    requires number { number < 9 }
{
    let text = refusal(alloc, type_name)?;
    Ok(is_refusal(&taken(alloc, store, number), &text))
}

/// What an object of the store is taken for, where it isn't refused.
fn accepted(alloc: Global, store: &Store, number: u64) -> Option<ExceptionCtor>
    requires store { IsExit store.now }
    requires number { number < 9 }
{
    taken(alloc, store, number).ok()
}

/// Compares what objects of the store are taken for.
fn compare_taken(rt: &impl Abort, alloc: Global, store: &Store) -> Result<(), NoMemory>
    requires { IsExit store.now }
{
    let class = ExceptionCtor::Class(EXIT_CLASS);
    assert_eq!(rt; accepted(alloc, store, 4), Some(class));
    let instance = ExceptionCtor::Instance(EXIT);
    assert_eq!(rt; accepted(alloc, store, 7), Some(instance));
    assert!(rt; is_refused(alloc, store, 5, b"int")?);
    assert!(rt; is_refused(alloc, store, 8, b"type")?);
    Ok(())
}

/// What is seen of it with an object of the store.
fn with(alloc: Global, store: &Store, ctor: ExceptionCtor, number: u64) -> Seen
    requires store { IsExit store.now }
    requires number { number < 9 }
{
    seen_of(&ctor.instantiate_value(alloc, store, object(number)))
}

/// What is seen of an outcome: of a call the class, how many arguments it has, and the first.
#[derive(Clone, Copy, Debug, PartialEq, Eq)]
enum Seen {
    Done(PyBaseExceptionRef),
    Make(PyTypeRef, usize, Option<PyObjectRef>),
    Fault,
    NoMemory,
}

fn seen_of(outcome: &Instantiate) -> Seen {
    match outcome {
        Instantiate::Done(exception) => Seen::Done(*exception),
        Instantiate::Make(class, args) => Seen::Make(*class, args.len(), args.get(0).copied()),
        Instantiate::Fault(_) => Seen::Fault,
        Instantiate::NoMemory => Seen::NoMemory,
    }
}

#[test]
fn a_class_of_exceptions_or_an_exception_may_be_raised(rt: HostRuntime) -> Result<(), NoMemory> {
    let store = store_of_exit(rt.alloc())?;
    compare_taken(&rt, rt.alloc(), &store)
}

#[test]
fn a_class_takes_a_value_for_its_arguments(rt: HostRuntime) -> Result<(), NoMemory> {
    let alloc = rt.alloc();
    let store = store_of_exit(alloc)?;
    let class = ExceptionCtor::Class(EXIT_CLASS);
    let none = Seen::Make(EXIT_CLASS, 0, None);
    let number = Seen::Make(EXIT_CLASS, 1, Some(object(5)));
    assert_eq!(rt; seen_of(&class.instantiate(alloc)), none);
    for (value, want) in [(0, none), (5, number), (6, number), (7, Seen::Done(EXIT))] {
        assert_eq!(rt; with(alloc, &store, class, value), want);
    }
    let instance = ExceptionCtor::Instance(EXIT);
    assert_eq!(rt; with(alloc, &store, instance, 0), Seen::Done(EXIT));
    assert_eq!(rt; with(alloc, &store, instance, 7), Seen::Fault);
    Ok(())
}
