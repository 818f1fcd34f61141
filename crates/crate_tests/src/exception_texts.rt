//! What exceptions that are made by hand say, and what represents them.

ghost use Rattle.std.specs.Prelude.{◌≡◌, [], ◌∷◌, IfOk, OnOk};
ghost use Rattle.py_objects.specs.declared.payload.Payload.TheVariants.{Exception, None as NonePayload};
ghost use Rattle.crate_tests.specs.Exit.{object};
ghost use Rattle.crate_tests.specs.Said.{os_body, three_classes, three_said, two_said};

use crate::made::{class, exception};
use py_code::{NoMemory, same_text, text_of};
use py_exceptions::BaseException;
use py_objects::{
    AttrMap, Boxed, ExceptionBody, ObjList, Payload, PyBaseExceptionRef, PyObjectRef, PyTypeRef,
    Store,
};
use std::alloc::Global;
use std::process::Abort;

const VALUE_ERROR: PyTypeRef = PyTypeRef { number: 1 };

const KEY_ERROR: PyTypeRef = PyTypeRef { number: 2 };

const OS_ERROR: PyTypeRef = PyTypeRef { number: 3 };

fn object(number: u64) -> PyObjectRef
    ensures { result ≡ object number }
{
    PyObjectRef { number }
}

/// A list of one object.
fn only(alloc: Global, number: u64) -> Result<ObjList, NoMemory>
    ensures { IfOk result (λ list. list ≡ object number ∷ []) }
{
    let mut list = ObjList::new(alloc);
    list.push(object(number))?;
    Ok(list)
}

/// A list of the objects 10 and 11.
fn two(alloc: Global) -> Result<ObjList, NoMemory>
    ensures { IfOk result (λ list. list ≡ object 10 ∷ object 11 ∷ []) }
{
    let mut list = only(alloc, 10)?;
    list.push(object(11))?;
    Ok(list)
}

/// What a call of `OSError` keeps of three arguments: two, and the third one for its file.
fn os_error(alloc: Global) -> Result<Payload, NoMemory>
    ensures { IfOk result (λ made. made ≡ Exception os_body) }
{
    let mut attrs = AttrMap::new(alloc);
    attrs.insert(text_of(alloc, b"filename")?, object(12))?;
    let body = ExceptionBody {
        class: OS_ERROR,
        args: object(13),
        cause: None,
        context: None,
        suppress: false,
        traceback: None,
        attrs,
    };
    Ok(Payload::Exception(Boxed::new(alloc, body)?))
}

/// Puts the classes into a store of one object.
fn add_classes(alloc: Global, store: &mut Store) -> Result<(), NoMemory>
    requires { store.old.made ≡ NonePayload ∷ [] }
    ensures { OnOk result (store.new.made ≡ three_classes) }
{
    store.add(class(alloc, b"ValueError", ObjList::new(alloc))?)?;
    store.add(class(alloc, b"KeyError", ObjList::new(alloc))?)?;
    store.add(class(alloc, b"OSError", ObjList::new(alloc))?)?;
    Ok(())
}

/// Adds `ValueError('a')` and `KeyError('k')`.
fn add_two(alloc: Global, store: &mut Store) -> Result<(), NoMemory>
    requires { store.old.made ≡ three_classes }
    ensures { OnOk result (store.new.made ≡ two_said) }
{
    store.add(Payload::Str(text_of(alloc, b"a")?))?;
    store.add(Payload::Tuple(only(alloc, 4)?))?;
    store.add(exception(alloc, VALUE_ERROR, object(5))?)?;
    store.add(Payload::Str(text_of(alloc, b"k")?))?;
    store.add(Payload::Tuple(only(alloc, 7)?))?;
    store.add(exception(alloc, KEY_ERROR, object(8))?)?;
    Ok(())
}

/// Adds `OSError(1, 2, 3)`.
fn add_numbers(alloc: Global, store: &mut Store) -> Result<(), NoMemory>
    requires { store.old.made ≡ two_said }
    ensures { OnOk result (store.new.made ≡ three_said) }
{
    store.add(Payload::Int(1))?;
    store.add(Payload::Int(2))?;
    store.add(Payload::Int(3))?;
    store.add(Payload::Tuple(two(alloc)?))?;
    store.add(os_error(alloc)?)?;
    Ok(())
}

/// Adds `KeyError(ValueError('a'))` as object 16, and `ValueError(KeyError('k'))` as object 18.
fn add_nested(alloc: Global, store: &mut Store) -> Result<(), NoMemory>
    requires { store.old.made ≡ three_said }
{
    store.add(Payload::Tuple(only(alloc, 6)?))?;
    store.add(exception(alloc, KEY_ERROR, object(15))?)?;
    store.add(Payload::Tuple(only(alloc, 9)?))?;
    store.add(exception(alloc, VALUE_ERROR, object(17))?)?;
    Ok(())
}

fn filled(alloc: Global) -> Result<Store, NoMemory> {
    let mut store = Store::new(alloc)?;
    add_classes(alloc, &mut store)?;
    add_two(alloc, &mut store)?;
    add_numbers(alloc, &mut store)?;
    add_nested(alloc, &mut store)?;
    Ok(store)
}

/// Whether an exception of the store says this, and is represented by that.
fn says(
    alloc: Global,
    store: &Store,
    number: u64,
    texts: (&[u8], &[u8]),
) -> Result<(bool, bool), NoMemory> {
    let exception = PyBaseExceptionRef { number };
    let (said, shown) = texts;
    Ok((
        same_text(&exception.str(alloc, store)?, &text_of(alloc, said)?),
        same_text(&exception.repr(alloc, store)?, &text_of(alloc, shown)?),
    ))
}

/// Compares what the exceptions say.
fn compare(rt: &impl Abort, alloc: Global, store: &Store) -> Result<(), NoMemory> {
    let yes = (true, true);
    assert_eq!(rt; says(alloc, store, 6, (b"a", b"ValueError('a')"))?, yes);
    assert_eq!(rt; says(alloc, store, 9, (b"'k'", b"KeyError('k')"))?, yes);
    assert_eq!(rt;
        says(alloc, store, 14, (b"[Errno 1] 2: 3", b"OSError(1, 2)"))?,
        yes
    );
    let key: (&[u8], &[u8]) = (b"ValueError('a')", b"KeyError(ValueError('a'))");
    assert_eq!(rt; says(alloc, store, 16, key)?, yes);
    let value: (&[u8], &[u8]) = (b"'k'", b"ValueError(KeyError('k'))");
    assert_eq!(rt; says(alloc, store, 18, value)?, yes);
    Ok(())
}

#[test]
fn exceptions_say_their_arguments_by_their_class(rt: HostRuntime) -> Result<(), NoMemory> {
    let alloc = rt.alloc();
    let store = filled(alloc)?;
    compare(&rt, alloc, &store)
}
