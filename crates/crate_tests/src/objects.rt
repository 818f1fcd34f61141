//! Small stores worked by hand, and what changes make of their objects, which no script makes so far.

ghost use Rattle.std.specs.Prelude.{◌≡◌, OnOk};
ghost use Rattle.py_objects.specs.Objects.{AllBelow};
ghost use Rattle.py_objects.specs.Edits.{edit_numbers, FitsException, IsInPlace};

use crate::made::{class, exception};
use py_code::{NoMemory, PyText, text_of};
use py_objects::{
    AttrMap, Edit, History, LinkField, ObjList, PairList, Payload, PyObjectRef, PyTypeRef, Scope,
    Store,
};
use std::alloc::Global;
use std::process::Abort;

fn object(number: u64) -> PyObjectRef
    ensures { result.number ≡ number }
{
    PyObjectRef { number }
}

/// Gives two names values, one of them twice, and takes off the other.
fn give_and_remove(rt: &impl Abort, alloc: Global, attrs: &mut AttrMap) -> Result<(), NoMemory> {
    for (name, value) in [(b"value", 7), (b"errno", 2), (b"value", 9)] {
        attrs.insert(text_of(alloc, name)?, object(value))?;
    }
    assert_eq!(rt; (attrs.len(), attrs.is_empty()), (2, false));
    attrs.remove(&text_of(alloc, b"errno")?);
    assert_eq!(rt; value_of(alloc, attrs, b"value")?, Some(object(9)));
    assert_eq!(rt; value_of(alloc, attrs, b"errno")?, None);
    Ok(())
}

/// The value of a name.
fn value_of(alloc: Global, attrs: &AttrMap, name: &[u8]) -> Result<Option<PyObjectRef>, NoMemory> {
    Ok(attrs.get(&text_of(alloc, name)?))
}

#[test]
fn a_name_has_the_value_that_it_was_given_last(rt: HostRuntime) -> Result<(), NoMemory> {
    let mut attrs = AttrMap::new(rt.alloc());
    give_and_remove(&rt, rt.alloc(), &mut attrs)
}

#[test]
fn a_scope_without_locals_has_the_globals_twice(rt: HostRuntime) {
    let scope = Scope::new(None, object(3));
    assert_eq!(rt; (scope.locals, scope.globals), (object(3), object(3)));
    let scope = Scope::new(Some(object(4)), object(3));
    assert_eq!(rt; (scope.locals, scope.globals), (object(4), object(3)));
}

/// Sets a key of a dict, or deletes it where there is no value.
fn edit_key(
    rt: &impl Abort,
    store: &mut Store,
    dict: PyObjectRef,
    key: PyObjectRef,
    value: Option<PyObjectRef>,
) -> Result<(), NoMemory> {
    let len = store.len();
    assert!(rt; dict.number < len);
    assert!(rt; key.number < len);
    assert!(rt; matches!(store.get(dict), Payload::Dict(_)));
    match value {
        Some(value) => {
            assert!(rt; value.number < len);
            store.grow(dict, Edit::Put(key, value))
        }
        None => store.grow(dict, Edit::Drop(key)),
    }
}

/// Whether a payload is a dict of these pairs.
fn is_dict_of(payload: &Payload, pairs: &[(PyObjectRef, PyObjectRef)]) -> bool {
    match payload {
        Payload::Dict(entries) => entries.as_slice() == pairs,
        _ => false,
    }
}

/// Makes object 6 a dict, and edits its keys, some of which are of one value.
fn edit_keys(rt: &impl Abort, alloc: Global, store: &mut Store) -> Result<(), NoMemory> {
    let yes = store.add(Payload::Bool(true))?;
    let one = store.add(Payload::Int(1))?;
    let two = store.add(Payload::Int(2))?;
    let spam = store.add(Payload::Str(text_of(alloc, b"spam")?))?;
    let same = store.add(Payload::Str(text_of(alloc, b"spam")?))?;
    let dict = store.add(Payload::Dict(PairList::new(alloc)))?;
    let edits = [
        (yes, Some(two)),
        (spam, Some(one)),
        // The key that came first stays, with the value that came last.
        (one, Some(spam)),
        (two, Some(two)),
        (same, None),
        (same, None),
    ];
    for (key, value) in edits {
        edit_key(rt, store, dict, key, value)?;
    }
    assert!(rt; dict.number < store.len());
    assert!(rt; is_dict_of(store.get(dict), &[(yes, spam), (two, two)]));
    Ok(())
}

#[test]
fn keys_of_one_value_are_one_key(rt: HostRuntime) -> Result<(), NoMemory> {
    let mut store = Store::new(rt.alloc())?;
    edit_keys(&rt, rt.alloc(), &mut store)?;
    let history = store.into_history();
    let made = history.objects.get(6);
    assert!(rt; made.is_some_and(|payload| is_dict_of(payload, &[])));
    assert_eq!(rt; history.changes.len(), 6);
    Ok(())
}

/// Makes an edit of the exception 3.
fn edit_exception(rt: &impl Abort, store: &mut Store, edit: Edit) -> Result<(), NoMemory>
    requires fits { FitsException edit }
    requires named { AllBelow 4 (edit_numbers edit) }
    ensures { store.new.mark ≡ store.old.mark }
{
    assert!(rt; 4 <= store.len());
    assert!(rt; matches!(store.get(object(3)), Payload::Exception(_)));
    store.grow(object(3), edit)
}

/// The same of an edit that takes no memory.
fn change_exception(rt: &impl Abort, store: &mut Store, edit: Edit)
    requires fits { FitsException edit }
    requires in_place { IsInPlace edit }
    requires named { AllBelow 4 (edit_numbers edit) }
    ensures { store.new.mark ≡ store.old.mark }
{
    assert!(rt; 4 <= store.len());
    assert!(rt; 0 < store.spare());
    assert!(rt; matches!(store.get(object(3)), Payload::Exception(_)));
    store.change(object(3), edit);
}

/// Makes object 3 an exception, in a store of one object.
fn add_exception(rt: &impl Abort, alloc: Global, store: &mut Store) -> Result<(), NoMemory>
    requires { store.old.mark ≡ 0 }
    ensures { OnOk result (store.new.mark ≡ 0) }
{
    let kind = store.add(class(alloc, b"ValueError", ObjList::new(alloc))?)?;
    let args = store.add(Payload::Tuple(ObjList::new(alloc)))?;
    assert_eq!(rt; (kind, args), (object(1), object(2)));
    assert!(rt; 3 <= store.len());
    let made = store.add(exception(alloc, PyTypeRef { number: 1 }, object(2))?)?;
    assert_eq!(rt; made, object(3));
    Ok(())
}

/// Makes five edits of the exception 3, also of its attribute of this name, marked with two events.
fn edit_five_times(
    rt: &impl Abort,
    alloc: Global,
    store: &mut Store,
    name: &PyText,
) -> Result<(), NoMemory>
    requires { store.old.mark ≡ 0 }
{
    store.reserve_changes(5)?;
    change_exception(rt, store, Edit::Flag(true));
    store.mark(2);
    let cause = Edit::Link(LinkField::Cause, Some(object(0)));
    change_exception(rt, store, cause);
    change_exception(rt, store, Edit::Args(object(1)));
    store.mark(5);
    let attr = Edit::Attr(name.copy(alloc)?, Some(object(2)));
    edit_exception(rt, store, attr)?;
    let context = Edit::Link(LinkField::Context, Some(object(3)));
    change_exception(rt, store, context);
    Ok(())
}

/// Makes an exception in a store of one object, and edits it.
fn add_and_edit(
    rt: &impl Abort,
    alloc: Global,
    store: &mut Store,
    name: &PyText,
) -> Result<(), NoMemory>
    requires { store.old.mark ≡ 0 }
{
    add_exception(rt, alloc, store)?;
    edit_five_times(rt, alloc, store, name)
}

/// A store whose exception was edited, also its attribute of this name.
fn edited_store(rt: &impl Abort, alloc: Global, name: &PyText) -> Result<Store, NoMemory> {
    let mut store = Store::new(alloc)?;
    add_and_edit(rt, alloc, &mut store, name)?;
    Ok(store)
}

/// What is seen of an exception, with its attribute of one name.
#[derive(Clone, Copy, Debug, PartialEq, Eq)]
struct Seen {
    args: PyObjectRef,
    cause: Option<PyObjectRef>,
    context: Option<PyObjectRef>,
    suppress: bool,
    has_traceback: bool,
    attr: Option<PyObjectRef>,
    attrs: usize,
}

fn seen_of(payload: &Payload, name: &PyText) -> Option<Seen> {
    match payload {
        Payload::Exception(exception) => {
            let body = exception.value();
            Some(Seen {
                args: body.args,
                cause: body.cause,
                context: body.context,
                suppress: body.suppress,
                has_traceback: body.traceback.is_some(),
                attr: body.attrs.get(name),
                attrs: body.attrs.len(),
            })
        }
        _ => None,
    }
}

/// What an exception is and was made as, and its changes: the object and the mark of each of the first six, and whether the third
/// one sets the arguments to object 1.
#[derive(Clone, Copy, Debug, PartialEq, Eq)]
struct Kept {
    now: Option<Seen>,
    made: Option<Seen>,
    changes: [Option<(PyObjectRef, u64)>; 6],
    third_sets_args: bool,
}

/// What is kept of the exception of a store.
fn kept_of(rt: &impl Abort, store: Store, name: &PyText) -> Kept {
    assert!(rt; 3 < store.len());
    let now = seen_of(store.get(object(3)), name);
    kept_in(&store.into_history(), now, name)
}

/// What is kept in a history of the exception that is this now.
fn kept_in(history: &History, now: Option<Seen>, name: &PyText) -> Kept {
    let changes = &history.changes;
    let made = history.objects.get(3);
    let change_at = |at: usize| changes.get(at).map(|change| (change.object, change.after));
    Kept {
        now,
        made: made.and_then(|payload| seen_of(payload, name)),
        changes: [0, 1, 2, 3, 4, 5].map(change_at),
        third_sets_args: changes.get(2).is_some_and(|change| sets_args(&change.edit)),
    }
}

/// Whether an edit sets the arguments to object 1.
fn sets_args(edit: &Edit) -> bool {
    match edit {
        Edit::Args(args) => *args == object(1),
        _ => false,
    }
}

#[test]
fn an_exception_is_kept_as_it_was_made(rt: HostRuntime) -> Result<(), NoMemory> {
    let name = text_of(rt.alloc(), b"value")?;
    let store = edited_store(&rt, rt.alloc(), &name)?;
    let kept = kept_of(&rt, store, &name);
    let edited = Seen {
        args: object(1),
        cause: Some(object(0)),
        context: Some(object(3)),
        suppress: true,
        has_traceback: false,
        attr: Some(object(2)),
        attrs: 1,
    };
    assert_eq!(rt; kept.now, Some(edited));
    let first = Seen {
        args: object(2),
        cause: None,
        context: None,
        suppress: false,
        has_traceback: false,
        attr: None,
        attrs: 0,
    };
    assert_eq!(rt; kept.made, Some(first));
    let after = |mark: u64| Some((object(3), mark));
    let want = [after(0), after(2), after(2), after(5), after(5), None];
    assert_eq!(rt; kept.changes, want);
    assert!(rt; kept.third_sets_args);
    Ok(())
}
