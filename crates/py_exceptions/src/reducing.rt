//! What an exception can be made again from: its class, its arguments and its attributes.

ghost use Rattle.std.specs.Prelude.{◌≡◌, ◌<◌, ◌+◌, ◌++◌, length, IfOk, OnOk};
ghost use Rattle.py_objects.specs.Objects.{attr_numbers, AllBelow};
ghost use Rattle.py_objects.specs.Edits.{objects_of};
ghost use Rattle.py_objects.specs.Growth.{IsGrown};
ghost use Rattle.py_exceptions.specs.Arguments.{IsTuple};
ghost use Rattle.py_exceptions.specs.Reducing.{args_object, dict_object, file_args as files_after, files_at, keyed_from, tuple_parts, remade_args as args_remade, two_and, with_args, with_dict, with_names, with_parts, AreArgsBelow, IsReduced, IsReducible};

use crate::attributes::attribute;
use crate::making::{os_args, two};
use crate::reading::{exception_body, tuple_items};
use py_code::NoMemory;
use py_objects::{
    AttrMap, ErrorKind, ExceptionBody, ObjList, PairList, Payload, PyBaseExceptionRef, PyObjectRef,
    Store, derives_from,
};
use std::alloc::Global;

/// A new tuple of what an exception can be made again from. What that needs comes after the other objects, also where memory
/// runs out.
pub(crate) fn reduced(store: &mut Store, exc: PyBaseExceptionRef) -> Result<PyObjectRef, NoMemory>
    requires { IsReducible store.old exc }
    ensures grows { IsGrown store.old store.new }
    ensures reduced { IfOk result (IsReduced store.old store.new exc) }
{
    let alloc = store.allocator();
    let body = exception_body(store, exc);
    let class = PyObjectRef::from(body.class);
    let own_args = body.args;
    let attrs = body.attrs.copy()?;
    let remade = remade_args(alloc, store, body)?;
    add_parts(store, class, own_args, remade, &attrs)
}

/// The arguments that stand in place of an exception's own, where others do.
fn remade_args(
    alloc: Global,
    store: &Store,
    body: &ExceptionBody,
) -> Result<Option<ObjList>, NoMemory>
    requires { IsTuple (objects_of store.now) body.now.args }
    ensures { IfOk result (λ args. args ≡ args_remade (objects_of store.now) body.now) }
{
    if !derives_from(store.objects(), body.class, ErrorKind::OSError) {
        return Ok(None);
    }
    let kept = os_args(alloc, tuple_items(store, body.args).copy(alloc)?)?;
    let files = files(alloc, store.objects(), body)?;
    two_and(alloc, kept.as_slice(), files.as_slice())
}

/// The files of an `OSError` that stand among its arguments.
fn files(alloc: Global, objects: &[Payload], body: &ExceptionBody) -> Result<ObjList, NoMemory>
    ensures { IfOk result (λ files. files ≡ files_at objects.now body.now) }
{
    let first = attribute(alloc, objects, body, b"filename")?;
    let second = attribute(alloc, objects, body, b"filename2")?;
    file_args(alloc, first, second)
}

/// The first file, where there is one, and then the second one.
fn file_args(
    alloc: Global,
    first: Option<PyObjectRef>,
    second: Option<PyObjectRef>,
) -> Result<ObjList, NoMemory>
    ensures { IfOk result (λ files. files ≡ files_after first second) }
{
    let mut files = ObjList::new(alloc);
    let Some(first) = first else {
        return Ok(files);
    };
    files.push(first)?;
    let Some(second) = second else {
        return Ok(files);
    };
    files.push(second)?;
    Ok(files)
}

/// Two arguments with the files after them, where they are two.
fn two_and(
    alloc: Global,
    args: &[PyObjectRef],
    files: &[PyObjectRef],
) -> Result<Option<ObjList>, NoMemory>
    ensures { IfOk result (λ list. list ≡ two_and files.now args.now) }
{
    match args {
        [number, message] => {
            let list = two(alloc, *number, *message)?;
            Ok(Some(extended(list, files)?))
        }
        [] | [_] | [_, _, _, ..] => Ok(None),
    }
}

/// A list with more objects after its own.
fn extended(list: ObjList, more: &[PyObjectRef]) -> Result<ObjList, NoMemory>
    ensures { IfOk result (λ longer. longer ≡ list ++ more.now) }
{
    let mut list = list;
    for item in more {
        list.push(*item)?;
    }
    Ok(list)
}

/// Adds a tuple of a class, of arguments that are its own or others, and of attributes, after what that needs.
fn add_parts(
    store: &mut Store,
    class: PyObjectRef,
    own_args: PyObjectRef,
    remade: Option<ObjList>,
    attrs: &AttrMap,
) -> Result<PyObjectRef, NoMemory>
    requires class { class.number < length store.old.made }
    requires own { own_args.number < length store.old.made }
    requires remade { AreArgsBelow (length store.old.made) remade }
    requires attrs { AllBelow (length store.old.made) (attr_numbers attrs.now) }
    ensures grows { IsGrown store.old store.new }
    ensures added { OnOk result (store.new ≡ with_parts store.old class own_args remade attrs.now) }
    ensures last { IfOk result (λ object. object.number + 1 ≡ length store.new.made) }
{
    let args = add_args(store, own_args, remade)?;
    let dict = add_dict(store, attrs)?;
    let parts = parts(store.allocator(), class, args, dict)?;
    store.add(Payload::Tuple(parts))
}

/// Adds the tuple of an exception's arguments, where it isn't its own.
fn add_args(
    store: &mut Store,
    own: PyObjectRef,
    remade: Option<ObjList>,
) -> Result<PyObjectRef, NoMemory>
    requires { AreArgsBelow (length store.old.made) remade }
    ensures grows { IsGrown store.old store.new }
    ensures added { OnOk result (store.new ≡ with_args store.old remade) }
    ensures object { IfOk result (λ args. args ≡ args_object store.old own remade) }
{
    match remade {
        None => Ok(own),
        Some(args) => store.add(Payload::Tuple(args)),
    }
}

/// Adds a dict of attributes, where there are any, after the texts of their names.
fn add_dict(store: &mut Store, attrs: &AttrMap) -> Result<Option<PyObjectRef>, NoMemory>
    requires { AllBelow (length store.old.made) (attr_numbers attrs.now) }
    ensures grows { IsGrown store.old store.new }
    ensures added { OnOk result (store.new ≡ with_dict store.old attrs.now) }
    ensures object { IfOk result (λ dict. dict ≡ dict_object store.old attrs.now) }
{
    if attrs.is_empty() {
        return Ok(None);
    }
    let pairs = add_names(store, attrs)?;
    Ok(Some(store.add(Payload::Dict(pairs))?))
}

/// Adds the texts of the names of attributes, and gives the pairs of these and the values.
fn add_names(store: &mut Store, attrs: &AttrMap) -> Result<PairList, NoMemory>
    requires { AllBelow (length store.old.made) (attr_numbers attrs.now) }
    ensures grows { IsGrown store.old store.new }
    ensures added { OnOk result (store.new ≡ with_names store.old attrs.now) }
    ensures pairs { IfOk result (λ pairs. pairs ≡ keyed_from (length store.old.made) attrs.now) }
{
    let alloc = store.allocator();
    let mut pairs = PairList::new(alloc);
    for place in 0..attrs.len() {
        let (name, value) = attrs.at(place)?;
        let key = store.add(Payload::Str(name))?;
        pairs.push((key, value))?;
    }
    Ok(pairs)
}

/// The class and the arguments, and the dict where there is one.
fn parts(
    alloc: Global,
    class: PyObjectRef,
    args: PyObjectRef,
    dict: Option<PyObjectRef>,
) -> Result<ObjList, NoMemory>
    ensures { IfOk result (λ parts. parts ≡ tuple_parts class args dict) }
{
    let mut parts = two(alloc, class, args)?;
    if let Some(dict) = dict {
        parts.push(dict)?;
    }
    Ok(parts)
}
