//! New exceptions: of a class, with what that keeps of its arguments, and with no links but a cause where they have one.

ghost use Rattle.std.specs.Prelude.{◌≡◌, [], ◌∷◌, None, length, codes, IfOk};
ghost use Rattle.py_objects.specs.Objects.{as_object, attr_numbers, class_object, numbers, AllBelow, IfThere, IsClassObject, IsException};
ghost use Rattle.py_objects.specs.Growth.{IsGrown};
ghost use Rattle.py_exceptions.specs.Classes.{HaveClasses};
ghost use Rattle.py_exceptions.specs.Keeping.{kept_args as args_kept, kept_attrs as attrs_kept, os_args as args_of_os, os_attrs as attrs_of_os};
ghost use Rattle.py_exceptions.specs.Making.{embedded_null, IsAddedFrom, IsNewCalled, IsNewFrom, IsNewOf};

use crate::zoo::ExceptionZoo;
use py_code::{NoMemory, text_of};
use py_objects::{
    AttrMap, Boxed, ErrorKind, ExceptionBody, Fault, ObjList, Payload, PyBaseExceptionRef,
    PyObjectRef, PyTypeRef, Store,
};
use std::alloc::Global;

/// A new exception of a fault's kind, with the fault's text as its one argument.
pub fn new_exception(
    store: &mut Store,
    zoo: &ExceptionZoo,
    fault: &Fault,
) -> Result<PyBaseExceptionRef, NoMemory>
    requires { HaveClasses zoo.now store.old.made }
    ensures grows { IsGrown store.old store.new }
    ensures made { IfOk result (IsNewOf zoo.now fault.now None store.old store.new) }
{
    with_text(store, zoo, fault, None)
}

/// A new exception of a fault's kind and text, raised from a cause, which keeps its context from being printed (Python Language
/// Reference, 7.8).
pub fn new_exception_from(
    store: &mut Store,
    zoo: &ExceptionZoo,
    fault: &Fault,
    cause: PyBaseExceptionRef,
) -> Result<PyBaseExceptionRef, NoMemory>
    requires classes { HaveClasses zoo.now store.old.made }
    requires cause { IsException store.old.made (as_object cause) }
    ensures grows { IsGrown store.old store.new }
    ensures made { IfOk result (IsNewFrom zoo.now fault.now cause store.old store.new) }
{
    with_text(store, zoo, fault, Some(PyObjectRef::from(cause)))
}

/// A new exception for a text that has a null character inside, where none may be.
pub fn cstring_error(store: &mut Store, zoo: &ExceptionZoo) -> Result<PyBaseExceptionRef, NoMemory>
    requires { HaveClasses zoo.now store.old.made }
    ensures grows { IsGrown store.old store.new }
    ensures made { IfOk result (IsNewOf zoo.now embedded_null None store.old store.new) }
{
    let fault = Fault {
        kind: ErrorKind::ValueError,
        text: text_of(store.allocator(), b"embedded null character")?,
    };
    new_exception(store, zoo, &fault)
}

/// A new exception of a fault's kind and text, maybe with a cause.
fn with_text(
    store: &mut Store,
    zoo: &ExceptionZoo,
    fault: &Fault,
    cause: Option<PyObjectRef>,
) -> Result<PyBaseExceptionRef, NoMemory>
    requires classes { HaveClasses zoo.now store.old.made }
    requires cause { IfThere (IsException store.old.made) cause }
    ensures grows { IsGrown store.old store.new }
    ensures made { IfOk result (IsNewOf zoo.now fault.now cause store.old store.new) }
{
    let alloc = store.allocator();
    let class = zoo.class(fault.kind);
    let text = fault.text.copy(alloc)?;
    let argument = store.add(Payload::Str(text))?;
    let mut items = ObjList::new(alloc);
    items.push(argument)?;
    add_exception(store, class, items, cause, AttrMap::new(alloc))
}

/// The exception that a call of a class with these arguments makes.
pub fn make_exception(
    store: &mut Store,
    class: PyTypeRef,
    args: ObjList,
) -> Result<PyBaseExceptionRef, NoMemory>
    requires class { IsClassObject store.old.made (class_object class) }
    requires args { AllBelow (length store.old.made) (numbers args) }
    ensures grows { IsGrown store.old store.new }
    ensures made { IfOk result (IsNewCalled store.old.made store.new.made class args) }
{
    let alloc = store.allocator();
    let os = store.derives_from(class, ErrorKind::OSError);
    let attrs = kept_attrs(alloc, os, args.as_slice())?;
    let args = kept_args(alloc, os, args)?;
    add_exception(store, class, args, None, attrs)
}

/// A new exception of a class, with these arguments and attributes, and maybe with a cause.
fn add_exception(
    store: &mut Store,
    class: PyTypeRef,
    args: ObjList,
    cause: Option<PyObjectRef>,
    attrs: AttrMap,
) -> Result<PyBaseExceptionRef, NoMemory>
    requires class { IsClassObject store.old.made (class_object class) }
    requires args { AllBelow (length store.old.made) (numbers args) }
    requires cause { IfThere (IsException store.old.made) cause }
    requires attrs { AllBelow (length store.old.made) (attr_numbers attrs) }
    ensures grows { IsGrown store.old store.new }
    ensures made { IfOk result (IsAddedFrom store.old store.new class args cause attrs) }
{
    let args = store.add(Payload::Tuple(args))?;
    let body = ExceptionBody {
        class,
        args,
        cause,
        context: None,
        suppress: cause.is_some(),
        traceback: None,
        attrs,
    };
    let exception = store.add(Payload::Exception(Boxed::new(store.allocator(), body)?))?;
    Ok(PyBaseExceptionRef {
        number: exception.number,
    })
}

/// The arguments that an exception keeps of those that its class is called with.
fn kept_args(alloc: Global, os: bool, args: ObjList) -> Result<ObjList, NoMemory>
    ensures { IfOk result (λ kept. kept ≡ args_kept os args) }
{
    if os {
        return os_args(alloc, args);
    }
    Ok(args)
}

/// The attributes that an exception has by the arguments that its class is called with.
fn kept_attrs(alloc: Global, os: bool, args: &[PyObjectRef]) -> Result<AttrMap, NoMemory>
    ensures { IfOk result (λ attrs. attrs ≡ attrs_kept os args.now) }
{
    if os {
        return os_attrs(alloc, args);
    }
    Ok(AttrMap::new(alloc))
}

/// The arguments that an `OSError` keeps.
pub(crate) fn os_args(alloc: Global, args: ObjList) -> Result<ObjList, NoMemory>
    ensures { IfOk result (λ kept. kept ≡ args_of_os args) }
{
    match args.as_slice() {
        [number, message, _] => two(alloc, *number, *message),
        [number, message, _, _] => two(alloc, *number, *message),
        [number, message, _, _, _] => two(alloc, *number, *message),
        _ => Ok(args),
    }
}

/// A list of two.
pub(crate) fn two(
    alloc: Global,
    first: PyObjectRef,
    second: PyObjectRef,
) -> Result<ObjList, NoMemory>
    ensures { IfOk result (λ list. list ≡ first ∷ second ∷ []) }
{
    let mut list = ObjList::new(alloc);
    list.push(first)?;
    list.push(second)?;
    Ok(list)
}

/// The attributes that an `OSError` has: its files.
fn os_attrs(alloc: Global, args: &[PyObjectRef]) -> Result<AttrMap, NoMemory>
    ensures { IfOk result (λ attrs. attrs ≡ attrs_of_os args.now) }
{
    match args {
        [_, _, file] => with_file(alloc, *file),
        [_, _, file, _] => with_file(alloc, *file),
        [_, _, file, _, second] => {
            let mut attrs = with_file(alloc, *file)?;
            attrs.insert(text_of(alloc, b"filename2")?, *second)?;
            Ok(attrs)
        }
        _ => Ok(AttrMap::new(alloc)),
    }
}

/// The attributes of an `OSError` with one file.
fn with_file(alloc: Global, file: PyObjectRef) -> Result<AttrMap, NoMemory>
    ensures { IfOk result (λ attrs. attrs ≡ (codes "filename", file) ∷ []) }
{
    let mut attrs = AttrMap::new(alloc);
    attrs.insert(text_of(alloc, b"filename")?, file)?;
    Ok(attrs)
}
