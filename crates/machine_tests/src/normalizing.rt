//! Exceptions that a host has made of an exception or a class of exceptions, with a value and a traceback.

use py_code::{Names, NoMemory, PyText, text_of};
use py_objects::{Payload, PyBaseExceptionRef, PyObjectRef};
use py_vm::{PyResult, VirtualMachine, VmFault};
use std::alloc::Global;
use std::test::Fail;

/// What comes of it.
#[derive(Clone, Copy, Debug, PartialEq, Eq)]
enum Outcome {
    Exception(PyBaseExceptionRef),
    Raises(PyBaseExceptionRef),
    OutOfTurns,
    Failed,
    NoMemory,
}

impl From<PyResult<PyBaseExceptionRef>> for Outcome {
    fn from(answer: PyResult<PyBaseExceptionRef>) -> Outcome {
        match answer {
            Ok(exception) => Outcome::Exception(exception),
            Err(VmFault::Exception(exception)) => Outcome::Raises(exception),
            Err(VmFault::OutOfTurns) => Outcome::OutOfTurns,
            Err(VmFault::Failed) => Outcome::Failed,
            Err(VmFault::NoMemory) => Outcome::NoMemory,
        }
    }
}

/// What an exception is made of.
#[derive(Clone, Copy)]
struct Parts {
    thrown: PyObjectRef,
    value: PyObjectRef,
    traceback: PyObjectRef,
}

/// What comes of these in so many turns.
fn made_of(vm: &mut VirtualMachine, parts: Parts, turns: u64) -> Outcome {
    let count = vm.store().len();
    if count <= parts.thrown.number {
        return Outcome::NoMemory;
    }
    if count <= parts.value.number {
        return Outcome::NoMemory;
    }
    if count <= parts.traceback.number {
        return Outcome::NoMemory;
    }
    let Parts {
        thrown,
        value,
        traceback,
    } = parts;
    Outcome::from(vm.normalize_exception(thrown, value, traceback, turns))
}

/// The same of an object, a value and no traceback.
fn made_with(vm: &mut VirtualMachine, thrown: PyObjectRef, value: PyObjectRef) -> Outcome {
    let traceback = PyObjectRef { number: 0 };
    let parts = Parts {
        thrown,
        value,
        traceback,
    };
    made_of(vm, parts, 2)
}

/// The number of an exception's class, and its arguments: how many, and the first one.
#[derive(Clone, Copy, Debug, PartialEq, Eq)]
struct Shape {
    class: u64,
    count: usize,
    first: Option<PyObjectRef>,
}

/// What an object is, where it is there.
fn payload(vm: &VirtualMachine, object: PyObjectRef) -> Option<&Payload> {
    let store = vm.store();
    if store.len() <= object.number {
        return None;
    }
    Some(store.get(object))
}

/// The shape of an exception.
fn shape_of(vm: &VirtualMachine, exception: PyBaseExceptionRef) -> Option<Shape> {
    let number = exception.number;
    let Payload::Exception(body) = payload(vm, PyObjectRef { number })? else {
        return None;
    };
    let body = body.value();
    let Payload::Tuple(items) = payload(vm, body.args)? else {
        return None;
    };
    Some(Shape {
        class: body.class.number,
        count: items.len(),
        first: items.as_slice().first().copied(),
    })
}

/// The shape of the exception that was made.
fn made(vm: &VirtualMachine, outcome: Outcome) -> Option<Shape> {
    let Outcome::Exception(exception) = outcome else {
        return None;
    };
    shape_of(vm, exception)
}

/// The shape of the exception that is raised, and whether its first argument is this text.
fn raised(vm: &VirtualMachine, outcome: Outcome, text: &PyText) -> Option<(u64, bool)> {
    let Outcome::Raises(exception) = outcome else {
        return None;
    };
    let shape = shape_of(vm, exception)?;
    let Payload::Str(said) = payload(vm, shape.first?)? else {
        return None;
    };
    Some((shape.class, said.as_slice() == text.as_slice()))
}

/// A machine, the class of a name, and a number 3.
fn scene(
    alloc: Global,
    class: &[u8],
) -> Result<(VirtualMachine, PyObjectRef, PyObjectRef), NoMemory> {
    let mut vm = VirtualMachine::new(alloc, Names::new(alloc))?;
    let name = text_of(alloc, class)?;
    let Some(class) = vm.declared(&name) else {
        return Err(NoMemory);
    };
    let Ok(three) = vm.add_object(Payload::Int(3)) else {
        return Err(NoMemory);
    };
    Ok((vm, class, three))
}

/// What comes of a class with 3 and with None, of the exception that was made with 3 with None, and how many events there are then.
fn classes_and_instances(alloc: Global) -> Result<([Option<Shape>; 2], bool, u64), NoMemory> {
    let (mut vm, class, three) = scene(alloc, b"ValueError")?;
    let none = PyObjectRef { number: 0 };
    let with_three = made_with(&mut vm, class, three);
    let with_none = made_with(&mut vm, class, none);
    let Outcome::Exception(PyBaseExceptionRef { number }) = with_three else {
        return Err(NoMemory);
    };
    let again = made_with(&mut vm, PyObjectRef { number }, none);
    let shapes = [made(&vm, with_three), made(&vm, with_none)];
    Ok((shapes, again == with_three, vm.events()))
}

#[test]
fn a_class_is_called_with_its_value_and_an_exception_is_itself(
    rt: HostRuntime,
) -> Result<(), Fail> {
    let (shapes, same, events) = classes_and_instances(rt.alloc())?;
    let value_error = shapes[0].map(|shape| shape.class);
    let with_three = Shape {
        class: value_error.unwrap_or(0),
        count: 1,
        first: Some(PyObjectRef { number: 71 }),
    };
    let with_none = Shape {
        class: value_error.unwrap_or(0),
        count: 0,
        first: None,
    };
    assert_eq!(rt; shapes, [Some(with_three), Some(with_none)]);
    assert_eq!(rt; (same, events), (true, 6));
    Ok(())
}

/// What comes of 3, of an exception with another one as its value, and of a class with 3 as its traceback: whether each is refused by a
/// TypeError, which is object 26, with its text.
fn refusals(alloc: Global) -> Result<[Option<(u64, bool)>; 3], NoMemory> {
    let (mut vm, class, three) = scene(alloc, b"ValueError")?;
    let none = PyObjectRef { number: 0 };
    let number = made_with(&mut vm, three, none);
    let Outcome::Exception(PyBaseExceptionRef { number: instance }) = made_with(
        &mut vm, class, none,
    ) else {
        return Err(NoMemory);
    };
    let instance = PyObjectRef { number: instance };
    let with_another = made_with(&mut vm, instance, instance);
    let parts = Parts {
        thrown: class,
        value: three,
        traceback: three,
    };
    let no_traceback = made_of(&mut vm, parts, 2);
    let not_class = text_of(
        alloc,
        b"exceptions must be classes or instances deriving from BaseException, not int",
    )?;
    let separate = text_of(alloc, b"instance exception may not have a separate value")?;
    let expected = text_of(alloc, b"Expected type 'traceback' but 'int' found")?;
    Ok([
        raised(&vm, number, &not_class),
        raised(&vm, with_another, &separate),
        raised(&vm, no_traceback, &expected),
    ])
}

#[test]
fn what_makes_no_exception_is_refused(rt: HostRuntime) -> Result<(), Fail> {
    let type_error = Some((26, true));
    assert_eq!(rt; refusals(rt.alloc())?, [type_error, type_error, type_error]);
    Ok(())
}

/// What comes of a class in two turns, in one, and in two again, in none on another machine, and how many events there are then.
fn turns_spent(alloc: Global) -> Result<([Outcome; 3], Outcome, [u64; 2]), NoMemory> {
    let (mut vm, class, three) = scene(alloc, b"ValueError")?;
    let (mut other, _, _) = scene(alloc, b"ValueError")?;
    let parts = Parts {
        thrown: class,
        value: three,
        traceback: PyObjectRef { number: 0 },
    };
    let outcomes = [
        made_of(&mut vm, parts, 1),
        made_of(&mut vm, parts, 2),
        made_of(&mut vm, parts, 0),
    ];
    let none = made_of(&mut other, parts, 0);
    Ok((outcomes, none, [vm.events(), other.events()]))
}

#[test]
fn one_is_made_in_two_turns(rt: HostRuntime) -> Result<(), Fail> {
    let (outcomes, none, events) = turns_spent(rt.alloc())?;
    let want = [Outcome::OutOfTurns, Outcome::Failed, Outcome::Failed];
    assert_eq!(rt; outcomes, want);
    assert_eq!(rt; (none, events), (Outcome::OutOfTurns, [1, 0]));
    Ok(())
}
