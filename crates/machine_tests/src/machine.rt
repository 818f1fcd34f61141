//! The machine: its first state, a host's enters, what a host sets between drives, and turns that run out.

ghost use Rattle.std.specs.Prelude.{◌≡◌, ◌≤◌, [], false, length, IfOk, OnOk};
ghost use Rattle.py_objects.specs.declared.payload.Payload.TheVariants.{Class};

use py_code::{Names, NoMemory, PyText, text_of};
use py_objects::{Boxed, ClassBody, DriveAnswer, ObjList, PairList, Payload, PyObjectRef};
use py_reports::Sources;
use py_vm::{Drive, PyGlobalState, PyResult, VirtualMachine, VmFault};
use std::alloc::Global;
use std::test::Fail;

/// A machine whose one name is `v`.
fn machine(alloc: Global) -> Result<VirtualMachine, NoMemory>
    ensures names { IfOk result (λ vm. length vm.checked.names ≡ 1) }
    ensures events { IfOk result (λ vm. vm.events ≡ []) }
    ensures works { IfOk result (λ vm. vm.failed ≡ false) }
{
    let mut names = Names::new(alloc);
    names.intern("v")?;
    VirtualMachine::new(alloc, names)
}

/// What is seen of a machine from outside.
#[derive(Clone, Copy, Debug, PartialEq, Eq)]
struct Seen {
    names: usize,
    objects: u64,
    events: u64,
    depth: usize,
    has_frames: bool,
}

fn seen_of(vm: &VirtualMachine) -> Seen {
    Seen {
        names: vm.names().len(),
        objects: vm.store().len(),
        events: vm.events(),
        depth: vm.current_recursion_depth(),
        has_frames: !vm.frames().is_empty() || vm.current_frame().is_some(),
    }
}

/// What a drive comes to.
#[derive(Clone, Copy, Debug, PartialEq, Eq)]
enum Outcome {
    Returns,
    Raises,
    OutOfTurns,
    Failed,
    NoMemory,
}

impl From<PyResult<DriveAnswer>> for Outcome {
    fn from(answer: PyResult<DriveAnswer>) -> Outcome {
        match answer {
            Ok(DriveAnswer::Raises(_)) | Err(VmFault::Exception(_)) => Outcome::Raises,
            Ok(_) => Outcome::Returns,
            Err(VmFault::OutOfTurns) => Outcome::OutOfTurns,
            Err(VmFault::Failed) => Outcome::Failed,
            Err(VmFault::NoMemory) => Outcome::NoMemory,
        }
    }
}

/// What the call of an object without arguments comes to in so many turns.
fn call(alloc: Global, vm: &mut VirtualMachine, callee: PyObjectRef, turns: u64) -> Outcome {
    if vm.store().len() <= callee.number {
        return Outcome::NoMemory;
    }
    let drive = Drive::Call(callee, ObjList::new(alloc));
    Outcome::from(vm.drive(&drive, &Sources::new(alloc), turns))
}

/// What the call of None comes to in so many turns.
fn call_none(alloc: Global, vm: &mut VirtualMachine, turns: u64) -> Outcome {
    call(alloc, vm, PyObjectRef { number: 0 }, turns)
}

/// A class of a name that derives from nothing.
fn bare_class(alloc: Global, name: &[u8]) -> Result<Payload, NoMemory>
    ensures { IfOk result (λ class. class ≡ Class (record { name = name.now; mro = [] })) }
{
    let body = ClassBody {
        name: text_of(alloc, name)?,
        mro: ObjList::new(alloc),
    };
    Ok(Payload::Class(Boxed::new(alloc, body)?))
}

/// Has a machine use a new dict as its globals, and gives the number of that.
fn use_new_globals(alloc: Global, vm: &mut VirtualMachine) -> PyResult<u64>
    requires { vm.old.events ≡ [] }
{
    let globals = vm.add_object(Payload::Dict(PairList::new(alloc)))?;
    vm.use_globals(globals)?;
    Ok(vm.globals().number)
}

/// Enters a place so many times.
fn enter_all(vm: &mut VirtualMachine, levels: u16) -> PyResult<()>
    ensures { OnOk result (levels ≤ vm.new.entered) }
{
    for _ in 0..levels {
        vm.enter("in a test")?;
    }
    Ok(())
}

/// Puts a name and a number into the dict of the globals.
fn set_number(vm: &mut VirtualMachine, name: &str, number: i128) -> PyResult<()> {
    let value = vm.add_object(Payload::Int(number))?;
    let globals = vm.globals();
    vm.set_global(globals, name, value)
}

/// What a new machine is seen as, what it declares under a name, and its state.
fn new_machine_seen(
    alloc: Global,
    name: &PyText,
) -> Result<(Seen, Option<PyObjectRef>, PyGlobalState), NoMemory> {
    let vm = machine(alloc)?;
    Ok((seen_of(&vm), vm.declared(name), *vm.state()))
}

#[test]
fn a_machine_begins_with_71_objects_and_declares_its_classes(rt: HostRuntime) -> Result<(), Fail> {
    let name = text_of(rt.alloc(), b"TypeError")?;
    let (seen, declared, state) = new_machine_seen(rt.alloc(), &name)?;
    let begun = Seen {
        names: 1,
        objects: 71,
        events: 0,
        depth: 0,
        has_frames: false,
    };
    assert_eq!(rt; seen, begun);
    assert_eq!(rt; declared, Some(PyObjectRef { number: 26 }));
    assert_eq!(rt; (state.finalizing, state.int_max_str_digits), (false, 4300));
    Ok(())
}

/// The number of a new dict that a machine uses as its globals, whether a number was put into it, and how many codes and changes its
/// journal has then.
fn set_and_listed(alloc: Global) -> Result<(Option<u64>, bool, usize, usize), NoMemory> {
    let mut vm = machine(alloc)?;
    let globals = use_new_globals(alloc, &mut vm).ok();
    let is_set = set_number(&mut vm, "x", 1).is_ok();
    let journal = vm.journal();
    Ok((globals, is_set, journal.codes.len(), journal.changes.len()))
}

#[test]
fn globals_are_set_behind_the_events_so_far(rt: HostRuntime) -> Result<(), Fail> {
    assert_eq!(rt; set_and_listed(rt.alloc())?, (Some(71), true, 0, 1));
    Ok(())
}

/// Whether a host may enter 1000 levels, then again one that it has left, and whether one more raises, with how deep it is at the
/// end.
fn levels_entered(alloc: Global) -> Result<([bool; 3], usize), NoMemory> {
    let mut vm = machine(alloc)?;
    let all = match enter_all(&mut vm, 1000) {
        Ok(()) => {
            vm.leave();
            true
        }
        Err(_) => false,
    };
    let again = vm.enter("in a test").is_ok();
    let raises = matches!(vm.enter("in a test"), Err(VmFault::Exception(_)));
    Ok(([all, again, raises], vm.current_recursion_depth()))
}

#[test]
fn the_host_enters_1000_levels_and_again_one_that_it_left(rt: HostRuntime) -> Result<(), Fail> {
    assert_eq!(rt; levels_entered(rt.alloc())?, ([true, true, true], 1000));
    Ok(())
}

/// What calls of None come to in two turns, in one, and in two, and what the machine is seen as then.
fn calls_of_none(alloc: Global) -> Result<([Outcome; 3], Seen), NoMemory> {
    let mut vm = machine(alloc)?;
    let outcomes = [
        call_none(alloc, &mut vm, 2),
        call_none(alloc, &mut vm, 1),
        call_none(alloc, &mut vm, 2),
    ];
    Ok((outcomes, seen_of(&vm)))
}

#[test]
fn turns_run_out(rt: HostRuntime) -> Result<(), Fail> {
    let (outcomes, seen) = calls_of_none(rt.alloc())?;
    let want = [Outcome::Raises, Outcome::OutOfTurns, Outcome::Failed];
    assert_eq!(rt; outcomes, want);
    assert_eq!(rt; (seen.events, seen.has_frames), (3, false));
    Ok(())
}

/// What calls come to of a new class, which has the name of a built-in one and derives from nothing, and of the built-in one, which is
/// object 26.
fn calls_of_classes(alloc: Global) -> Result<[Outcome; 2], NoMemory> {
    let mut vm = machine(alloc)?;
    let class = bare_class(alloc, b"TypeError")?;
    let Ok(added) = vm.add_object(class) else {
        return Err(NoMemory);
    };
    let built_in = PyObjectRef { number: 26 };
    Ok([
        call(alloc, &mut vm, added, 2),
        call(alloc, &mut vm, built_in, 2),
    ])
}

#[test]
fn a_class_is_called_where_it_derives_from_base_exception(rt: HostRuntime) -> Result<(), Fail> {
    let outcomes = calls_of_classes(rt.alloc())?;
    assert_eq!(rt; outcomes, [Outcome::Raises, Outcome::Returns]);
    Ok(())
}
