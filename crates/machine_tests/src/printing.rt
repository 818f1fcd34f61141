//! What an exception says, written to a sink by a host's calls.

ghost use Rattle.std.specs.Prelude.{◌≡◌, ◌<◌, [], ◌∷◌, codes, List, IfOk, OnOk};
ghost use Rattle.py_objects.specs.declared.payload.Payload.{Payload as Entry};
ghost use Rattle.py_objects.specs.declared.payload.Payload.TheVariants.{Class};
ghost use Rattle.py_objects.specs.Objects.{as_object, payload_numbers, AllBelow, IfThere, IsClassObject, IsException, IsMade};
ghost use Rattle.py_run.specs.First.{IsAddable};

use py_code::{Names, NoMemory, text_of};
use py_objects::{
    AttrMap, Boxed, ClassBody, ExceptionBody, ObjList, Payload, PyBaseExceptionRef, PyObjectRef,
    PyTypeRef,
};
use py_outside::SinkMemory;
use py_reports::Sources;
use py_vm::{PyResult, ReportFault, VirtualMachine, VmFault};
use std::alloc::Global;
use std::test::Fail;

/// What an exception is made with.
#[derive(Clone, Copy)]
enum Value {
    Nothing,
    Truth(bool),
    Number(i128),
    Text(&'static [u8]),
    /// None as the one argument.
    None,
    /// None and True, as two arguments.
    Two,
}

/// The payload of a value: None stands for no argument, and a tuple for its items.
fn payload_of(alloc: Global, value: Value) -> Result<Payload, NoMemory>
    ensures below { IfOk result (λ payload. AllBelow 71 (payload_numbers payload)) }
    ensures made { IfOk result (λ payload. (objects : List Entry) → IsMade objects payload) }
    ensures addable { IfOk result (IsAddable 0) }
{
    let mut items = ObjList::new(alloc);
    Ok(match value {
        Value::Nothing => Payload::None,
        Value::Truth(truth) => Payload::Bool(truth),
        Value::Number(number) => Payload::Int(number),
        Value::Text(text) => Payload::Str(text_of(alloc, text)?),
        Value::None => {
            items.push(PyObjectRef { number: 0 })?;
            Payload::Tuple(items)
        }
        Value::Two => {
            items.push(PyObjectRef { number: 0 })?;
            items.push(PyObjectRef { number: 2 })?;
            Payload::Tuple(items)
        }
    })
}

/// A machine, and an exception of a class and a value.
fn made(
    alloc: Global,
    class: &[u8],
    value: Value,
) -> Result<(VirtualMachine, PyBaseExceptionRef), NoMemory> {
    let payload = payload_of(alloc, value)?;
    let mut vm = VirtualMachine::new(alloc, Names::new(alloc))?;
    let Ok(value) = vm.add_object(payload) else {
        return Err(NoMemory);
    };
    let Some(class) = vm.declared(&text_of(alloc, class)?) else {
        return Err(NoMemory);
    };
    if vm.store().len() <= class.number {
        return Err(NoMemory);
    }
    match vm.normalize_exception(class, value, PyObjectRef { number: 0 }, 2) {
        Ok(exception) => Ok((vm, exception)),
        Err(_) => Err(NoMemory),
    }
}

/// A sink that takes so many bytes a write, of which the one of this number fails.
fn failing_sink(alloc: Global, number: u64, most: usize) -> Result<SinkMemory, NoMemory>
    requires { 0 < most }
{
    let mut fails = Vec::new(alloc);
    fails.push(number)?;
    SinkMemory::new(alloc, fails, most, 1000)
}

/// A sink none of whose writes fails.
fn sound_sink(alloc: Global) -> Result<SinkMemory, NoMemory> {
    SinkMemory::new(alloc, Vec::new(alloc), 1000, 1000)
}

/// How a program ends by an exception of a class and a value: its status, and what is written.
#[derive(Clone, Copy)]
struct End {
    class: &'static [u8],
    value: Value,
    status: u8,
    text: &'static [u8],
}

fn ends_by(class: &'static [u8], value: Value, status: u8, text: &'static [u8]) -> End {
    End {
        class,
        value,
        status,
        text,
    }
}

/// The place of the first of these ends that comes out otherwise, if one does.
fn first_wrong(alloc: Global, ends: &[End]) -> Result<Option<usize>, NoMemory> {
    for (place, end) in ends.iter().enumerate() {
        let (mut vm, exception) = made(alloc, end.class, end.value)?;
        let mut sink = sound_sink(alloc)?;
        let status = vm.handle_exit_exception(&mut sink, &Sources::new(alloc), exception, 2);
        if status != Ok(end.status) || sink.bytes() != end.text {
            return Ok(Some(place));
        }
    }
    Ok(None)
}

#[test]
fn a_system_exit_gives_its_status_or_says_what_it_has(rt: HostRuntime) -> Result<(), Fail> {
    let ends = [
        ends_by(b"SystemExit", Value::Nothing, 0, b""),
        ends_by(b"SystemExit", Value::None, 0, b""),
        ends_by(b"SystemExit", Value::Truth(true), 1, b""),
        ends_by(b"SystemExit", Value::Truth(false), 0, b""),
        ends_by(b"SystemExit", Value::Number(3), 3, b""),
        ends_by(b"SystemExit", Value::Number(255), 255, b""),
        ends_by(b"SystemExit", Value::Number(300), 0, b""),
        ends_by(b"SystemExit", Value::Number(-1), 0, b""),
        ends_by(b"SystemExit", Value::Text(b"gone"), 1, b"gone\n"),
        ends_by(b"SystemExit", Value::Two, 1, b"(None, True)\n"),
    ];
    assert_eq!(rt; first_wrong(rt.alloc(), &ends)?, None);
    Ok(())
}

#[test]
fn all_else_that_ends_a_program_is_reported(rt: HostRuntime) -> Result<(), Fail> {
    let ends = [
        ends_by(
            b"KeyboardInterrupt",
            Value::Nothing,
            130,
            b"KeyboardInterrupt\n",
        ),
        ends_by(b"GeneratorExit", Value::Nothing, 1, b"GeneratorExit\n"),
        ends_by(b"ValueError", Value::Number(3), 1, b"ValueError: 3\n"),
    ];
    assert_eq!(rt; first_wrong(rt.alloc(), &ends)?, None);
    Ok(())
}

/// A class that derives from SystemExit, which is object 4, and so from BaseException, which is the one before it.
fn derived_class(alloc: Global) -> Result<Payload, NoMemory>
    ensures { IfOk result (λ class. class ≡ Class (record { name = codes "Leave"; mro = record { number = 4 } ∷ record { number = 3 } ∷ [] })) }
{
    let mut mro = ObjList::new(alloc);
    mro.push(PyObjectRef { number: 4 })?;
    mro.push(PyObjectRef { number: 3 })?;
    let body = ClassBody {
        name: text_of(alloc, b"Leave")?,
        mro,
    };
    Ok(Payload::Class(Boxed::new(alloc, body)?))
}

/// How a program ends by an exception of that class with 3, and whether nothing is written.
fn ended_by_derived(alloc: Global) -> Result<(Result<u8, ReportFault>, bool), NoMemory> {
    let class = derived_class(alloc)?;
    let mut vm = VirtualMachine::new(alloc, Names::new(alloc))?;
    let Ok(class) = vm.add_object(class) else {
        return Err(NoMemory);
    };
    let Ok(three) = vm.add_object(Payload::Int(3)) else {
        return Err(NoMemory);
    };
    let Ok(exception) = vm.normalize_exception(class, three, PyObjectRef { number: 0 }, 2) else {
        return Err(NoMemory);
    };
    let mut sink = sound_sink(alloc)?;
    let status = vm.handle_exit_exception(&mut sink, &Sources::new(alloc), exception, 2);
    Ok((status, sink.bytes().is_empty()))
}

#[test]
fn a_class_that_derives_from_system_exit_ends_a_program_as_that(
    rt: HostRuntime,
) -> Result<(), Fail> {
    assert_eq!(rt; ended_by_derived(rt.alloc())?, (Ok(3), true));
    Ok(())
}

/// ValueError, which is object 27.
const VALUE_ERROR: PyTypeRef = PyTypeRef { number: 27 };

/// Puts a ValueError of a text behind the objects, which may have come of another exception.
fn add_error(
    alloc: Global,
    vm: &mut VirtualMachine,
    text: &[u8],
    cause: Option<PyObjectRef>,
) -> Result<PyObjectRef, NoMemory>
    requires class { IsClassObject vm.old.objects (record { number = 27 }) }
    requires cause { IfThere (IsException vm.old.objects) cause }
    ensures class { OnOk result (IsClassObject vm.new.objects (record { number = 27 })) }
    ensures error { IfOk result (IsException vm.new.objects) }
{
    let text = Payload::Str(text_of(alloc, text)?);
    let Ok(text) = vm.add_object(text) else {
        return Err(NoMemory);
    };
    let mut items = ObjList::new(alloc);
    items.push(text)?;
    let Ok(args) = vm.add_object(Payload::Tuple(items)) else {
        return Err(NoMemory);
    };
    let body = ExceptionBody {
        class: VALUE_ERROR,
        args,
        cause,
        context: None,
        suppress: false,
        traceback: None,
        attrs: AttrMap::new(alloc),
    };
    let Ok(error) = vm.add_object(Payload::Exception(Boxed::new(alloc, body)?)) else {
        return Err(NoMemory);
    };
    Ok(error)
}

/// A machine with a ValueError of `b` whose cause is one of `a`.
fn caused(alloc: Global) -> Result<(VirtualMachine, PyBaseExceptionRef), NoMemory> {
    let mut vm = VirtualMachine::new(alloc, Names::new(alloc))?;
    let first = add_error(alloc, &mut vm, b"a", None)?;
    let PyObjectRef { number } = add_error(alloc, &mut vm, b"b", Some(first))?;
    Ok((vm, PyBaseExceptionRef { number }))
}

/// Its report.
const REPORT: &[u8] =
    b"ValueError: a\n\nThe above exception was the direct cause of the following exception:\n\nValueError: b\n";

/// Whether both calls that write a report write it, and the third one what it says of the exception alone.
fn written(alloc: Global) -> Result<[bool; 3], NoMemory> {
    let (mut vm, exception) = caused(alloc)?;
    let sources = Sources::new(alloc);
    let mut whole = sound_sink(alloc)?;
    let mut again = sound_sink(alloc)?;
    let mut alone = sound_sink(alloc)?;
    Ok([
        vm.write_exception(&mut whole, &sources, exception, 2)
            .is_ok()
            && whole.bytes() == REPORT,
        vm.print_exception(&mut again, &sources, exception, 2)
            .is_ok()
            && again.bytes() == REPORT,
        vm.write_exception_inner(&mut alone, &sources, exception, 2)
            .is_ok()
            && alone.bytes() == b"ValueError: b\n".as_slice(),
    ])
}

#[test]
fn a_report_has_the_cause_and_a_part_has_none(rt: HostRuntime) -> Result<(), Fail> {
    assert_eq!(rt; written(rt.alloc())?, [true, true, true]);
    Ok(())
}

/// The first of the 99 bytes of the report whose failed write leaves anything but what is before it, if there is one. With the write
/// after the last byte none fails.
fn first_bad_front(alloc: Global) -> Result<Option<u64>, NoMemory> {
    for number in 1..=100 {
        let (mut vm, exception) = caused(alloc)?;
        let mut sink = failing_sink(alloc, number, 1)?;
        let answer = vm.write_exception(&mut sink, &Sources::new(alloc), exception, 2);
        let want = if number == 100 {
            Ok(())
        } else {
            Err(ReportFault::WriteFault)
        };
        let is_front = REPORT.starts_with(sink.bytes()) && sink.bytes().len() as u64 == number - 1;
        if answer != want || !is_front {
            return Ok(Some(number));
        }
    }
    Ok(None)
}

#[test]
fn a_sink_that_fails_has_the_front_of_a_report(rt: HostRuntime) -> Result<(), Fail> {
    assert_eq!(rt; first_bad_front(rt.alloc())?, None);
    Ok(())
}

/// What comes of a report in one turn, of another one of that machine, and of one in no turn, whether nothing is written, and how many
/// events the two machines have.
fn unwritten(alloc: Global) -> Result<([Result<(), ReportFault>; 3], bool, [u64; 2]), NoMemory> {
    let (mut vm, exception) = caused(alloc)?;
    let (mut other, same) = caused(alloc)?;
    let sources = Sources::new(alloc);
    let mut sink = sound_sink(alloc)?;
    let answers = [
        vm.write_exception(&mut sink, &sources, exception, 1),
        vm.write_exception(&mut sink, &sources, exception, 2),
        other.write_exception(&mut sink, &sources, same, 0),
    ];
    Ok((
        answers,
        sink.bytes().is_empty(),
        [vm.events(), other.events()],
    ))
}

#[test]
fn nothing_is_written_where_turns_are_spent(rt: HostRuntime) -> Result<(), Fail> {
    let (answers, is_empty, events) = unwritten(rt.alloc())?;
    let out_of_turns = Err(ReportFault::Vm(VmFault::OutOfTurns));
    let failed = Err(ReportFault::Vm(VmFault::Failed));
    assert_eq!(rt; answers, [out_of_turns, failed, out_of_turns]);
    assert_eq!(rt; (is_empty, events), (true, [1, 0]));
    Ok(())
}

/// Whether the call of ValueError with 3 gives an exception that says so, and how many events there are then.
fn invoked(alloc: Global) -> Result<(bool, u64), NoMemory> {
    let mut vm = VirtualMachine::new(alloc, Names::new(alloc))?;
    let Ok(three) = vm.add_object(Payload::Int(3)) else {
        return Err(NoMemory);
    };
    let mut args = ObjList::new(alloc);
    args.push(three)?;
    let Ok(exception) = vm.invoke_exception(VALUE_ERROR, args, 2) else {
        return Err(NoMemory);
    };
    let mut sink = sound_sink(alloc)?;
    let answer = vm.write_exception_inner(&mut sink, &Sources::new(alloc), exception, 2);
    Ok((
        answer.is_ok() && sink.bytes() == b"ValueError: 3\n".as_slice(),
        vm.events(),
    ))
}

#[test]
fn a_class_is_invoked_with_its_arguments(rt: HostRuntime) -> Result<(), Fail> {
    assert_eq!(rt; invoked(rt.alloc())?, (true, 4));
    Ok(())
}
