//! Frames that are driven: each is told words, and each event that comes is written as a word.

ghost use Rattle.std.specs.Prelude.{◌≡◌, ◌<◌, ℕ, List, [], ◌∷◌, Some, IfOk, length, true};
ghost use Rattle.py_rows.specs.declared.expect.Expect.TheVariants as expect;
ghost use Rattle.py_rows.specs.Sound.{IsSound};
ghost use Rattle.py_rows.specs.RunOfRows.{is_thrown_into};
ghost use Rattle.py_frame.specs.Frames.{parts};
ghost use Rattle.py_frame.specs.Running.{IsRunning};
ghost use Rattle.frame_tests.specs.Codes.{keeps_rules};
ghost use Rattle.frame_tests.specs.FirstObjects.{first_objects, object_at};
ghost use Rattle.frame_tests.specs.Drives.{IsDriven, keep_rules};

use crate::codes::checked;
use crate::inputs::{exception, input};
use crate::objects::{first_store, object};
use crate::tables::{Case, Row, Said};
use py_check::CheckedCode;
use py_code::{Names, NoMemory, PyText, utf8_of};
use py_frame::{ExceptionStack, Frame, FrameConstructor, FrameStep, OwnStack, Scene, positional};
use py_objects::{FrameRef, ObjList, PyBaseExceptionRef, PyObjectRef, Request, Scope, Store};
use std::alloc::Global;
use std::mem;
use std::process::Abort;
use std::test::Fail;

/// Puts an object that may be there behind words.
fn push_object(
    alloc: Global,
    words: &mut String,
    object: Option<PyObjectRef>,
) -> Result<(), NoMemory> {
    if let Some(object) = object {
        words.push_str(&format!(in alloc; " {}", object.number)?)?;
    }
    Ok(())
}

/// A word, and the objects behind it.
fn words_of(
    alloc: Global,
    word: &str,
    objects: &[Option<PyObjectRef>],
) -> Result<String, NoMemory> {
    let mut words = format!(in alloc; "{word}")?;
    for object in objects {
        push_object(alloc, &mut words, *object)?;
    }
    Ok(words)
}

/// A call as words.
fn call(alloc: Global, callee: PyObjectRef, args: &[PyObjectRef]) -> Result<String, NoMemory> {
    let mut words = words_of(alloc, "Call", &[Some(callee)])?;
    for arg in args {
        push_object(alloc, &mut words, Some(*arg))?;
    }
    Ok(words)
}

/// A local that is unset, as words.
fn unbound(alloc: Global, name: &PyText) -> Result<String, NoMemory> {
    let name = utf8_of(alloc, name)?;
    Ok(format!(in alloc; "Unbound {name}")?)
}

/// A question as a word and the objects that it names, where it is no more than that and is asked here.
fn asked(request: &Request) -> Option<(&'static str, [Option<PyObjectRef>; 4])> {
    match request {
        Request::Global(_, _) => Some(("Global", [None, None, None, None])),
        Request::Truth(v) => Some(("Truth", [Some(*v), None, None, None])),
        Request::Show(v) => Some(("Show", [Some(*v), None, None, None])),
        Request::Compare(_, a, b) => Some(("Compare", [Some(*a), Some(*b), None, None])),
        Request::Match(e, c) => Some(("Match", [Some(*e), Some(*c), None, None])),
        Request::Handled => Some(("Handled", [None, None, None, None])),
        Request::Raisable(v) => Some(("Raisable", [Some(*v), None, None, None])),
        Request::Cause(v) => Some(("Cause", [Some(*v), None, None, None])),
        Request::Enter(m) => Some(("Enter", [Some(*m), None, None, None])),
        Request::NoExit(m) => Some(("NoExit", [Some(*m), None, None, None])),
        Request::Exit(m, t, v, b) => Some(("Exit", [Some(*m), Some(*t), Some(*v), Some(*b)])),
        Request::Send(g, v) => Some(("Send", [Some(*g), Some(*v), None, None])),
        Request::Throw(g, c, v, t) => Some(("Throw", [Some(*g), Some(*c), *v, *t])),
        Request::Close(g) => Some(("Close", [Some(*g), None, None, None])),
        _ => None,
    }
}

/// A question that names objects alone as words; of any other, only that it is one.
fn plain(alloc: Global, request: &Request) -> Result<String, NoMemory> {
    match asked(request) {
        Some(asked) => {
            let objects = asked.1;
            words_of(alloc, asked.0, &objects)
        }
        None => words_of(alloc, "another question", &[]),
    }
}

/// A question as words.
fn question(alloc: Global, request: &Request) -> Result<String, NoMemory> {
    match request {
        Request::Unbound(name) => unbound(alloc, name),
        Request::Call(callee, args, _) => call(alloc, *callee, args.as_slice()),
        _ => plain(alloc, request),
    }
}

/// A question that is asked while an exception is handled, as words.
fn question_while(
    alloc: Global,
    request: &Request,
    own: PyBaseExceptionRef,
) -> Result<String, NoMemory> {
    let asked = question(alloc, request)?;
    Ok(format!(in alloc; "{asked} own {}", own.number)?)
}

/// An event as words.
fn event(alloc: Global, step: &FrameStep) -> Result<String, NoMemory> {
    match step {
        FrameStep::Ask(request, None) => question(alloc, request),
        FrameStep::Ask(request, Some(own)) => question_while(alloc, request, *own),
        FrameStep::Round => words_of(alloc, "round", &[]),
        FrameStep::Yield(v) => words_of(alloc, "yield", &[Some(*v)]),
        FrameStep::Return(v) => words_of(alloc, "return", &[Some(*v)]),
        FrameStep::Raise(e) => words_of(alloc, "raise", &[Some(object(e.number))]),
        FrameStep::NoMemory => words_of(alloc, "no memory", &[]),
    }
}

/// What comes of a word, as words.
fn outcome(alloc: Global, step: Option<FrameStep>) -> Result<String, NoMemory> {
    let words = match &step {
        Some(step) => event(alloc, step),
        None => words_of(alloc, "refused", &[]),
    };
    // Let go of in one step, and not variant by variant at the end.
    mem::drop(step);
    words
}

/// Words behind the place behind their unit, and in front of what is in the top slot, where that isn't exception 6.
fn line(
    alloc: Global,
    lasti: u32,
    words: &str,
    slot: Option<PyBaseExceptionRef>,
) -> Result<String, NoMemory> {
    match slot {
        Some(PyBaseExceptionRef { number: 6 }) => Ok(format!(in alloc; "{lasti} {words}; ")?),
        Some(e) => Ok(format!(in alloc; "{lasti} {words} slot {}; ", e.number)?),
        None => Ok(format!(in alloc; "{lasti} {words} no slot; ")?),
    }
}

/// Puts a line of what comes of a word behind what was told.
fn tell(
    alloc: Global,
    told: &mut String,
    lasti: u32,
    step: Option<FrameStep>,
    slot: Option<PyBaseExceptionRef>,
) -> Result<(), NoMemory> {
    let words = outcome(alloc, step)?;
    told.push_str(&line(alloc, lasti, &words, slot)?)?;
    Ok(())
}

/// True and a manager.
fn arguments(alloc: Global) -> Result<ObjList, NoMemory>
    ensures { IfOk result (λ args. args ≡ object_at 2 ∷ object_at 8 ∷ []) }
{
    Ok(ObjList::of(vec![in alloc; object(2), object(8)]?))
}

/// A frame of a code that hasn't begun, with True and a manager as arguments.
fn frame_of(
    alloc: Global,
    store: &mut Store,
    code: &CheckedCode,
) -> Result<Frame<OwnStack>, NoMemory>
    requires closed { code.now.code.code.freevars.items ≡ [] }
    requires objects { store.old.made ≡ first_objects }
    ensures running { IfOk result (λ frame. (names : List (List ℕ)) → IsSound names code.now → IsRunning store.new.made names code.now frame) }
    ensures fresh { IfOk result (λ frame. frame.state.wants ≡ expect.Start) }
    ensures store { store.new ≡ store.old }
{
    let locals = positional(alloc, code, &arguments(alloc)?)?;
    let size = code.code().co_stacksize() as usize;
    let stack = OwnStack::new(alloc, size)?;
    let closure = ObjList::new(alloc);
    let scope = Scope::new(None, object(0));
    let entry = FrameRef { number: 7 };
    let constructor = FrameConstructor {
        number: 0,
        entry,
        scope,
        closure,
    };
    let mut frame = Frame::new(alloc, store, code, constructor, stack)?;
    frame.fill(store, code, locals);
    Ok(frame)
}

/// Tells a frame a word, where it expects it, and gives the event that comes.
fn turn(
    scene: &Scene<'_>,
    store: &mut Store,
    slots: &mut ExceptionStack,
    frame: &mut Frame<OwnStack>,
    said: Said,
) -> Option<FrameStep>
    requires generator { is_thrown_into (parts scene.now).flags ≡ true }
    requires driven { IsDriven store.old.made scene.now slots.old frame.old }
    ensures { IsDriven store.new.made scene.now slots.new frame.new }
{
    let input = input(frame.expects(), said)?;
    Some(frame.step(scene, store, slots, input))
}

/// The events of a frame that is told these words.
fn drive(
    scene: &Scene<'_>,
    store: &mut Store,
    frame: &mut Frame<OwnStack>,
    words: &[Said],
) -> Result<String, NoMemory>
    requires generator { is_thrown_into (parts scene.now).flags ≡ true }
    requires driven { IsDriven store.old.made scene.now (Some (record { number = 6 }) ∷ []) frame.old }
{
    let alloc = scene.alloc;
    let mut slots = ExceptionStack::new(alloc);
    slots.set_exception(Some(exception(6)));
    let mut told = String::new(alloc);
    for said in words {
        let step = turn(scene, store, &mut slots, frame, *said);
        let slot = slots.current_exception();
        tell(alloc, &mut told, frame.lasti(), step, slot)?;
    }
    Ok(told)
}

/// The events of a code's frame that is told these words, while exception 6 is handled around it.
fn events_of(alloc: Global, rows: &[Row], words: &[Said]) -> Result<String, NoMemory>
    requires { keeps_rules rows.now ≡ true }
{
    let names = one_name(alloc)?;
    let mut store = first_store(alloc)?;
    let code = checked(alloc, rows)?;
    events_among(alloc, &code, &names, &mut store, words)
}

/// The same of a code and a table of names that are there, among the first objects.
fn events_among(
    alloc: Global,
    code: &CheckedCode,
    names: &Names,
    store: &mut Store,
    words: &[Said],
) -> Result<String, NoMemory>
    requires closed { code.now.code.code.freevars.items ≡ [] }
    requires generator { is_thrown_into code.now.code.code.flags ≡ true }
    requires sound { IsSound names.now code.now }
    requires objects { store.old.made ≡ first_objects }
{
    let mut frame = frame_of(alloc, store, code)?;
    let scene = Scene { alloc, code, names };
    drive(&scene, store, &mut frame, words)
}

/// A table of one name.
fn one_name(alloc: Global) -> Result<Names, NoMemory>
    ensures { IfOk result (λ names. 0 < length names) }
{
    let mut names = Names::new(alloc);
    names.intern("x")?;
    Ok(names)
}

/// Compares the events of each case with those that are to come.
pub fn compare(rt: &impl Abort, alloc: Global, cases: &[Case]) -> Result<(), Fail>
    requires { keep_rules cases.now ≡ true }
{
    for case in cases {
        let told = events_of(alloc, case.rows, case.said)?;
        assert_eq!(rt; told.as_str(), case.told, "{}", case.name);
    }
    Ok(())
}
