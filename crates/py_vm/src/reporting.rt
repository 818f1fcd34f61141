//! Drives by which a host has a text told of an exception. They enter nothing, and ask nothing of the objects.

ghost use Rattle.std.specs.Prelude.{◌≡◌, ◌≤◌, ◌+◌, ◌++◌, codes, true, false, suc, length, Err, IfOk, OnOk, OnErr, encode_utf8_all, string_bytes};
ghost use Rattle.py_exceptions.specs.Texts.{repr, str as str_of};
ghost use Rattle.py_objects.specs.declared.refs.PyBaseExceptionRef.{PyBaseExceptionRef as ExceptionOf};
ghost use Rattle.py_objects.specs.declared.event.DriveAnswer.TheVariants.{Reported};
ghost use Rattle.py_run.specs.declared.drive.Told.TheVariants.{Report};
ghost use Rattle.py_run.specs.Exits.{IsExitText};
ghost use Rattle.py_run.specs.Run.{Reports};
ghost use Rattle.py_vm.specs.Machine.{done_of, Adds, EndsBy, IsCutShort, IsDoneBy, IsSpent, KeepsGenerators};
ghost use Rattle.py_vm.specs.Reporting.{IsTextIn, IsTextOf, IsToldReport};
ghost use Rattle.py_vm.specs.declared.fault.VmFault.TheVariants.{NoMemory as OutOfMemory, Failed, OutOfTurns, Exception as Raised};

use crate::fault::PyResult;
use crate::machinery::Core;
use crate::vm::VirtualMachine;
use py_code::{NoMemory, PyText, text_of_str, utf8_of};
use py_exceptions::{push_whole_repr, push_whole_str};
use py_objects::{DriveAnswer, Event, Payload, PyBaseExceptionRef, PyObjectRef};
use py_reports::{Scene, Sources, part_of, report_of};
use py_run::{Exit, Told};
use std::alloc::Global;

/// A text that a drive has told, and its bytes in UTF-8.
#[derive(Drop)]
pub(crate) struct Said {
    pub text: PyText,
    pub bytes: String,
}

impl VirtualMachine {
    /// Has an exception reported, in at most so many turns, of which each adds one event. Without an exception the report is empty.
    pub(crate) fn report(
        &mut self,
        exception: Option<PyBaseExceptionRef>,
        sources: &Sources,
        turns: u64,
    ) -> PyResult<DriveAnswer>
        ensures failed { self.old.failed ≡ true → (result ≡ Err Failed) × (self.new ≡ self.old) }
        ensures failed_only { result ≡ Err Failed → self.old.failed ≡ true }
        ensures adds { self.old.failed ≡ false → Adds (Reports (Report exception)) sources.now self.old self.new }
        ensures turns { length self.new.events ≤ length self.old.events + turns }
        ensures done { OnOk result (IsDoneBy self.old self.new) }
        ensures answer { IfOk result (EndsBy self.new.events (suc (done_of self.old))) }
        ensures generators { OnOk result (KeepsGenerators (Reports (Report exception)) self.old self.new) }
        ensures out_of_memory { result ≡ Err OutOfMemory → IsCutShort self.old turns self.new }
        ensures out_of_turns { result ≡ Err OutOfTurns → IsSpent self.old turns self.new }
        ensures no_raise { (e : ExceptionOf) → result ≡ Err (Raised e) → ⊥ }
    {
        let said = self.tell(Told::Report(exception), sources, turns)?;
        Ok(DriveAnswer::Reported(said.text))
    }

    /// Has a text told, in at most so many turns, of which each adds one event.
    pub(crate) fn tell(&mut self, told: Told, sources: &Sources, turns: u64) -> PyResult<Said>
        ensures failed { self.old.failed ≡ true → (result ≡ Err Failed) × (self.new ≡ self.old) }
        ensures failed_only { result ≡ Err Failed → self.old.failed ≡ true }
        ensures adds { self.old.failed ≡ false → Adds (Reports told) sources.now self.old self.new }
        ensures turns { length self.new.events ≤ length self.old.events + turns }
        ensures done { OnOk result (IsDoneBy self.old self.new) }
        ensures answer { IfOk result (λ said. EndsBy self.new.events (suc (done_of self.old)) (Reported said.text)) }
        ensures text { IfOk result (λ said. IsTextOf self.old sources.now told said.text) }
        ensures bytes { IfOk result (λ said. string_bytes said.bytes ≡ encode_utf8_all said.text) }
        ensures generators { OnOk result (KeepsGenerators (Reports told) self.old self.new) }
        ensures out_of_memory { result ≡ Err OutOfMemory → IsCutShort self.old turns self.new }
        ensures out_of_turns { result ≡ Err OutOfTurns → IsSpent self.old turns self.new }
        ensures no_raise { (e : ExceptionOf) → result ≡ Err (Raised e) → ⊥ }
    {
        let core: &mut Core = &mut self.core;
        core.check()?;
        if turns == 0 {
            return Err(core.stop());
        }
        let Ok(()) = core.begin_forming() else {
            return Err(core.fail());
        };
        if turns == 1 {
            return Err(core.stop());
        }
        let Ok(said) = core.tell_text(told, sources) else {
            return Err(core.fail());
        };
        Ok(said)
    }
}

impl Core {
    /// The drive has a text as its result.
    fn tell_text(&mut self, told: Told, sources: &Sources) -> Result<Said, NoMemory>
        requires { self.old.done ≤ length self.old.events }
        ensures ok { IfOk result (λ said. IsToldReport self.old sources.now told said.text self.new) }
        ensures bytes { IfOk result (λ said. string_bytes said.bytes ≡ encode_utf8_all said.text) }
        ensures err { OnErr result (self.new ≡ self.old) }
    {
        let alloc = self.world.alloc;
        let text = self.told_text(told, sources)?;
        let bytes = utf8_of(alloc, &text)?;
        let result = text.copy(alloc)?;
        // A list's length has 63 bits, so the count of drives doesn't pass its end.
        let _events = self.events.as_slice().len();
        let drive = self.done + 1;
        self.events.push(Event::Result {
            drive,
            answer: DriveAnswer::Reported(result),
        })?;
        self.done = drive;
        Ok(Said { text, bytes })
    }

    /// The text that is told, of the objects as they are.
    fn told_text(&self, told: Told, sources: &Sources) -> Result<PyText, NoMemory>
        ensures { IfOk result (IsTextIn self.now sources.now told) }
    {
        let alloc = self.world.alloc;
        let codes = &self.world.codes;
        let scene = Scene::new(&self.world.store, codes.names(), codes.places(), sources);
        match told {
            Told::Report(None) => Ok(PyText::new(alloc)),
            Told::Report(Some(exception)) => report_of(alloc, &scene, exception),
            Told::Part(exception) => part_of(alloc, &scene, exception),
            Told::Exit(exception) => exit_text(alloc, &scene, exception),
        }
    }
}

/// What is printed where an exception ends a program.
fn exit_text(
    alloc: Global,
    scene: &Scene,
    exception: PyBaseExceptionRef,
) -> Result<PyText, NoMemory>
    ensures { IfOk result (IsExitText scene.now exception) }
{
    match Exit::of(scene.objects(), exception) {
        Exit::Silent(_) => Ok(PyText::new(alloc)),
        Exit::Says(object) => str_line(alloc, scene.objects(), object),
        Exit::Shows(object) => repr_line(alloc, scene.objects(), object),
        Exit::Reports(_) => report_of(alloc, scene, exception),
    }
}

/// A line of an object as a text.
fn str_line(alloc: Global, objects: &[Payload], object: PyObjectRef) -> Result<PyText, NoMemory>
    ensures { IfOk result (λ text. encode_utf8_all text ≡ str_of objects.now object ++ codes "\n") }
{
    let mut line = String::new(alloc);
    push_whole_str(&mut line, objects, object)?;
    line.push_str("\n")?;
    text_in(alloc, &line)
}

/// A line of what represents an object.
fn repr_line(alloc: Global, objects: &[Payload], object: PyObjectRef) -> Result<PyText, NoMemory>
    ensures { IfOk result (λ text. encode_utf8_all text ≡ repr objects.now object ++ codes "\n") }
{
    let mut line = String::new(alloc);
    push_whole_repr(&mut line, objects, object)?;
    line.push_str("\n")?;
    text_in(alloc, &line)
}

/// The characters of a string.
fn text_in(alloc: Global, string: &String) -> Result<PyText, NoMemory>
    ensures { IfOk result (λ text. encode_utf8_all text ≡ string_bytes string.now) }
{
    text_of_str(alloc, string.as_str())
}
