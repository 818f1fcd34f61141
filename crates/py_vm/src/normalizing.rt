//! Exceptions that a host has made of an exception or a class of exceptions, by drives of their own, which enter nothing.

ghost use Rattle.std.specs.Prelude.{◌≡◌, ◌≤◌, ◌<◌, true, false, length, Err, IfOk, OnOk, OnErr};
ghost use Rattle.py_objects.specs.Objects.{as_object, AllBelow, IfThere, IsException, IsTraceback};
ghost use Rattle.py_objects.specs.Edits.{objects_of};
ghost use Rattle.py_exceptions.specs.Tracebacks.{traceback_object};
ghost use Rattle.py_objects.specs.Growth.{IsGrown};
ghost use Rattle.py_exceptions.specs.Classes.{HaveClasses};
ghost use Rattle.py_answers.specs.Readable.{IsReadable};
ghost use Rattle.py_vm.specs.Normalizing.{answer_of, forming_by, makings_numbers, makings_of, outcome_of, told_by, CanForm, FormsOf, FormedOne, IsFormOf, IsGiven, IsNotTraceback, IsRefusal, IsTracebackOf, Stopped};
ghost use Rattle.py_vm.specs.declared.fault.VmFault.TheVariants.{Failed, OutOfTurns};

use crate::fault::{PyResult, VmFault};
use crate::machinery::Core;
use crate::vm::VirtualMachine;
use py_answers::entry;
use py_code::{NoMemory, PyText, push_bytes, push_text, text_of};
use py_exceptions::{
    BaseException, ExceptionZoo, Instantiate, make_exception, new_exception, normalized, type_name,
};
use py_objects::{
    DriveAnswer, ErrorKind, Event, Fault, Payload, PyBaseExceptionRef, PyObjectRef, PyTracebackRef,
    Store,
};
use py_run::Makings;
use std::alloc::Global;

/// What comes of what an exception is made of.
#[derive(Clone, Copy)]
pub(crate) enum Formed {
    /// The exception, with the traceback that it is given, if it is given one.
    Made(PyBaseExceptionRef, Option<PyTracebackRef>),
    /// The raise of a new exception.
    Raised(PyBaseExceptionRef),
}

impl VirtualMachine {
    /// Makes an exception of an exception or a class of exceptions, with a value and a traceback, in at most so many turns, of which each adds
    /// one event. None stands for no value, and for no traceback, and an object that is neither None nor a traceback is refused.
    pub fn normalize_exception(
        &mut self,
        ty: PyObjectRef,
        val: PyObjectRef,
        tb: PyObjectRef,
        turns: u64,
    ) -> PyResult<PyBaseExceptionRef>
        requires { AllBelow (length self.old.objects) (makings_numbers (makings_of ty val tb)) }
        // A machine that has failed adds nothing.
        ensures failed { self.old.failed ≡ true → (result ≡ Err Failed) × (self.new ≡ self.old) }
        // What any other comes to is one drive.
        ensures forms { self.old.failed ≡ false → FormsOf self.old ty val tb turns result self.new }
    {
        let core: &mut Core = &mut self.core;
        core.check()?;
        if turns == 0 {
            return Err(core.stop());
        }
        let Ok(()) = core.begin_forming() else {
            return Err(core.fail());
        };
        if turns == 1 {
            return Err(core.stop());
        }
        let makings = Makings {
            thrown: ty,
            value: val,
            traceback: tb,
        };
        let Ok(formed) = core.form(makings) else {
            return Err(core.fail());
        };
        formed.outcome()
    }
}

impl Core {
    /// Notes that the turns are spent.
    pub(crate) fn stop(&mut self) -> VmFault
        ensures fault { result ≡ OutOfTurns }
        ensures failed { self.new ≡ record self.old { failed = true } }
    {
        self.failed = true;
        VmFault::OutOfTurns
    }

    /// The drive begins.
    pub(crate) fn begin_forming(&mut self) -> Result<(), NoMemory>
        requires { self.old.done ≤ length self.old.events }
        ensures ok { OnOk result (self.new ≡ forming_by self.old) }
        ensures err { OnErr result (self.new ≡ self.old) }
    {
        // A list's length has 63 bits, so the count of drives doesn't pass its end.
        let _events = self.events.as_slice().len();
        self.events.push(Event::Drive {
            drive: self.done + 1,
        })?;
        Ok(())
    }

    /// What the exception is made of comes to a result, which is the drive's. An exception is given its traceback before that.
    fn form(&mut self, makings: Makings) -> Result<Formed, NoMemory>
        requires done { self.old.done ≤ length self.old.events }
        requires can { CanForm self.old makings }
        ensures ok { IfOk result (λ formed. FormedOne self.old makings formed self.new) }
        ensures err { OnErr result (Stopped self.old self.new) }
    {
        self.world.store.mark(self.events.len() as u64);
        self.world.store.reserve_changes(1)?;
        let formed = form_exception(
            self.world.alloc,
            &mut self.world.store,
            &self.world.zoo,
            makings,
        )?;
        self.tell(formed)?;
        match formed {
            Formed::Made(exception, traceback) => give(&mut self.world.store, exception, traceback),
            Formed::Raised(_) => {}
        }
        Ok(formed)
    }

    /// The drive has its result.
    fn tell(&mut self, formed: Formed) -> Result<(), NoMemory>
        requires { self.old.done ≤ length self.old.events }
        ensures ok { OnOk result (self.new ≡ told_by self.old formed) }
        ensures err { OnErr result (self.new ≡ self.old) }
    {
        // A list's length has 63 bits, so the count of drives doesn't pass its end.
        let _events = self.events.as_slice().len();
        let drive = self.done + 1;
        let answer = formed.answer();
        self.events.push(Event::Result { drive, answer })?;
        self.done = drive;
        Ok(())
    }
}

impl Formed {
    /// What the host is answered.
    fn outcome(self) -> PyResult<PyBaseExceptionRef>
        ensures { result ≡ outcome_of self }
    {
        match self {
            Formed::Made(exception, _) => Ok(exception),
            Formed::Raised(exception) => Err(VmFault::Exception(exception)),
        }
    }

    /// The result of its drive.
    fn answer(self) -> DriveAnswer
        ensures { result ≡ answer_of self }
    {
        match self {
            Formed::Made(exception, _) => DriveAnswer::Returns(PyObjectRef::from(exception)),
            Formed::Raised(exception) => DriveAnswer::Raises(exception),
        }
    }
}

/// Gives an exception a traceback, where there is one, by a change that there is a place for.
fn give(store: &mut Store, exception: PyBaseExceptionRef, traceback: Option<PyTracebackRef>)
    requires spare { 0 < store.old.spare }
    requires exception { IsException (objects_of store.old) (as_object exception) }
    requires traceback { IfThere (IsTraceback store.old.made) (traceback_object traceback) }
    ensures { IsGiven store.old exception traceback store.new }
{
    if traceback.is_some() {
        exception.set_traceback(store, traceback);
    }
}

/// What comes of what an exception is made of: a fault of what is thrown is raised before the traceback is looked at.
fn form_exception(
    alloc: Global,
    store: &mut Store,
    zoo: &ExceptionZoo,
    makings: Makings,
) -> Result<Formed, NoMemory>
    requires readable { IsReadable store.old }
    requires classes { HaveClasses zoo.now store.old.made }
    requires below { AllBelow (length store.old.made) (makings_numbers makings) }
    ensures grows { IsGrown store.old store.new }
    ensures formed { IfOk result (IsFormOf store.old.made store.new.made makings) }
{
    match normalized(alloc, store, makings.thrown, Some(makings.value)) {
        Instantiate::Done(exception) => match traceback_of(store, makings.traceback) {
            Some(traceback) => Ok(Formed::Made(exception, traceback)),
            None => refused(alloc, store, zoo, makings.traceback),
        },
        Instantiate::Make(class, args) => match traceback_of(store, makings.traceback) {
            Some(traceback) => {
                let exception = make_exception(store, class, args)?;
                Ok(Formed::Made(exception, traceback))
            }
            None => refused(alloc, store, zoo, makings.traceback),
        },
        Instantiate::Fault(fault) => {
            let exception = new_exception(store, zoo, &fault)?;
            Ok(Formed::Raised(exception))
        }
        Instantiate::NoMemory => Err(NoMemory),
    }
}

/// The traceback that an object is, and none where it is None, unless it is neither.
fn traceback_of(store: &Store, object: PyObjectRef) -> Option<Option<PyTracebackRef>>
    requires readable { IsReadable store.now }
    requires below { object.number < length store.now.made }
    ensures { IsTracebackOf store.now.made object result }
{
    match entry(store, object) {
        Payload::None => Some(None),
        Payload::Traceback(_) => Some(Some(PyTracebackRef {
            number: object.number,
        })),
        _ => None,
    }
}

/// The refusal of what is neither a traceback nor None.
fn refused(
    alloc: Global,
    store: &mut Store,
    zoo: &ExceptionZoo,
    object: PyObjectRef,
) -> Result<Formed, NoMemory>
    requires readable { IsReadable store.old }
    requires classes { HaveClasses zoo.now store.old.made }
    requires below { object.number < length store.old.made }
    ensures grows { IsGrown store.old store.new }
    ensures refused { IfOk result (IsRefusal store.old.made store.new.made object) }
{
    let text = not_traceback(alloc, store, object)?;
    let fault = Fault {
        kind: ErrorKind::TypeError,
        text,
    };
    let exception = new_exception(store, zoo, &fault)?;
    Ok(Formed::Raised(exception))
}

/// Its text.
fn not_traceback(alloc: Global, store: &Store, object: PyObjectRef) -> Result<PyText, NoMemory>
    requires readable { IsReadable store.now }
    requires below { object.number < length store.now.made }
    ensures { IfOk result (IsNotTraceback store.now.made object) }
{
    let name = type_name(alloc, store, entry(store, object))?;
    let mut text = text_of(alloc, b"Expected type 'traceback' but '")?;
    push_text(&mut text, &name)?;
    push_bytes(&mut text, b"' found")?;
    Ok(text)
}
