//! Exceptions that a host has made by the call of a class, by a drive of its own.

ghost use Rattle.std.specs.Prelude.{◌≡◌, ◌≤◌, ◌+◌, suc, true, false, length, Err, IfOk, OnOk};
ghost use Rattle.py_objects.specs.Objects.{class_object, numbers, AllBelow, IsClassObject};
ghost use Rattle.py_objects.specs.declared.refs.PyBaseExceptionRef.{PyBaseExceptionRef as ExceptionOf};
ghost use Rattle.py_vm.specs.Invoking.{calling, Gives, Invokes, IsExceptionOrRaise, IsReturnOrRaise};
ghost use Rattle.py_vm.specs.Machine.{done_of, AddsPlainly, EndsBy, IsCutShort, IsDoneBy, IsSpent, KeepsGenerators};
ghost use Rattle.py_vm.specs.declared.fault.VmFault.TheVariants.{NoMemory as OutOfMemory, Failed, OutOfTurns, Exception as Raised};

use crate::fault::{PyResult, VmFault};
use crate::vm::VirtualMachine;
use py_objects::{DriveAnswer, ObjList, PyBaseExceptionRef, PyObjectRef, PyTypeRef};
use py_run::Question;

impl VirtualMachine {
    /// Makes an exception by the call of a class with these arguments, in order (Python Language Reference, 6.3.4). It is a drive of two events,
    /// so two turns are enough; with fewer the machine has failed.
    ///
    /// A class that doesn't derive from BaseException is refused by a TypeError (`VmFault::Exception`), as every call of it is. So no other object
    /// comes of the call, and the machine goes on.
    pub fn invoke_exception(
        &mut self,
        class: PyTypeRef,
        args: ObjList,
        turns: u64,
    ) -> PyResult<PyBaseExceptionRef>
        requires class { IsClassObject self.old.objects (class_object class) }
        requires args { AllBelow (length self.old.objects) (numbers args) }
        // A machine that has failed adds nothing.
        ensures failed { self.old.failed ≡ true → (result ≡ Err Failed) × (self.new ≡ self.old) }
        // Of any other, whatever comes of it, the journal goes on by a part of this drive.
        ensures adds { self.old.failed ≡ false → AddsPlainly (calling class args) self.old self.new }
        ensures turns { length self.new.events ≤ length self.old.events + turns }
        ensures invokes { self.old.failed ≡ false → Invokes (calling class args) turns self.old result self.new }
    {
        let answer = self.call_class(class, args, turns)?;
        exception_of(answer)
    }

    /// Makes the drive of the call of a class.
    fn call_class(&mut self, class: PyTypeRef, args: ObjList, turns: u64) -> PyResult<DriveAnswer>
        requires class { IsClassObject self.old.objects (class_object class) }
        requires args { AllBelow (length self.old.objects) (numbers args) }
        ensures failed { self.old.failed ≡ true → (result ≡ Err Failed) × (self.new ≡ self.old) }
        ensures failed_only { result ≡ Err Failed → self.old.failed ≡ true }
        ensures adds { self.old.failed ≡ false → AddsPlainly (calling class args) self.old self.new }
        ensures turns { length self.new.events ≤ length self.old.events + turns }
        ensures done { OnOk result (IsDoneBy self.old self.new) }
        ensures answer { IfOk result (EndsBy self.new.events (suc (done_of self.old))) }
        ensures generators { OnOk result (KeepsGenerators (calling class args) self.old self.new) }
        ensures made { IfOk result (IsExceptionOrRaise self.new.objects) }
        ensures out_of_memory { result ≡ Err OutOfMemory → IsCutShort self.old turns self.new }
        ensures out_of_turns { result ≡ Err OutOfTurns → IsSpent self.old turns self.new }
        ensures no_raise { (e : ExceptionOf) → result ≡ Err (Raised e) → ⊥ }
    {
        // A look at the parts tells the check what holds of a machine between drives, of which `made` comes.
        let _ = &self.core;
        self.ask(&Question::Call(PyObjectRef::from(class), args), turns)
    }
}

/// What a host is answered where the call of a class has this result.
fn exception_of(answer: DriveAnswer) -> PyResult<PyBaseExceptionRef>
    requires { IsReturnOrRaise answer }
    ensures { Gives answer result }
{
    match answer {
        DriveAnswer::Returns(PyObjectRef { number }) => Ok(PyBaseExceptionRef { number }),
        DriveAnswer::Raises(exception) => Err(VmFault::Exception(exception)),
        // Only drives of generators end so, and those that tell a text.
        DriveAnswer::Yields(_)
        | DriveAnswer::Stops(_)
        | DriveAnswer::Closes
        | DriveAnswer::Reported(_) => unreachable!(),
    }
}
