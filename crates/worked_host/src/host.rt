//! A machine that a host holds, with one function.

ghost use Rattle.std.specs.Prelude.{◌≡◌, ◌≤◌, ◌<◌, false, length, IfOk, OnOk};
ghost use Rattle.py_objects.specs.Objects.{payload_numbers, result_numbers, AllBelow, IsMade};
ghost use Rattle.py_run.specs.First.{IsAddable};
ghost use Rattle.py_vm.specs.Machine.{IsCallable};
ghost use Rattle.py_tree.specs.Compilable.{IsCompilable};
ghost use Rattle.py_tree.specs.Views.{tree_of};
ghost use Rattle.worked_host.specs.Host.{IsReady, IsTaken};

use crate::fault::HostFault;
use crate::function::{count_down, echo};
use py_body::{Body, compile_body};
use py_check::{CheckFault, CheckedCode, Shapes, check_code};
use py_code::{Names, NoMemory, PyText, text_of_str, utf8_of};
use py_objects::{DriveAnswer, FunctionBody, ObjList, Payload, PyObjectRef};
use py_reports::Sources;
use py_vm::{Drive, Journal, VirtualMachine};
use std::alloc::Global;

/// A machine with one function, which is bound to its name.
#[derive(Drop)]
pub(crate) struct Host {
    pub(crate) alloc: Global,
    pub(crate) vm: VirtualMachine,
    pub(crate) function: PyObjectRef,
}

/// The code of a body, whose names go into the table: the machine answers all that it may ask.
fn checked_code(alloc: Global, names: &mut Names, body: &Body) -> Result<CheckedCode, HostFault>
    requires { IsCompilable (tree_of body.now) }
    ensures { IfOk result (IsTaken names.new) }
{
    let codes = compile_body(alloc, names, body, 0)?;
    let Some(code) = codes.into_vec().pop() else {
        unreachable!();
    };
    let shapes = Shapes::new(alloc);
    match check_code(alloc, code, &shapes) {
        Ok(code) => Ok(code),
        Err(CheckFault::NoMemory) => Err(HostFault::from(NoMemory)),
        Err(CheckFault::Breaks(_)) => unreachable!(),
    }
}

/// Adds a code to a machine, and gives its place.
fn add_code(vm: &mut VirtualMachine, code: CheckedCode) -> Result<usize, HostFault>
    requires { IsTaken vm.old.checked.names code }
    ensures works { OnOk result (vm.new.failed ≡ false) }
    ensures there { IfOk result (λ place. place < length vm.new.checked.codes) }
{
    Ok(vm.add_code(code)?)
}

/// Adds a function of a code to a machine, and binds it to its name.
fn add_function(
    alloc: Global,
    vm: &mut VirtualMachine,
    code: CheckedCode,
    name: &PyText,
) -> Result<PyObjectRef, HostFault>
    requires { IsTaken vm.old.checked.names code }
    ensures works { OnOk result (vm.new.failed ≡ false) }
    ensures there { IfOk result (λ function. function.number < length vm.new.objects) }
{
    let code = add_code(vm, code)?;
    let body = FunctionBody {
        name: name.copy(alloc)?,
        code,
    };
    let function = vm.add_object(Payload::Function(body))?;
    bind(alloc, vm, name, function)?;
    Ok(function)
}

/// Binds a name to an object in the globals of a machine.
fn bind(
    alloc: Global,
    vm: &mut VirtualMachine,
    name: &PyText,
    object: PyObjectRef,
) -> Result<(), HostFault>
    requires works { vm.old.failed ≡ false }
    requires there { object.number < length vm.old.objects }
    ensures works { OnOk result (vm.new.failed ≡ false) }
    ensures grows { OnOk result (length vm.old.objects ≤ length vm.new.objects) }
{
    let name = utf8_of(alloc, name)?;
    vm.set_global(vm.globals(), name.as_str(), object)?;
    Ok(())
}

impl Host {
    /// A machine that holds the function that counts down.
    pub(crate) fn of_count_down(alloc: Global) -> Result<Host, HostFault>
        ensures { IfOk result IsReady }
    {
        let body = count_down(alloc)?;
        Host::load(alloc, &body)
    }

    /// A machine that holds the generator that yields what it is sent.
    pub(crate) fn of_echo(alloc: Global) -> Result<Host, HostFault>
        ensures { IfOk result IsReady }
    {
        let body = echo(alloc)?;
        Host::load(alloc, &body)
    }

    /// A machine that holds the function of a body.
    fn load(alloc: Global, body: &Body) -> Result<Host, HostFault>
        requires { IsCompilable (tree_of body.now) }
        ensures { IfOk result IsReady }
    {
        let mut names = Names::new(alloc);
        let code = checked_code(alloc, &mut names, body)?;
        let mut vm = VirtualMachine::new(alloc, names)?;
        let function = add_function(alloc, &mut vm, code, &body.name)?;
        Ok(Host {
            alloc,
            vm,
            function,
        })
    }

    /// A new object, which names objects and a code that are there.
    fn add(&mut self, payload: Payload) -> Result<PyObjectRef, HostFault>
        requires ready { IsReady self.old }
        requires below { AllBelow (length self.old.vm.objects) (payload_numbers payload) }
        requires made { IsMade self.old.vm.objects payload }
        requires addable { IsAddable (length self.old.vm.checked.codes) payload }
        ensures ready { OnOk result (IsReady self.new) }
        ensures there { IfOk result (λ object. object.number < length self.new.vm.objects) }
        ensures grows { OnOk result (length self.old.vm.objects ≤ length self.new.vm.objects) }
    {
        Ok(self.vm.add_object(payload)?)
    }

    /// A new None.
    pub(crate) fn none(&mut self) -> Result<PyObjectRef, HostFault>
        requires { IsReady self.old }
        ensures ready { OnOk result (IsReady self.new) }
        ensures there { IfOk result (λ object. object.number < length self.new.vm.objects) }
        ensures grows { OnOk result (length self.old.vm.objects ≤ length self.new.vm.objects) }
    {
        self.add(Payload::None)
    }

    /// A new number.
    pub(crate) fn number(&mut self, number: i128) -> Result<PyObjectRef, HostFault>
        requires { IsReady self.old }
        ensures ready { OnOk result (IsReady self.new) }
        ensures there { IfOk result (λ object. object.number < length self.new.vm.objects) }
        ensures grows { OnOk result (length self.old.vm.objects ≤ length self.new.vm.objects) }
    {
        self.add(Payload::Int(number))
    }

    /// A new text.
    pub(crate) fn text(&mut self, text: &str) -> Result<PyObjectRef, HostFault>
        requires { IsReady self.old }
        ensures ready { OnOk result (IsReady self.new) }
        ensures there { IfOk result (λ object. object.number < length self.new.vm.objects) }
    {
        let text = text_of_str(self.alloc, text)?;
        self.add(Payload::Str(text))
    }

    /// Makes a drive, in at most so many turns.
    fn drive(&mut self, drive: &Drive, turns: u64) -> Result<DriveAnswer, HostFault>
        requires ready { IsReady self.old }
        requires callable { IsCallable self.old.vm.objects drive.now }
        ensures ready { OnOk result (IsReady self.new) }
        ensures there { IfOk result (λ answer. AllBelow (length self.new.vm.objects) (result_numbers answer)) }
        ensures grows { OnOk result (length self.old.vm.objects ≤ length self.new.vm.objects) }
    {
        let answer = self.vm.drive(drive, &Sources::new(self.alloc), turns)?;
        Ok(answer)
    }

    /// Calls the function with an object, in at most so many turns.
    pub(crate) fn call(
        &mut self,
        argument: PyObjectRef,
        turns: u64,
    ) -> Result<DriveAnswer, HostFault>
        requires ready { IsReady self.old }
        requires there { argument.number < length self.old.vm.objects }
        ensures ready { OnOk result (IsReady self.new) }
        ensures there { IfOk result (λ answer. AllBelow (length self.new.vm.objects) (result_numbers answer)) }
    {
        let mut args = ObjList::new(self.alloc);
        args.push(argument)?;
        self.drive(&Drive::Call(self.function, args), turns)
    }

    /// Sends a value to a generator, in at most so many turns. It begins with None, for which nothing waits.
    pub(crate) fn send(
        &mut self,
        generator: PyObjectRef,
        value: PyObjectRef,
        turns: u64,
    ) -> Result<DriveAnswer, HostFault>
        requires ready { IsReady self.old }
        requires there { (generator.number < length self.old.vm.objects) × (value.number < length self.old.vm.objects) }
        ensures ready { OnOk result (IsReady self.new) }
        ensures grows { OnOk result (length self.old.vm.objects ≤ length self.new.vm.objects) }
    {
        self.drive(&Drive::Send(generator, value), turns)
    }

    /// Closes a generator, in at most so many turns: its finallies run, if it has some that wait.
    pub(crate) fn close(
        &mut self,
        generator: PyObjectRef,
        turns: u64,
    ) -> Result<DriveAnswer, HostFault>
        requires ready { IsReady self.old }
        requires there { generator.number < length self.old.vm.objects }
        ensures { OnOk result (IsReady self.new) }
    {
        self.drive(&Drive::Close(generator), turns)
    }

    /// All that happened.
    pub(crate) fn finish(self) -> Journal {
        let Host {
            alloc: _,
            vm,
            function: _,
        } = self;
        vm.journal()
    }
}
