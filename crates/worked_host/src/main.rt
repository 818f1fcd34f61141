//! A host of the machine: compiles a function and a generator, loads each, drives it, and prints what the drives came to and all that happened.
#![tactic(auto)]

ghost use Rattle.std.specs.Prelude.{◌<◌, length, OnOk};
ghost use Rattle.worked_host.specs.Host.{IsReady};

mod fault;
mod function;
mod host;
mod print;

use crate::fault::HostFault;
use crate::host::Host;
use crate::print::{print_journal, said_of};
use py_objects::{DriveAnswer, PyObjectRef};
use std::process::ExitCode;

/// How many events a call may add.
const TURNS: u64 = 100;

/// Calls the function with a number, and prints what the call came to.
fn call_number(rt: &HostRuntime, host: &mut Host, number: i128) -> Result<(), HostFault>
    requires { IsReady host.old }
    ensures { OnOk result (IsReady host.new) }
{
    let argument = host.number(number)?;
    let came = said_of(&host.call(argument, TURNS)?);
    println!(rt; "down({number}) {came}")?;
    Ok(())
}

/// Calls the function with a text, and prints what the call came to. A raise is an answer, after which the machine can be
/// driven on.
fn call_text(rt: &HostRuntime, host: &mut Host, text: &str) -> Result<(), HostFault>
    requires { IsReady host.old }
    ensures { OnOk result (IsReady host.new) }
{
    let argument = host.text(text)?;
    let came = said_of(&host.call(argument, TURNS)?);
    println!(rt; "down('{text}') {came}")?;
    Ok(())
}

/// Calls the function with a number and with a text.
fn call_twice(rt: &HostRuntime, host: &mut Host) -> Result<(), HostFault>
    requires { IsReady host.old }
{
    call_number(rt, host, 2)?;
    call_text(rt, host, "two")
}

/// Sends a generator None, by which it begins, and then a number, and closes it. Prints what each drive came to.
fn send_twice(rt: &HostRuntime, host: &mut Host, generator: PyObjectRef) -> Result<(), HostFault>
    requires ready { IsReady host.old }
    requires there { generator.number < length host.old.vm.objects }
    ensures { OnOk result (IsReady host.new) }
{
    let none = host.none()?;
    let came = said_of(&host.send(generator, none, TURNS)?);
    println!(rt; "send(None) {came}")?;
    let number = host.number(5)?;
    let came = said_of(&host.send(generator, number, TURNS)?);
    println!(rt; "send(5) {came}")?;
    let came = said_of(&host.close(generator, TURNS)?);
    println!(rt; "close() {came}")?;
    Ok(())
}

/// Calls the generator function with a number, which makes a generator, and drives that.
fn drive_generator(rt: &HostRuntime, host: &mut Host) -> Result<(), HostFault>
    requires { IsReady host.old }
{
    let argument = host.number(2)?;
    let answer = host.call(argument, TURNS)?;
    println!(rt; "echo(2) {}", said_of(&answer))?;
    match answer {
        DriveAnswer::Returns(generator) => send_twice(rt, host, generator),
        DriveAnswer::Yields(_)
        | DriveAnswer::Stops(_)
        | DriveAnswer::Closes
        | DriveAnswer::Raises(_)
        | DriveAnswer::Reported(_) => Ok(()),
    }
}

fn run(rt: &HostRuntime) -> Result<(), HostFault> {
    let mut host = Host::of_count_down(rt.alloc())?;
    call_twice(rt, &mut host)?;
    print_journal(rt, &host.finish())?;
    let mut host = Host::of_echo(rt.alloc())?;
    drive_generator(rt, &mut host)?;
    print_journal(rt, &host.finish())
}

fn main(rt: HostRuntime) -> ExitCode {
    match run(&rt) {
        Ok(()) => ExitCode::SUCCESS,
        Err(fault) => {
            let _ = eprintln!(rt; "{fault}");
            ExitCode::FAILURE
        }
    }
}
