//! Calls by which a host has what an exception says written to a sink, each by a drive of its own.

ghost use Rattle.std.specs.Prelude.{◌≡◌, Some, false, IfOk};
ghost use Rattle.py_run.specs.declared.drive.Told.TheVariants.{Report, Part, Exit as Exits};
ghost use Rattle.py_vm.specs.Printing.{ending_status, Tells, Writes};

use crate::fault::ReportFault;
use crate::vm::VirtualMachine;
use py_objects::PyBaseExceptionRef;
use py_outside::{Sink, write_bytes};
use py_reports::Sources;
use py_run::{Exit, Told};

impl VirtualMachine {
    /// Writes the report of an exception, in the form in which CPython prints it (Python Library Reference, traceback). Its tracebacks quote lines
    /// of these source texts.
    ///
    /// Like each call here it makes one drive of two events, so two turns are enough; with fewer the machine has failed. The text is made whole
    /// before its first byte is written. With `WriteFault` the sink may have taken a beginning of it, and the drive has its result. With `Vm`
    /// nothing was written.
    pub fn print_exception<K: Sink>(
        &mut self,
        sink: &mut K,
        sources: &Sources,
        exc: PyBaseExceptionRef,
        turns: u64,
    ) -> Result<(), ReportFault>
        ensures tells { Tells (Report (Some exc)) sources.now turns self.old self.new result }
        ensures written { Writes self.new.events (K.seen sink.old) (K.seen sink.new) result }
    {
        self.write_exception(sink, sources, exc, turns)
    }

    /// Writes the report of an exception: the same as `print_exception`.
    pub fn write_exception<K: Sink>(
        &mut self,
        sink: &mut K,
        sources: &Sources,
        exc: PyBaseExceptionRef,
        turns: u64,
    ) -> Result<(), ReportFault>
        ensures tells { Tells (Report (Some exc)) sources.now turns self.old self.new result }
        ensures written { Writes self.new.events (K.seen sink.old) (K.seen sink.new) result }
    {
        self.write(sink, sources, Told::Report(Some(exc)), turns)
    }

    /// Writes what the report says of an exception alone: its traceback and its last line. Turns and faults are those of `print_exception`.
    pub fn write_exception_inner<K: Sink>(
        &mut self,
        sink: &mut K,
        sources: &Sources,
        exc: PyBaseExceptionRef,
        turns: u64,
    ) -> Result<(), ReportFault>
        ensures tells { Tells (Part exc) sources.now turns self.old self.new result }
        ensures written { Writes self.new.events (K.seen sink.old) (K.seen sink.new) result }
    {
        self.write(sink, sources, Told::Part(exc), turns)
    }

    /// Writes what is printed where an exception ends a program, and answers the status of the program (Python Library Reference, SystemExit).
    /// Which ends there are, `Exit` says. Turns and faults are those of `print_exception`.
    pub fn handle_exit_exception<K: Sink>(
        &mut self,
        sink: &mut K,
        sources: &Sources,
        exc: PyBaseExceptionRef,
        turns: u64,
    ) -> Result<u8, ReportFault>
        ensures tells { Tells (Exits exc) sources.now turns self.old self.new result }
        ensures written { Writes self.new.events (K.seen sink.old) (K.seen sink.new) result }
        ensures status { IfOk result (λ status. status ≡ ending_status self.old exc) }
    {
        let status = self.exit_status(exc);
        self.write(sink, sources, Told::Exit(exc), turns)?;
        Ok(status)
    }

    /// The status of a program that an exception ends, by the objects as they are.
    fn exit_status(&self, exc: PyBaseExceptionRef) -> u8
        ensures { self.now.failed ≡ false → result ≡ ending_status self.now exc }
    {
        Exit::of(self.core.world.store.objects(), exc).status()
    }

    /// Tells a text, which is made whole before its first byte is written, and writes it.
    fn write<K: Sink>(
        &mut self,
        sink: &mut K,
        sources: &Sources,
        told: Told,
        turns: u64,
    ) -> Result<(), ReportFault>
        ensures tells { Tells told sources.now turns self.old self.new result }
        ensures written { Writes self.new.events (K.seen sink.old) (K.seen sink.new) result }
    {
        let said = self.tell(told, sources, turns)?;
        match write_bytes(sink, said.bytes.as_bytes()) {
            Ok(()) => Ok(()),
            Err(_) => Err(ReportFault::WriteFault),
        }
    }
}
