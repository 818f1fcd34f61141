//! Managers that are left.

ghost use Rattle.std.specs.Prelude.{◌≡◌, ◌+◌, ◌^◌, ◌<◌, IfOk, OnErr};
ghost use Rattle.py_rows.specs.Rows.{finish_cleanup, finishes};
ghost use Rattle.py_frame.specs.Added.{AddsConstants, ClassesAreThere};
ghost use Rattle.py_frame.specs.Cores.{CanDo, CanMove, Does, IsUnchanged, MayDo};
ghost use Rattle.py_frame.specs.Exits.{UnitTellsExit};
ghost use Rattle.py_frame.specs.UnitRows.{passes_top, starts_cleanup, tells_exit};

use crate::executing::ExecutingFrame;
use crate::exits::exit_arguments;
use crate::objects::{as_exception, as_object};
use crate::unit_step::UnitStep;
use py_code::NoMemory;
use py_objects::{PyObjectRef, Request, Store};
use py_rows::{BlockType, UnwindReason};
use py_stack::ValueStack;

impl<S: ValueStack> ExecutingFrame<S> {
    /// Asks the exit under the innermost block, with the exception that the block holds, or with None.
    pub(crate) fn start_cleanup(&mut self, store: &mut Store) -> Result<UnitStep, NoMemory>
        requires classes { ClassesAreThere store.old.made }
        requires safe { CanMove S.seen store.old starts_cleanup self.old }
        ensures row { IfOk result (MayDo S.seen store.new starts_cleanup self.old self.new) }
        ensures traceback { IfOk result (λ step. UnitTellsExit store.old store.new step) }
        ensures err { OnErr result (IsUnchanged S.seen self.old self.new) }
        ensures objects { AddsConstants store.old.made store.new.made }
        ensures unchanged { store.new ≡ record store.old { made = store.new.made } }
    {
        let raised = self.core.raised_in();
        let (class, exception, traceback) = exit_arguments(store, raised)?;
        Ok(self.asks_exit(class, exception, traceback))
    }

    /// Asks the exit, which is the top, with what it is told.
    fn asks_exit(
        &mut self,
        class: PyObjectRef,
        exception: PyObjectRef,
        traceback: PyObjectRef,
    ) -> UnitStep
        requires { CanDo S.seen (tells_exit class exception traceback) self.old }
        ensures { Does S.seen (tells_exit class exception traceback) self.old self.new result }
    {
        let exit = self.stack.top();
        self.asks(Request::Exit(exit, class, exception, traceback))
    }

    /// Takes off what the exit answered, its block and the exit.
    pub(crate) fn finish_cleanup(&mut self) -> UnitStep
        requires next { self.old.core.state.at + 1 < 2 ^ 32 }
        requires safe { CanDo S.seen finish_cleanup self.old }
        ensures { Does S.seen finish_cleanup self.old self.new result }
    {
        let value = self.stack.pop();
        self.stack.pop();
        let Some(block) = self.core.pop_block() else {
            unreachable!();
        };
        match block.typ {
            BlockType::FinallyHandler { reason, kept } => {
                self.core.handles(kept);
                self.finishes(reason, value)
            }
            _ => unreachable!(),
        }
    }

    /// Asks whether an exception that waited goes on, or goes on with another reason.
    fn finishes(&mut self, reason: Option<UnwindReason>, value: PyObjectRef) -> UnitStep
        requires next { self.old.core.state.at + 1 < 2 ^ 32 }
        requires safe { CanDo S.seen (finishes reason value) self.old }
        ensures { Does S.seen (finishes reason value) self.old self.new result }
    {
        match reason {
            None => {
                self.core.goes_on();
                UnitStep::Goes
            }
            Some(UnwindReason::Raising(exception)) => {
                self.stack.push(as_object(exception));
                self.asks(Request::Truth(value))
            }
            Some(UnwindReason::Returning(value)) => { self.unwind(UnwindReason::Returning(value)) }
            Some(UnwindReason::Break(label)) => self.unwind(UnwindReason::Break(label)),
            Some(UnwindReason::Continue(label)) => { self.unwind(UnwindReason::Continue(label)) }
        }
    }

    /// Lets the exception on the top go no further, or on.
    pub(crate) fn passes_if(&mut self, stops: bool) -> UnitStep
        requires next { self.old.core.state.at + 1 < 2 ^ 32 }
        requires safe { CanDo S.seen (passes_top stops) self.old }
        ensures { Does S.seen (passes_top stops) self.old self.new result }
    {
        let exception = self.stack.pop();
        if stops {
            self.core.goes_on();
            return UnitStep::Goes;
        }
        self.unwind(UnwindReason::Raising(as_exception(exception)))
    }
}
