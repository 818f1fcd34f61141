//! Raises.

ghost use Rattle.py_frame.specs.Cores.{CanDo, Does};
ghost use Rattle.py_frame.specs.UnitRows.{causes_with, raises_on, raises_as};

use crate::executing::ExecutingFrame;
use crate::objects::as_exception;
use crate::unit_step::UnitStep;
use py_code::RaiseKind;
use py_objects::{PyObjectRef, Request};
use py_rows::UnwindReason;
use py_stack::ValueStack;

impl<S: ValueStack> ExecutingFrame<S> {
    /// Asks for the exception that is raised, or first for what its cause makes.
    pub(crate) fn raises(&mut self, kind: u32) -> UnitStep
        requires safe { CanDo S.seen (raises_as kind) self.old }
        ensures { Does S.seen (raises_as kind) self.old self.new result }
    {
        let Ok(kind) = RaiseKind::try_from(kind) else {
            unreachable!();
        };
        match kind {
            RaiseKind::Reraise => self.asks(Request::Handled),
            RaiseKind::Raise => {
                let value = self.stack.pop();
                self.asks(Request::Raisable(value))
            }
            RaiseKind::RaiseCause => {
                let cause = self.stack.pop();
                self.asks(Request::Cause(cause))
            }
        }
    }

    /// Raises what was asked for, or asks on with the cause known.
    pub(crate) fn raised(&mut self, kind: u32, value: PyObjectRef) -> UnitStep
        requires safe { CanDo S.seen (raises_on kind value) self.old }
        ensures { Does S.seen (raises_on kind value) self.old self.new result }
    {
        let Ok(kind) = RaiseKind::try_from(kind) else {
            unreachable!();
        };
        match kind {
            RaiseKind::Reraise | RaiseKind::Raise => {
                self.unwind(UnwindReason::Raising(as_exception(value)))
            }
            RaiseKind::RaiseCause => self.causes(value),
        }
    }

    /// Asks for the exception behind its cause, and raises it.
    fn causes(&mut self, value: PyObjectRef) -> UnitStep
        requires safe { CanDo S.seen (causes_with value) self.old }
        ensures { Does S.seen (causes_with value) self.old self.new result }
    {
        if self.core.phase() == 0 {
            let raised = self.stack.pop();
            self.core.next_phase();
            return self.asks(Request::Raisable(raised));
        }
        self.unwind(UnwindReason::Raising(as_exception(value)))
    }
}
