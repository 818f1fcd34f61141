//! Instructions that ask, yield and return.

ghost use Rattle.py_rows.specs.Rows.{asks, return_value, yield_value};
ghost use Rattle.py_frame.specs.Cores.{CanDo, Does};

use crate::executing::ExecutingFrame;
use crate::input::FrameStep;
use crate::unit_step::UnitStep;
use crate::wanted::wanted;
use py_objects::Request;
use py_rows::{Expect, UnwindReason};
use py_stack::ValueStack;

impl<S: ValueStack> ExecutingFrame<S> {
    /// Asks from the unit that runs.
    pub(crate) fn asks(&mut self, request: Request) -> UnitStep
        ensures { Does S.seen (asks request) self.old self.new result }
    {
        let own = self.core.handled();
        self.core.waits(Expect::Answer(wanted(&request)));
        UnitStep::Tells(FrameStep::Ask(request, own))
    }

    /// Yields the top.
    pub(crate) fn yield_value(&mut self) -> UnitStep
        requires { CanDo S.seen yield_value self.old }
        ensures { Does S.seen yield_value self.old self.new result }
    {
        let value = self.stack.pop();
        self.core.waits(Expect::Resume);
        UnitStep::Tells(FrameStep::Yield(value))
    }

    /// Returns the top.
    pub(crate) fn return_value(&mut self) -> UnitStep
        requires { CanDo S.seen return_value self.old }
        ensures { Does S.seen return_value self.old self.new result }
    {
        let value = self.stack.pop();
        self.unwind(UnwindReason::Returning(value))
    }
}
