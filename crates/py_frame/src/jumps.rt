//! Jumps that depend on a truth value.

ghost use Rattle.std.specs.Prelude.{◌+◌, ◌^◌, ◌<◌};
ghost use Rattle.py_rows.specs.Receiving.{jumps_if};
ghost use Rattle.py_rows.specs.Rows.{asks_truth};
ghost use Rattle.py_frame.specs.Cores.{CanDo, Does};

use crate::executing::ExecutingFrame;
use crate::unit_step::UnitStep;
use py_objects::Request;
use py_stack::ValueStack;

impl<S: ValueStack> ExecutingFrame<S> {
    /// Asks for the truth of the top, by which it will jump or not.
    pub(crate) fn asks_truth(&mut self) -> UnitStep
        requires safe { CanDo S.seen asks_truth self.old }
        ensures { Does S.seen asks_truth self.old self.new result }
    {
        let value = self.stack.pop();
        self.asks(Request::Truth(value))
    }

    /// Jumps to a label, or goes on behind the jump.
    pub(crate) fn jumps_if(&mut self, jumps: bool, label: u32) -> UnitStep
        requires next { self.old.core.state.at + 1 < 2 ^ 32 }
        ensures { Does S.seen (jumps_if jumps label) self.old self.new result }
    {
        if jumps {
            return self.transfers(label);
        }
        self.core.goes_on();
        UnitStep::Goes
    }
}
