//! Managers that are entered.

ghost use Rattle.std.specs.Prelude.{◌+◌, ◌^◌, ◌<◌};
ghost use Rattle.py_rows.specs.Receiving.{entered};
ghost use Rattle.py_rows.specs.Rows.{asks_enter};
ghost use Rattle.py_frame.specs.Cores.{CanDo, CanMove, Does, MayDo};
ghost use Rattle.py_frame.specs.UnitRows.{entering};

use crate::executing::ExecutingFrame;
use crate::objects::is_manager;
use crate::unit_step::UnitStep;
use py_objects::{PyObjectRef, Request, Store};
use py_rows::BlockType;
use py_stack::ValueStack;

impl<S: ValueStack> ExecutingFrame<S> {
    /// Asks to enter the manager on the top, which stays.
    pub(crate) fn asks_enter(&mut self) -> UnitStep
        requires safe { CanDo S.seen asks_enter self.old }
        ensures { Does S.seen asks_enter self.old self.new result }
    {
        let manager = self.stack.top();
        self.asks(Request::Enter(manager))
    }

    /// Goes on in the block of the manager that was entered. What is no manager has no exit, which is asked for next.
    pub(crate) fn enters(&mut self, store: &Store, handler: u32, value: PyObjectRef) -> UnitStep
        requires next { self.old.core.state.at + 1 < 2 ^ 32 }
        requires safe { CanMove S.seen store.now (entering handler value) self.old }
        ensures { MayDo S.seen store.now (entering handler value) self.old self.new result }
    {
        let manager = self.stack.top();
        if is_manager(store, manager) {
            return self.entered(handler, value);
        }
        self.core.next_phase();
        self.asks(Request::NoExit(manager))
    }

    /// Opens the block of a manager, whose exit is the top.
    fn entered(&mut self, handler: u32, value: PyObjectRef) -> UnitStep
        requires next { self.old.core.state.at + 1 < 2 ^ 32 }
        requires safe { CanDo S.seen (entered handler value) self.old }
        ensures { Does S.seen (entered handler value) self.old self.new result }
    {
        self.opens(BlockType::Finally { handler });
        self.stack.push(value);
        UnitStep::Goes
    }
}
