//! The core of a frame: all of it except its stack.

ghost use Rattle.std.specs.Prelude.{◌≡◌, ◌+◌, ◌^◌, ◌<◌};
ghost use Rattle.py_rows.specs.States.{begun, landed, next, waiting};
ghost use Rattle.py_frame.specs.Frames.{handed, next_phase, with_prefix};
ghost use Rattle.py_frame.specs.Steps.{hearing};

mod blocks;
mod getters;

use crate::input::Input;
use py_code::{OpArg, OpArgState};
use py_objects::{FrameRef, GotAnswer, ObjList, PyBaseExceptionRef, PyObjectRef, Scope};
use py_rows::{Block, Expect};
use std::marker::Model;

/// A running code without its stack, seen as a frame whose stack is empty and has no places. It takes memory when it is
/// made, and none later.
#[derive(Drop)]
pub(crate) struct FrameCore {
    /// The unit that runs or comes next.
    pub(crate) at: u32,
    /// The place behind the last unit that was begun, 0 where none was.
    pub(crate) lasti: u32,
    /// What the prefixes so far have built.
    pub(crate) prefix: OpArgState,
    /// The open blocks, the innermost last. Places for all that the code needs are there from the beginning.
    pub(crate) blocks: Vec<Block>,
    pub(crate) locals: Vec<Option<PyObjectRef>>,
    /// The exception in the slot: it is handled, by this frame or by one that it shares the slot with.
    pub(crate) slot: Option<PyBaseExceptionRef>,
    /// How many answers the unit that runs has had, where it asks again.
    pub(crate) phase: u32,
    pub(crate) wants: Expect,
    /// The number of the code.
    pub(crate) number: usize,
    /// The object that stands for the frame.
    pub(crate) entry: FrameRef,
    pub(crate) scope: Scope,
    /// The cells of the bodies around.
    pub(crate) closure: ObjList,
}

impl Model for FrameCore {
    ghost use Rattle.std.specs.Prelude.{◌-◌, [], reverse, vec_len, vec_capacity};
    ghost use Rattle.py_frame.specs.Frames.{Framed};

    ghost Value = { Framed };

    ghost view = { λ f. record { state = record { at = f.at; last = f.lasti; prefix = f.prefix; stack = []; blocks = reverse f.blocks.items; locals = f.locals.items; slot = f.slot; phase = f.phase; wants = f.wants }; room = 0; block_room = vec_capacity f.blocks - vec_len f.blocks; code = f.number; entry = f.entry; scope = f.scope; closure = f.closure } };
}

impl FrameCore {
    /// Begins the unit that comes next.
    pub(crate) fn begin(&mut self)
        requires { self.old.state.at + 1 < 2 ^ 32 }
        ensures { self.new ≡ record self.old { state = begun self.old.state } }
    {
        self.lasti = self.at + 1;
        self.phase = 0;
        self.wants = Expect::Go;
    }

    /// The unit that runs had one more answer.
    pub(crate) fn next_phase(&mut self)
        requires { self.old.state.phase + 1 < 2 ^ 32 }
        ensures { self.new ≡ record self.old { state = next_phase self.old.state } }
    {
        self.phase += 1;
    }

    /// Goes behind the unit that runs.
    pub(crate) fn goes_on(&mut self)
        requires { self.old.state.at + 1 < 2 ^ 32 }
        ensures { self.new ≡ record self.old { state = next self.old.state } }
    {
        self.at += 1;
        self.prefix.reset();
    }

    /// Keeps an argument for the next unit.
    pub(crate) fn keeps(&mut self, arg: OpArg)
        ensures { self.new ≡ record self.old { state = with_prefix arg.0 self.old.state } }
    {
        self.prefix = OpArgState::of(arg);
    }

    /// Goes on in front of the unit at a label.
    pub(crate) fn lands(&mut self, label: u32)
        ensures { self.new ≡ record self.old { state = landed label self.old.state } }
    {
        self.at = label;
        self.prefix.reset();
    }

    /// Waits for an input.
    pub(crate) fn waits(&mut self, wants: Expect)
        ensures { self.new ≡ record self.old { state = waiting wants self.old.state } }
    {
        self.wants = wants;
    }

    /// Puts this exception in the slot, or none.
    pub(crate) fn handles(&mut self, slot: Option<PyBaseExceptionRef>)
        ensures { self.new ≡ record self.old { state = handed slot self.old.state } }
    {
        self.slot = slot;
    }

    /// Takes an input. A frame that hasn't begun takes the slot over; one that has ended stays so.
    pub(crate) fn hear(&mut self, slot: Option<PyBaseExceptionRef>, input: Input)
        ensures { self.new ≡ record self.old { state = hearing slot input self.old.state } }
    {
        match self.expects() {
            Expect::Start => self.handles(slot),
            Expect::Ended => return,
            Expect::Go | Expect::Answer(_) | Expect::Resume | Expect::Heard(_) => {}
        }
        match input {
            Input::Start => self.waits(Expect::Go),
            Input::Go => {}
            Input::Send(value) => self.waits(Expect::Heard(GotAnswer::Value(value))),
            Input::Throw(exception) => self.waits(Expect::Heard(GotAnswer::Raise(exception))),
            Input::Answer(answer) => self.waits(Expect::Heard(answer.got())),
        }
    }
}
