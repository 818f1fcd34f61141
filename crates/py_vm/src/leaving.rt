//! Activations that were left, and what those are answered that entered them.

ghost use Rattle.std.specs.Prelude.{◌≡◌, ◌≤◌, length, IfOk, OnErr};
ghost use Rattle.py_answers.specs.Replying.{IsGenerator};
ghost use Rattle.py_run.specs.Drives.{request_of};
ghost use Rattle.py_vm.specs.Generators.{generator_asked, IsRunningNow};
ghost use Rattle.py_vm.specs.Stands.{IsEnding, IsStored};
ghost use Rattle.py_vm.specs.Turns.{left_of, own_slot, passed, popped, EntersAs, Finished, Halts, SettledOne};
ghost use Rattle.py_vm.specs.Ready.{CanFinish, FirstAsks, HasOwnSlot};

use crate::frames::FrameList;
use crate::machinery::Core;
use crate::reply::Reply;
use crate::stage::{Running, Stage, Suspended};
use py_code::NoMemory;
use py_coro::{CoroAnswer, CoroEnd, converted, ignored};
use py_exceptions::{new_exception, new_exception_from};
use py_objects::{CoroKind, DriveAnswer, Event, PyBaseExceptionRef, PyObjectRef, Request};
use py_run::Question;
use std::mem;

impl Core {
    /// The activation is left like this: its frame is taken off, and its own slot, where it has one.
    pub(crate) fn leave(&mut self, running: Running, how: CoroEnd)
        requires { HasOwnSlot running.kind self.old.slots }
        ensures { self.new ≡ left_of self.old running how }
    {
        let mut frames = mem::replace(
            &mut self.frames,
            FrameList::new(self.world.alloc),
        ).into_vec();
        frames.pop();
        self.frames = FrameList::of(frames);
        let slot = self.pop_slot(running.kind);
        self.set_stage(Stage::Due(Suspended { running, slot }, how));
    }

    /// Takes off the slot of an activation of this kind, if that has its own.
    fn pop_slot(&mut self, kind: Option<CoroKind>) -> Option<PyBaseExceptionRef>
        requires { HasOwnSlot kind self.old.slots }
        ensures slot { result ≡ own_slot kind self.old.slots }
        ensures popped { self.new ≡ record self.old { slots = popped kind self.old.slots } }
    {
        match kind {
            None => None,
            Some(_) => self.slots.pop_exception(),
        }
    }

    /// An activation was left: who entered it gets the answer.
    pub(crate) fn finish(
        &mut self,
        drive: &Question,
        left: Suspended,
        how: CoroEnd,
    ) -> Result<Option<DriveAnswer>, NoMemory>
        requires done { self.old.done ≤ length self.old.events }
        requires can { CanFinish self.old drive.now how }
        ensures ok { IfOk result (λ answer. Finished self.old drive.now left how answer self.new) }
        ensures err { OnErr result (Halts self.old self.new) }
    {
        match self.generator_entered(drive) {
            None => self.reply(passed(how)),
            Some(generator) => {
                let reply = self.settle(generator, left, how)?;
                self.reply(reply)
            }
        }
    }

    /// The generator that the open question has entered, if it has entered one.
    fn generator_entered(&self, drive: &Question) -> Option<PyObjectRef>
        requires { FirstAsks self.now.world self.now.events self.now.callers }
        ensures { EntersAs self.now drive.now result }
    {
        let Some(halted) = self.callers.last() else {
            return generator_of(drive);
        };
        let Some(Event::Ask { request, .. }) = self.events.get(halted.place) else {
            unreachable!();
        };
        generator_asked(request)
    }

    /// What the generator answers whose activation was left like this (Python Language Reference, 6.2.9.1; PEP 479). One that may be entered again
    /// keeps its activation.
    fn settle(
        &mut self,
        object: PyObjectRef,
        left: Suspended,
        how: CoroEnd,
    ) -> Result<Reply, NoMemory>
        requires stored { IsStored self.old }
        requires ending { IsEnding self.old.world.store.made how }
        requires runs { IsRunningNow self.old.world.generators object }
        requires generator { IsGenerator self.old.world.store.made object }
        ensures ok { IfOk result (λ reply. SettledOne self.old object left how reply self.new) }
        ensures err { OnErr result (Halts self.old self.new) }
    {
        let kind = self.world.generator_kind(object);
        match self
            .world
            .generators
            .finish(object, &self.world.store, left, how)
        {
            CoroAnswer::Value(value) => Ok(Reply::Yields(value)),
            CoroAnswer::Stop(value) => Ok(Reply::Stops(value)),
            CoroAnswer::Closed => Ok(Reply::Closes),
            CoroAnswer::Raise(exception) => Ok(Reply::Passed(exception)),
            CoroAnswer::Convert(cause, stop) => {
                let fault = converted(self.world.alloc, kind, stop)?;
                let exception = new_exception_from(
                    &mut self.world.store,
                    &self.world.zoo,
                    &fault,
                    cause,
                )?;
                Ok(Reply::Fresh(exception))
            }
            CoroAnswer::Ignored => {
                let fault = ignored(self.world.alloc, kind)?;
                let exception = new_exception(&mut self.world.store, &self.world.zoo, &fault)?;
                Ok(Reply::Fresh(exception))
            }
        }
    }
}

/// The generator that a request is to enter, if it is one that does.
fn generator_asked(request: &Request) -> Option<PyObjectRef>
    ensures { result ≡ generator_asked request.now }
{
    match request {
        Request::Send(generator, _) => Some(*generator),
        Request::Throw(generator, ..) => Some(*generator),
        Request::Close(generator) => Some(*generator),
        _ => None,
    }
}

/// The same of a drive.
fn generator_of(drive: &Question) -> Option<PyObjectRef>
    ensures { result ≡ generator_asked (request_of drive.now) }
{
    match drive {
        Question::Call(..) => None,
        Question::Send(generator, _) => Some(*generator),
        Question::Throw(generator, ..) => Some(*generator),
        Question::Close(generator) => Some(*generator),
    }
}

/// How a call is answered whose function's activation was left like this.
fn passed(how: CoroEnd) -> Reply
    ensures { result ≡ passed how }
{
    match how {
        CoroEnd::Yield(value) => Reply::Yields(value),
        CoroEnd::Return(value) => Reply::Value(value),
        CoroEnd::Raise(exception) => Reply::Passed(exception),
    }
}
