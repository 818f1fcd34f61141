//! Activations that are made and entered.

ghost use Rattle.std.specs.Prelude.{◌≡◌, ◌≤◌, length, IfOk, OnOk, OnErr};
ghost use Rattle.py_objects.specs.Objects.{IsFunction};
ghost use Rattle.py_answers.specs.Readable.{IsReadable};
ghost use Rattle.py_vm.specs.Holds.{AreRunnable};
ghost use Rattle.py_vm.specs.Turns.{entered_by, input_of, CreatesOne, Halts, IsResumable, MadeOne, MakesFresh, ResumedOne, StartedOne};
ghost use Rattle.py_vm.specs.Ready.{AsksNoRaise, CanReply, FirstAsks};

use crate::calls::kind_of;
use crate::generators::KeptGenerator;
use crate::machinery::Core;
use crate::raising::Raising;
use crate::reading::function_body;
use crate::reply::Reply;
use crate::stage::{Running, Stage, Suspended};
use py_code::{NoMemory, PyCode};
use py_coro::Coro;
use py_frame::{Frame, FrameConstructor, Input, OwnStack, positional};
use py_objects::{
    CoroBody, CoroKind, DriveAnswer, Event, FrameRef, ObjList, Payload, PyObjectRef, ResumeHow,
    Scope,
};
use std::alloc::Global;

impl Core {
    /// An activation of the function is made.
    pub(crate) fn make(&mut self, function: PyObjectRef, args: ObjList) -> Result<(), NoMemory>
        requires counted { self.old.made ≤ length self.old.events }
        requires readable { IsReadable self.old.world.store }
        requires runnable { AreRunnable self.old.world.codes self.old.world.store.made }
        requires callee { IsFunction self.old.world.store.made function }
        ensures ok { OnOk result (MadeOne self.old function args self.new) }
        ensures err { OnErr result (Halts self.old self.new) }
    {
        // A list's length has 63 bits, so the count of activations doesn't pass its end.
        let _events = self.events.as_slice().len();
        let act = self.made + 1;
        let running = self.fresh(act, function, &args)?;
        self.set_stage(Stage::Made(running, function));
        self.events.push(Event::Make {
            act,
            function,
            args,
        })?;
        self.made = act;
        Ok(())
    }

    /// The activation that was made is entered, or becomes a generator (Python Language Reference, 6.2.9), which answers its function's call.
    pub(crate) fn start(
        &mut self,
        running: Running,
        function: PyObjectRef,
    ) -> Result<Option<DriveAnswer>, NoMemory>
        requires done { self.old.done ≤ length self.old.events }
        requires can { CanReply self.old }
        requires function { IsFunction self.old.world.store.made function }
        requires first { FirstAsks self.old.world self.old.events self.old.callers }
        requires no_raise { AsksNoRaise self.old.events self.old.callers }
        ensures ok { IfOk result (StartedOne self.old running function self.new) }
        ensures err { OnErr result (Halts self.old self.new) }
    {
        match running.kind {
            None => {
                self.enter(running)?;
                Ok(None)
            }
            Some(kind) => {
                let object = self.create(running, function, kind)?;
                self.reply(Reply::Value(object))
            }
        }
    }

    /// The activation of a function is entered.
    fn enter(&mut self, running: Running) -> Result<(), NoMemory>
        ensures ok { OnOk result (self.new ≡ entered_by self.old running) }
        ensures err { OnErr result (Halts self.old self.new) }
    {
        let act = running.act;
        let entry = running.frame.entry();
        let mut going = running;
        going
            .frame
            .hear(self.slots.current_exception(), Input::Start);
        self.set_stage(Stage::Going(going));
        self.frames.push(entry)?;
        self.events.push(Event::Resume {
            act,
            how: ResumeHow::Start,
        })?;
        Ok(())
    }

    /// The activation becomes a generator, whose object is new.
    fn create(
        &mut self,
        running: Running,
        function: PyObjectRef,
        kind: CoroKind,
    ) -> Result<PyObjectRef, NoMemory>
        requires can { CanReply self.old }
        requires function { IsFunction self.old.world.store.made function }
        ensures ok { IfOk result (CreatesOne self.old running function kind self.new) }
        ensures err { OnErr result (Halts self.old self.new) }
    {
        let body = function_body(&self.world.store, function);
        let Some(code) = self.world.codes.get(body.code) else {
            unreachable!();
        };
        let act = running.act;
        let generator = Coro::new(running.frame.entry(), code.code().co_name(), kind);
        let name = body.name.copy(self.world.alloc)?;
        let object = self.world.store.add(Payload::Generator(CoroBody {
            activation: act,
            name,
            kind,
        }))?;
        self.world.generators.push(KeptGenerator {
            object,
            act,
            generator,
            suspended: Some(Suspended {
                running,
                slot: None,
            }),
        })?;
        Ok(object)
    }

    /// The activation of this object's generator is entered like this, over a slot of its own.
    pub(crate) fn resume(&mut self, object: PyObjectRef, how: ResumeHow) -> Result<(), NoMemory>
        requires { IsResumable self.old.world.generators object }
        ensures ok { OnOk result (ResumedOne self.old object how self.new) }
        ensures err { OnErr result (Halts self.old self.new) }
    {
        let Some(suspended) = self.world.generators.take(object) else {
            unreachable!();
        };
        let Suspended { running, slot } = suspended;
        let act = running.act;
        let entry = running.frame.entry();
        let mut going = running;
        going.frame.hear(slot, input_of(how));
        self.raising = Raising::by_throw(how);
        self.set_stage(Stage::Going(going));
        self.frames.push(entry)?;
        self.slots.push_exception(slot)?;
        self.events.push(Event::Resume { act, how })?;
        Ok(())
    }

    /// An activation of a function, which hasn't begun, with its frame's object.
    fn fresh(
        &mut self,
        act: u64,
        function: PyObjectRef,
        args: &ObjList,
    ) -> Result<Running, NoMemory>
        requires readable { IsReadable self.old.world.store }
        requires runnable { AreRunnable self.old.world.codes self.old.world.store.made }
        requires callee { IsFunction self.old.world.store.made function }
        ensures ok { IfOk result (MakesFresh self.old act function args.now self.new) }
        ensures err { OnErr result (Halts self.old self.new) }
    {
        let body = function_body(&self.world.store, function);
        let number = body.code;
        let Some(code) = self.world.codes.get(number) else {
            unreachable!();
        };
        let object = self.world.store.add(Payload::Frame(number as u64))?;
        let entry = FrameRef {
            number: object.number,
        };
        let scope = Scope::new(None, self.globals);
        // Before the frame is made, which would else be dropped where memory runs out here.
        let locals = positional(self.world.alloc, code, args)?;
        let closure = no_cells(self.world.alloc, code.code(), self.world.store.none())?;
        let stack = OwnStack::new(self.world.alloc, code.code().co_stacksize() as usize)?;
        let constructor = FrameConstructor {
            number,
            entry,
            scope,
            closure,
        };
        let mut frame = Frame::new(
            self.world.alloc,
            &mut self.world.store,
            code,
            constructor,
            stack,
        )?;
        frame.fill(&mut self.world.store, code, locals);
        Ok(Running {
            act,
            frame,
            kind: kind_of(code.code()),
        })
    }
}

/// What a frame is told that is entered like this.
fn input_of(how: ResumeHow) -> Input
    ensures { result ≡ input_of how }
{
    match how {
        ResumeHow::Start => Input::Start,
        ResumeHow::Send(value) => Input::Send(value),
        ResumeHow::Throw(exception) => Input::Throw(exception),
    }
}

/// What stands for the cells of a code's free names, which nothing reads yet: None for each.
fn no_cells(alloc: Global, code: &PyCode, none: PyObjectRef) -> Result<ObjList, NoMemory>
    ensures { IfOk result (λ cells. length cells ≡ length code.now.code.freevars.items) }
{
    let mut cells = ObjList::new(alloc);
    for _ in 0..code.code.freevars.len() {
        cells.push(none)?;
    }
    Ok(cells)
}
