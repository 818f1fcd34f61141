//! Frames as their callers have them.

ghost use Rattle.std.specs.Prelude.{ℕ, ◌≡◌, ◌≤◌, [], length, slice_set, Some, IfOk};
ghost use Rattle.py_objects.specs.Growth.{GrowsPlainly};
ghost use Rattle.py_stack.specs.Slots.{top_of};
ghost use Rattle.py_check.specs.Depths.{deepest};
ghost use Rattle.py_rows.specs.Below.{HearsBelow, TellsBelow};
ghost use Rattle.py_rows.specs.declared.expect.Expect.TheVariants as expect;
ghost use Rattle.py_frame.specs.Added.{AddsConstants, ClassesAreThere};
ghost use Rattle.py_frame.specs.Exits.{TellsExit};
ghost use Rattle.py_frame.specs.Frames.{handed, line_at, with_locals, HasEntry, IsUnfilled};
ghost use Rattle.py_frame.specs.Steps.{KeepsFirst, NamesHandled, events, expected, heard, hearing};
ghost use Rattle.py_rows.specs.Laws.{AllMayTell};
ghost use Rattle.py_frame.specs.Running.{GoesOn, IsRunning, MayTake, IsSame, SlotFits, told_by};

use crate::executing::ExecutingFrame;
use crate::filled::Filled;
use crate::frame_core::FrameCore;
use crate::input::{FrameStep, Input};
use crate::scene::Scene;
use py_check::CheckedCode;
use py_code::{NoMemory, OpArgState};
use py_objects::{FrameRef, ObjList, PyBaseExceptionRef, PyObjectRef, Scope, Store};
use py_rows::Expect;
use py_stack::{ExceptionStack, ValueStack};
use std::alloc::Global;
use std::marker::Model;

/// What a frame is made for, beside its code (CPython's PyFrameConstructor).
#[derive(Drop)]
pub struct FrameConstructor {
    /// The number of its code among the codes of the run.
    pub number: usize,
    /// The object that stands for it.
    pub entry: FrameRef,
    pub scope: Scope,
    /// The cells of the bodies around.
    pub closure: ObjList,
}

/// A running code with its stack. It takes memory when it is made, and none later except for what its units ask.
#[derive(Drop)]
pub struct Frame<S: ValueStack> {
    executing: ExecutingFrame<S>,
}

impl<S: ValueStack> Model for Frame<S> {
    ghost use Rattle.py_frame.specs.Frames.{Framed, over};

    ghost Value = { Framed };

    ghost view = { λ f. over f.executing.core (S.seen f.executing.stack) };
}

impl<S: ValueStack + Drop> Frame<S> {
    /// A frame of a code. It hasn't begun, and its locals are unset. No cells are made yet.
    #[tactic(auto, using(crate::proofs::Filling::filled_next))]
    pub fn new(
        alloc: Global,
        store: &mut Store,
        code: &CheckedCode,
        constructor: FrameConstructor,
        stack: S,
    ) -> Result<Frame<S>, NoMemory>
        requires entry { HasEntry store.old.made constructor }
        requires cells { length constructor.closure ≡ length code.now.code.code.freevars.items }
        requires empty { (S.seen stack).list ≡ [] }
        requires room { code.now.code.code.max_stackdepth ≤ (S.seen stack).room }
        ensures frame { IfOk result (IsUnfilled code.now constructor (S.seen stack).room) }
        ensures blocks { IfOk result (λ made. deepest code.now.notes ≤ made.block_room) }
        ensures store { store.new ≡ store.old }
    {
        let mut locals = Vec::new(alloc);
        for _ in 0..code.code().code.varnames.len() {
            locals.push(None)?;
        }
        let FrameConstructor {
            number,
            entry,
            scope,
            closure,
        } = constructor;
        let core = FrameCore {
            at: 0,
            lasti: 0,
            prefix: OpArgState::new(),
            blocks: Vec::with_capacity(alloc, code.block_depth())?,
            locals,
            slot: None,
            phase: 0,
            wants: Expect::Start,
            number,
            entry,
            scope,
            closure,
        };
        Ok(Frame {
            executing: ExecutingFrame { core, stack },
        })
    }

    /// Gives a frame that hasn't begun its first locals. No cells take arguments over yet.
    pub fn fill(&mut self, store: &mut Store, code: &CheckedCode, locals: Filled)
        requires fresh { self.old.state.wants ≡ expect.Start }
        requires all { length locals ≡ length self.old.state.locals }
        ensures frame { self.new ≡ with_locals locals self.old }
        ensures store { store.new ≡ store.old }
    {
        self.executing.core.locals = locals.into_vec();
    }

    /// Takes an input, by which a step goes on. A frame that hasn't begun takes the slot over, a later one has it as it left
    /// it; one that has ended stays so.
    pub fn hear(&mut self, slot: Option<PyBaseExceptionRef>, input: Input)
        ensures { self.new ≡ record self.old { state = hearing slot input self.old.state } }
    {
        self.executing.core.hear(slot, input);
    }

    /// Takes an input, and runs units until one tells an event. A constant that is loaded is a new object. Where memory
    /// runs out the frame has ended. Of the slots it works on the top one alone.
    pub fn step(
        &mut self,
        scene: &Scene<'_>,
        store: &mut Store,
        slots: &mut ExceptionStack,
        input: Input,
    ) -> FrameStep
        requires running { IsRunning store.old.made scene.now.names scene.now.code self.old }
        // The class of each exception is an object that is there, since an exit may be told it.
        requires classes { ClassesAreThere store.old.made }
        // The top slot is as the frame's last step left it, before the first step any.
        requires slots { SlotFits store.old.made self.old.state (top_of slots.old) }
        // The input is one that the frame expects: an answer is as it was wanted. It names objects. Here and below, k is
        // whatever number its event has in the journal.
        requires expected { MayTake store.old.made scene.now self.old input }
        requires named { (k : ℕ) → HearsBelow (length store.old.made) (events (heard k input)) }
        // The run so far goes on, by what was heard and the one event that is told.
        ensures extends { GoesOn store.new.made scene.now slots.old self.old input result self.new }
        ensures expects { self.new.state.wants ≡ expected result }
        ensures own { NamesHandled self.new.state result }
        // What is asked, the instruction of its unit may ask; only YieldValue yields; a raise is one of an exception.
        ensures may { AllMayTell store.new.made scene.now.code.code (told_by self.new result) }
        ensures told { TellsBelow (length store.new.made) (told_by self.new result) }
        // Where an exit is asked that is told an exception, its traceback is what the store says of that exception: the one
        // that it has, where that is a traceback, and else a None.
        ensures traceback { TellsExit store.old store.new result }
        // The top slot holds what the frame's has, and those below are as they were.
        ensures slot { top_of slots.new ≡ self.new.state.slot }
        ensures slots { slots.new ≡ slice_set slots.old 0 self.new.state.slot }
        // What the top slot held when the frame was entered it holds again where the frame has ended, also where memory ran out.
        ensures given_back { KeepsFirst (handed (top_of slots.old) self.old.state) self.new.state }
        // The frame runs as before, or has ended.
        ensures running { IsRunning store.new.made scene.now.names scene.now.code self.new }
        ensures same { IsSame self.old self.new }
        // Also where memory ran out, nothing was declared, and nothing changed. What came are objects of constants, so the
        // classes of exceptions are still there.
        ensures objects { GrowsPlainly store.old.made store.new.made }
        ensures constants { AddsConstants store.old.made store.new.made }
        ensures classes { ClassesAreThere store.new.made }
        ensures unchanged { store.new ≡ record store.old { made = store.new.made } }
    {
        let slot = slots.current_exception();
        let step = self.executing.step(scene, store, slot, input);
        slots.set_exception(self.executing.core.slot());
        step
    }

    /// Which input the frame expects.
    pub fn expects(&self) -> Expect
        ensures { result ≡ self.now.state.wants }
    {
        self.executing.core.expects()
    }

    /// The place behind the last unit that was begun, 0 where none was.
    pub fn lasti(&self) -> u32
        ensures { result ≡ self.now.state.last }
    {
        self.executing.core.lasti
    }

    /// The line of the last unit that was begun, at first that of the first unit.
    pub fn current_location(&self, code: &CheckedCode) -> u32
        requires { self.now.state.last ≤ length code.now.code.code.instructions.items }
        ensures { line_at code.now self.now ≡ Some result }
    {
        code.code().code.locations[self.lasti().saturating_sub(1) as usize]
    }

    /// The line that the frame is at, as `current_location` says it.
    pub fn f_lineno(&self, code: &CheckedCode) -> u32
        requires { self.now.state.last ≤ length code.now.code.code.instructions.items }
        ensures { line_at code.now self.now ≡ Some result }
    {
        self.current_location(code)
    }

    /// The number of the frame's code among the codes of the run.
    pub fn f_code(&self) -> usize
        ensures { result ≡ self.now.code }
    {
        self.executing.core.number
    }

    /// The object that stands for the frame.
    pub fn entry(&self) -> FrameRef
        ensures { result ≡ self.now.entry }
    {
        self.executing.core.entry
    }

    /// The dict of the frame's globals.
    pub fn f_globals(&self) -> PyObjectRef
        ensures { result ≡ self.now.scope.globals }
    {
        self.executing.core.globals()
    }
}
