//! A suspendable activation's state: fresh, suspended, running or closed.

ghost use Rattle.std.specs.Prelude.{◌≡◌, ◌<◌, false, length, chars, IfErr, IfOk, OnErr, OnOk};
ghost use Rattle.py_objects.specs.Objects.{AllFit};
ghost use Rattle.py_objects.specs.declared.refs.PyBaseExceptionRef.{PyBaseExceptionRef as ExceptionNumber};
ghost use Rattle.py_coro.specs.declared.refusal.CoroRefusal.TheVariants as refusal;
ghost use Rattle.py_coro.specs.Modes.{Running, sent, thrown, closed as closing_row};
ghost use Rattle.py_coro.specs.Coros.{is_running, is_closed, behind, begun, entered_at, entry_of, fresh, AreRead, IsShown, left_by, shown};
ghost use Rattle.py_coro.specs.Leaving.{Finishes};
ghost use Rattle.py_coro.specs.Refusals.{word_of};

use crate::leaving::{answer_to, stage_behind};
use crate::refusal::{CoroRefusal, word};
use crate::stage::Stage;
use py_code::{
    NameId, Names, NoMemory, PyText, push_bytes, push_decimal, push_text, text_of, text_of_str,
};
use py_objects::{CoroKind, ErrorKind, FrameRef, PyBaseExceptionRef, PyObjectRef, Store};
use std::alloc::Global;
use std::marker::Model;

/// The most activations that run at once, the host's enters among them.
pub const MOST_DEPTH: usize = 1000;

/// What a send, a throw or a close comes to.
#[derive(Clone, Copy, Debug, PartialEq, Eq)]
pub enum Begin {
    /// It stops, without a value.
    Stop,
    /// This exception is raised.
    Raise(PyBaseExceptionRef),
    /// It is closed.
    Done,
    /// The call is refused, and changes nothing.
    Refused(CoroRefusal),
    /// The frame is entered for the first time.
    EnterStart,
    /// The frame gets the value.
    EnterSend,
    /// The exception is thrown into the frame.
    EnterThrow,
    /// A new GeneratorExit is thrown into the frame.
    EnterExit,
}

/// How an activation was left.
#[derive(Clone, Copy, Debug, PartialEq, Eq)]
pub enum CoroEnd {
    /// It yielded this value.
    Yield(PyObjectRef),
    /// It returned this value.
    Return(PyObjectRef),
    /// This exception came out of it.
    Raise(PyBaseExceptionRef),
}

/// What a call that entered a generator is answered where that was left.
#[derive(Clone, Copy, Debug, PartialEq, Eq)]
pub enum CoroAnswer {
    /// It yielded this value.
    Value(PyObjectRef),
    /// It stops, with this value where it has one.
    Stop(Option<PyObjectRef>),
    /// It is closed.
    Closed,
    /// This exception is raised.
    Raise(PyBaseExceptionRef),
    /// This exception is a stop of this class, StopIteration, or out of an asynchronous generator StopAsyncIteration: RuntimeError is raised,
    /// with the exception as its cause (PEP 479, PEP 525).
    Convert(PyBaseExceptionRef, ErrorKind),
    /// It yielded while it was closed, which is a RuntimeError.
    Ignored,
}

/// A suspendable activation (Python Language Reference, 6.2.9), seen as its state. It holds no frame, only that frame's number, and asks
/// whoever drives it to enter that.
#[derive(Drop)]
pub struct Coro {
    frame: FrameRef,
    name: NameId,
    kind: CoroKind,
    stage: Stage,
}

impl Model for Coro {
    ghost use Rattle.py_coro.specs.Coros.{State};
    ghost use Rattle.py_coro.specs.Stages.{mode_of, closing_of};

    ghost Value = { State };

    ghost view = { λ c. record { frame = c.frame; name = c.name; kind = c.kind; mode = mode_of c.stage; closing = closing_of c.stage } };
}

impl Coro {
    /// One that hasn't been entered.
    pub fn new(frame: FrameRef, name: NameId, kind: CoroKind) -> Coro
        ensures { result ≡ fresh frame name kind }
    {
        Coro {
            frame,
            name,
            kind,
            stage: Stage::Fresh,
        }
    }

    /// The frame that is entered.
    pub fn frame(&self) -> FrameRef
        ensures { result ≡ self.now.frame }
    {
        self.frame
    }

    /// The name that it shows.
    pub fn name(&self) -> NameId
        ensures { result ≡ self.now.name }
    {
        self.name
    }

    /// Gives it another name to show.
    pub fn set_name(&mut self, name: NameId)
        ensures { self.new ≡ record self.old { name = name } }
    {
        self.name = name;
    }

    /// Whether it was entered, and not left yet.
    pub fn running(&self) -> bool
        ensures { result ≡ is_running self.now.mode }
    {
        matches!(self.stage, Stage::Running { closing: _ })
    }

    /// Whether it is never entered again.
    pub fn closed(&self) -> bool
        ensures { result ≡ is_closed self.now.mode }
    {
        matches!(self.stage, Stage::Closed)
    }

    /// Begins a send of a value, which is None or isn't, where so many activations run (Python Language Reference, 6.2.9.1).
    pub fn send(&mut self, is_none: bool, depth: usize) -> Begin
        ensures row { (e : ExceptionNumber) → result ≡ begun e (sent self.old.mode is_none depth) }
        ensures behind { self.new ≡ behind (sent self.old.mode is_none depth) self.old }
    {
        match self.stage {
            Stage::Fresh => {
                if is_none {
                    self.enter(false, depth, Begin::EnterStart)
                } else {
                    Begin::Refused(CoroRefusal::FirstValue)
                }
            }
            Stage::Suspended => self.enter(false, depth, Begin::EnterSend),
            Stage::Running { closing: _ } => Begin::Refused(CoroRefusal::Running),
            Stage::Closed => Begin::Stop,
        }
    }

    /// Whether it may be thrown into at all: what runs can't. The exception may be normalised between this and the throw.
    pub fn throw_check(&self) -> Result<(), CoroRefusal>
        ensures free { OnOk result (is_running self.now.mode ≡ false) }
        ensures running { OnErr result (self.now.mode ≡ Running) }
        ensures why { IfErr result (λ refused. refused ≡ refusal.Running) }
    {
        if self.running() {
            return Err(CoroRefusal::Running);
        }
        Ok(())
    }

    /// Begins a throw of an exception, where so many activations run (Python Language Reference, 6.2.9.1).
    pub fn throw(&mut self, exc: PyBaseExceptionRef, depth: usize) -> Begin
        ensures row { result ≡ begun exc (thrown self.old.mode depth) }
        ensures behind { self.new ≡ behind (thrown self.old.mode depth) self.old }
    {
        match self.stage {
            Stage::Fresh => self.enter(false, depth, Begin::EnterThrow),
            Stage::Suspended => self.enter(false, depth, Begin::EnterThrow),
            Stage::Running { closing: _ } => Begin::Refused(CoroRefusal::Running),
            Stage::Closed => Begin::Raise(exc),
        }
    }

    /// Begins a close, where so many activations run (Python Language Reference, 6.2.9.1).
    pub fn close(&mut self, depth: usize) -> Begin
        ensures row { (e : ExceptionNumber) → result ≡ begun e (closing_row self.old.mode depth) }
        ensures behind { self.new ≡ behind (closing_row self.old.mode depth) self.old }
    {
        match self.stage {
            Stage::Fresh => {
                self.stage = Stage::Closed;
                Begin::Done
            }
            Stage::Suspended => self.enter(true, depth, Begin::EnterExit),
            Stage::Running { closing: _ } => Begin::Refused(CoroRefusal::Running),
            Stage::Closed => Begin::Done,
        }
    }

    /// Notes how it was left, and says what the call that entered it is answered (Python Language Reference, 6.2.9.1; PEP 479; PEP
    /// 525).
    pub fn finish(&mut self, store: &Store, how: CoroEnd) -> CoroAnswer
        requires running { self.old.mode ≡ Running }
        requires fit { AllFit store.now.made }
        requires read { AreRead store.now.made how }
        ensures answer { Finishes store.now.made self.old.kind self.old.closing how result }
        ensures left { self.new ≡ left_by how self.old }
    {
        let closing = self.is_being_closed();
        self.stage = stage_behind(closing, how);
        answer_to(store, self.kind, closing, how)
    }

    /// What it is shown as, by its name and this number.
    pub fn repr(&self, alloc: Global, names: &Names, id: u64) -> Result<PyText, NoMemory>
        requires { self.now.name.index < length names.now }
        ensures { IfOk result (IsShown names.now self.now id) }
    {
        shown(alloc, self.kind, names.text(self.name), id)
    }

    /// Enters it, to be closed or not, unless that would be too deep.
    fn enter(&mut self, closing: bool, depth: usize, begin: Begin) -> Begin
        ensures answer { result ≡ entry_of depth begin }
        ensures state { self.new ≡ entered_at depth closing self.old }
    {
        if depth >= MOST_DEPTH {
            return Begin::Refused(CoroRefusal::TooDeep);
        }
        self.stage = Stage::Running { closing };
        begin
    }

    /// Whether it runs, and was entered to be closed.
    fn is_being_closed(&self) -> bool
        ensures { result ≡ self.now.closing }
    {
        match self.stage {
            Stage::Running { closing } => closing,
            Stage::Fresh => false,
            Stage::Suspended => false,
            Stage::Closed => false,
        }
    }
}

/// What one of this kind is shown as, by this name and number.
fn shown(alloc: Global, kind: CoroKind, name: &str, id: u64) -> Result<PyText, NoMemory>
    ensures { IfOk result (λ text. text ≡ shown (word_of kind) (chars name.now) id) }
{
    let name = text_of_str(alloc, name)?;
    let mut text = text_of(alloc, b"<")?;
    push_bytes(&mut text, word(kind))?;
    push_bytes(&mut text, b" object ")?;
    push_text(&mut text, &name)?;
    push_bytes(&mut text, b" at ")?;
    push_decimal(&mut text, id as usize)?;
    push_bytes(&mut text, b">")?;
    Ok(text)
}
