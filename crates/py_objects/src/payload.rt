//! What an object is, and copies of it.

ghost use Rattle.std.specs.Prelude.{◌≡◌, IfOk};

use crate::attr_map::AttrMap;
use crate::boxed::Boxed;
use crate::error_kind::ErrorKind;
use crate::pair_list::PairList;
use crate::refs::{FrameRef, ObjList, PyObjectRef, PyTypeRef};
use py_code::{BuiltinFn, ItemList, NoMemory, PyText};
use std::alloc::Global;
use std::error::Error;
use std::fmt;

/// What an object is. Names are texts; other objects are named by their numbers. A store has one of these for each object, so they are small.
#[derive(Drop)]
pub enum Payload {
    None,
    Bool(bool),
    Int(i128),
    Str(PyText),
    Tuple(ObjList),
    /// Keys with their values, in the order in which the keys came.
    Dict(PairList),
    Class(Boxed<ClassBody>),
    Function(FunctionBody),
    /// A function that the machine itself carries out.
    Builtin(BuiltinFn),
    /// A code that is a constant, by its number among the codes of the run.
    Code(usize),
    Manager(ManagerBody),
    /// A frame, by the number of its code among the codes of the run.
    Frame(u64),
    Generator(CoroBody),
    Exception(Boxed<ExceptionBody>),
    Traceback(TracebackBody),
}

impl Payload {
    /// The same payload, with bodies of its own.
    pub(crate) fn copy(&self, alloc: Global) -> Result<Payload, NoMemory>
        ensures { IfOk result (λ copy. copy ≡ self.now) }
    {
        Ok(match self {
            Payload::None => Payload::None,
            Payload::Bool(truth) => Payload::Bool(*truth),
            Payload::Int(number) => Payload::Int(*number),
            Payload::Str(text) => Payload::Str(text.copy(alloc)?),
            Payload::Tuple(items) => Payload::Tuple(items.copy(alloc)?),
            Payload::Dict(pairs) => Payload::Dict(pairs.copy(alloc)?),
            Payload::Class(class) => Payload::Class(class.copy(alloc)?),
            Payload::Function(function) => Payload::Function(function.copy(alloc)?),
            Payload::Builtin(function) => Payload::Builtin(*function),
            Payload::Code(place) => Payload::Code(*place),
            Payload::Manager(manager) => Payload::Manager(manager.copy(alloc)?),
            Payload::Frame(code) => Payload::Frame(*code),
            Payload::Generator(coro) => Payload::Generator(coro.copy(alloc)?),
            Payload::Exception(exception) => Payload::Exception(exception.copy(alloc)?),
            Payload::Traceback(traceback) => Payload::Traceback(*traceback),
        })
    }
}

/// Payloads in order: the entries of a store.
pub type PayloadList = ItemList<Payload>;

/// A class, with those that it derives from, the nearest first, itself left out (Python Language Reference, 3.3.3.1).
#[derive(Drop)]
pub struct ClassBody {
    pub name: PyText,
    pub mro: ObjList,
}

impl ClassBody {
    fn copy(&self, alloc: Global) -> Result<ClassBody, NoMemory>
        ensures { IfOk result (λ copy. copy ≡ self.now) }
    {
        Ok(ClassBody {
            name: self.name.copy(alloc)?,
            mro: self.mro.copy(alloc)?,
        })
    }
}

impl Boxed<ClassBody> {
    fn copy(&self, alloc: Global) -> Result<Boxed<ClassBody>, NoMemory>
        ensures { IfOk result (λ copy. copy ≡ self.now) }
    {
        Boxed::new(alloc, self.value().copy(alloc)?)
    }
}

/// A function, with the number of its code among the codes of the run.
#[derive(Drop)]
pub struct FunctionBody {
    pub name: PyText,
    pub code: usize,
}

impl FunctionBody {
    fn copy(&self, alloc: Global) -> Result<FunctionBody, NoMemory>
        ensures { IfOk result (λ copy. copy ≡ self.now) }
    {
        Ok(FunctionBody {
            name: self.name.copy(alloc)?,
            code: self.code,
        })
    }
}

/// A context manager: the functions that a `with` enters and leaves it by.
#[derive(Drop)]
pub struct ManagerBody {
    pub name: PyText,
    pub enter: PyObjectRef,
    pub exit: PyObjectRef,
}

impl ManagerBody {
    fn copy(&self, alloc: Global) -> Result<ManagerBody, NoMemory>
        ensures { IfOk result (λ copy. copy ≡ self.now) }
    {
        Ok(ManagerBody {
            name: self.name.copy(alloc)?,
            enter: self.enter,
            exit: self.exit,
        })
    }
}

/// What a suspended activation is seen as.
#[derive(Clone, Copy, Debug, PartialEq, Eq)]
pub enum CoroKind {
    Generator,
    Coroutine,
    AsyncGen,
}

/// A generator, with the number of its activation.
#[derive(Drop)]
pub struct CoroBody {
    pub activation: u64,
    pub name: PyText,
    pub kind: CoroKind,
}

impl CoroBody {
    fn copy(&self, alloc: Global) -> Result<CoroBody, NoMemory>
        ensures { IfOk result (λ copy. copy ≡ self.now) }
    {
        Ok(CoroBody {
            activation: self.activation,
            name: self.name.copy(alloc)?,
            kind: self.kind,
        })
    }
}

/// An exception: its class, its arguments as one tuple, its links, and its attributes (Python Language Reference, 4.2 and
/// 7.8).
#[derive(Drop)]
pub struct ExceptionBody {
    pub class: PyTypeRef,
    pub args: PyObjectRef,
    pub cause: Option<PyObjectRef>,
    pub context: Option<PyObjectRef>,
    /// Whether the context is left out of what is printed.
    pub suppress: bool,
    pub traceback: Option<PyObjectRef>,
    pub attrs: AttrMap,
}

impl ExceptionBody {
    fn copy(&self) -> Result<ExceptionBody, NoMemory>
        ensures { IfOk result (λ copy. copy ≡ self.now) }
    {
        Ok(ExceptionBody {
            class: self.class,
            args: self.args,
            cause: self.cause,
            context: self.context,
            suppress: self.suppress,
            traceback: self.traceback,
            attrs: self.attrs.copy()?,
        })
    }
}

impl Boxed<ExceptionBody> {
    fn copy(&self, alloc: Global) -> Result<Boxed<ExceptionBody>, NoMemory>
        ensures { IfOk result (λ copy. copy ≡ self.now) }
    {
        Boxed::new(alloc, self.value().copy()?)
    }
}

/// An entry of a traceback: the frame, the place behind the last unit that it began, and that unit's line.
#[derive(Clone, Copy, Debug, PartialEq, Eq)]
pub struct TracebackBody {
    pub next: Option<PyObjectRef>,
    pub frame: FrameRef,
    pub lasti: u32,
    pub lineno: u32,
}

/// An exception that is to be made: its class, and its one argument, a text.
#[derive(Debug, Drop)]
pub struct Fault {
    pub kind: ErrorKind,
    pub text: PyText,
}

impl fmt::Display for Fault {
    fn fmt<W: fmt::Write>(&self, f: &mut fmt::Formatter<W>) -> fmt::Result {
        write!(f, "{}: ", self.kind)?;
        for character in self.text.as_slice() {
            f.write_char(*character)?;
        }
        Ok(())
    }
}

impl Error for Fault {}
