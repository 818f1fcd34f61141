//! Codes as tables, what their frames are told, and the events that come.

use py_check::{Kind, Pending};
use py_code::Instruction;

/// An open block of a note, with its level, and its handler or the jump that may wait in it.
#[derive(Clone, Copy)]
pub enum Open {
    Loop(usize),
    TryExcept(usize, u32),
    Finally(usize, u32),
    FinallyHandler(usize, Option<Pending>),
    ExceptHandler(usize),
}

/// A unit: its instruction and operand, and what its note says of the stack, the top first, and of the blocks, the innermost first.
#[derive(Clone, Copy)]
pub struct Row(
    pub Instruction,
    pub u8,
    pub &'static [Kind],
    pub &'static [Open],
);

/// What a frame is told.
#[derive(Clone, Copy)]
pub enum Said {
    Start,
    Go,
    /// True is sent.
    Send,
    /// Exception 5 is thrown in.
    Throw,
    /// None, and other values that answer.
    Nothing,
    False,
    True,
    Exception,
    /// The raise of exception 6 answers.
    Fails,
}

/// A code that is driven, with what it is told, and the events that come.
#[derive(Clone, Copy)]
pub struct Case {
    pub name: &'static str,
    pub rows: &'static [Row],
    pub said: &'static [Said],
    pub told: &'static str,
}

/// What an object is.
#[derive(Clone, Copy)]
pub enum First {
    Class,
    Arguments,
    Exception,
    Frame,
    /// Its functions are objects that are there, and no functions: frames look at none.
    Manager,
    Traceback,
}

/// The objects behind None, False and True, which are objects 0, 1 and 2.
pub const FIRST: [First; 7] = [
    First::Class,
    First::Arguments,
    First::Exception,
    First::Exception,
    First::Frame,
    First::Manager,
    First::Traceback,
];
