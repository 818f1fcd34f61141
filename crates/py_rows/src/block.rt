//! Blocks: what is open around the unit that runs, and why blocks are left.

use py_objects::{PyBaseExceptionRef, PyObjectRef};

/// Why blocks are left.
#[derive(Clone, Copy, Debug, PartialEq, Eq)]
pub enum UnwindReason {
    /// An exception is raised.
    Raising(PyBaseExceptionRef),
    /// The frame returns a value.
    Returning(PyObjectRef),
    /// Control goes behind a loop, to this label.
    Break(u32),
    /// Control goes to a loop's next round, at this label.
    Continue(u32),
}

/// What kind of block it is.
#[derive(Clone, Copy, Debug, PartialEq, Eq)]
pub enum BlockType {
    /// A loop.
    Loop,
    /// What is raised goes to the handler.
    TryExcept {
        handler: u32,
    },
    /// All that leaves the block goes to the handler.
    Finally {
        handler: u32,
    },
    /// The handler of a `Finally`: why it was entered, and the exception that was handled outside of it.
    FinallyHandler {
        reason: Option<UnwindReason>,
        kept: Option<PyBaseExceptionRef>,
    },
    /// The handler of a `TryExcept`: the exception that it handles, and the one that was handled outside of it.
    ExceptHandler {
        exception: PyBaseExceptionRef,
        kept: Option<PyBaseExceptionRef>,
    },
}

/// An open block. Its level is how many values of the stack lie under it.
#[derive(Clone, Copy, Debug, PartialEq, Eq)]
pub struct Block {
    pub typ: BlockType,
    pub level: usize,
}
