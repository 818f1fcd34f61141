//! The core of a frame joined with its stack.
//! Its methods run units, and stand in a file for each family of instructions.

use crate::frame_core::FrameCore;
use py_stack::ValueStack;

/// A frame whose units run: its core, and the stack that it works on.
#[derive(Drop)]
pub(crate) struct ExecutingFrame<S: ValueStack> {
    pub(crate) core: FrameCore,
    pub(crate) stack: S,
}
