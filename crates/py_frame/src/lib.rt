//! Frames: running code, one event at a time.
#![tactic(auto)]

mod answering;
mod blocks;
mod calls;
mod cleanup;
mod constants;
mod execute;
mod executing;
mod exits;
mod filled;
mod frame;
mod frame_core;
mod input;
mod jumps;
mod locals;
mod managers;
mod objects;
mod questions;
mod raising;
mod run;
mod scene;
mod stacks;
mod table;
mod unit_step;
mod unwinding;
mod wanted;

pub use filled::{Filled, positional};
pub use frame::{Frame, FrameConstructor};
pub use input::{Answer, FrameStep, Input};
pub use py_rows::{Expect, Wanted};
pub use py_stack::{ExceptionStack, OwnStack, ValueStack};
pub use scene::Scene;
