//! Rows: what each unit of a code does to a frame, which blocks it opens and leaves, and what frames expect.
#![tactic(auto)]

mod block;
mod expect;
mod laws;
mod worked;

pub use block::{Block, BlockType, UnwindReason};
pub use expect::{Expect, Wanted};
pub use laws::laws_of_rows;
pub use worked::worked_unwinding;
