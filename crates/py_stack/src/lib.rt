//! Stacks: of the values of a frame, and of the exceptions that are handled.
#![tactic(auto)]

mod exception_stack;
mod laws;
mod own;
mod stack;

pub use exception_stack::ExceptionStack;
pub use laws::{drain_push, push_all, push_at, push_pop, push_truncate, put_at, put_beside};
pub use own::OwnStack;
pub use stack::ValueStack;
