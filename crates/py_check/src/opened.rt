//! The block that a unit opens.

/// A block that a unit opens, if any. In the handler of a finally no jump waits yet.
#[derive(Clone, Copy)]
pub(crate) enum Opened {
    Nothing,
    Loop { level: usize },
    TryExcept { level: usize, handler: u32 },
    Finally { level: usize, handler: u32 },
    FinallyHandler { level: usize },
    ExceptHandler { level: usize },
}
