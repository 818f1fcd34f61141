//! What a unit did.

use crate::input::FrameStep;

/// What a unit did, or an answer.
#[derive(Drop)]
pub enum UnitStep {
    /// It leads to a next unit.
    Goes,
    /// It tells an event.
    Tells(FrameStep),
}
