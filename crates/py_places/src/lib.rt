//! Places: what is left of a body behind some of its own events. Definitions, with the law that they decide traces, and no code.
#![tactic(auto)]

mod laws;

pub use laws::laws_of_places;
