//! When questions, objects and events of two runs are the same: definitions, with laws about answers and courses, and no code.
#![tactic(auto)]

mod laws;

pub use laws::{laws_of_answers, laws_of_courses};
