//! What any two traces of one tree agree on: a law about the definitions of trees, with no code.
#![tactic(auto)]

mod laws;
mod worked;

pub use laws::laws_of_agreement;
pub use worked::worked_agreement;
