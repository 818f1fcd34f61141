//! That in one list of objects a question has one reply: definitions of laws, with their proofs, and no code.
#![tactic(auto)]

mod laws;

pub use laws::laws_of_answers_once;
