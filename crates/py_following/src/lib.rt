//! A run followed event by event, by somebody who has the script and the objects alone: definitions, with the law that they decide runs, and no code.
#![tactic(auto)]

mod laws;

pub use laws::laws_of_following;
