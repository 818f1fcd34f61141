//! Runs of the scripts that are made from a seed. Definitions and a law, and no code.
#![tactic(auto)]

mod laws;

pub use laws::laws_of_made_runs;
