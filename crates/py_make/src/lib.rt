//! Scripts that are made from a seed, a workload whose answer is known, for measuring; and what their drives came to.
#![tactic(auto)]

mod laws;
mod make;
mod summary;

pub use laws::laws_of_made;
pub use make::{MOST_GROUPS, make_script};
pub use summary::{Summary, Tally};
