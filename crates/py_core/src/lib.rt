//! What a run of a core script is to somebody who has the script and the journal alone: definitions, with laws about them
//! and journals that were worked by hand, and no code.
#![tactic(auto)]

mod laws;
mod worked;
mod worked_literals;
mod worked_names;

pub use laws::laws_of_core_runs;
pub use worked::worked_core_runs;
pub use worked_literals::worked_literal_runs;
pub use worked_names::worked_name_runs;
