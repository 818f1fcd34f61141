//! What a script means: which journals are runs of it, and the text of a journal. Definitions, with laws about them and
//! journals that were worked by hand, and no code.
#![tactic(auto)]

mod compared;
mod laws;
mod worked;
mod worked_call;
mod worked_context;
mod worked_finally;
mod worked_generator;
mod worked_loop;
mod worked_raw;
mod worked_report;
mod worked_show;
mod worked_with;

pub use compared::worked_runs;
pub use laws::laws_of_scripts;
pub use worked::worked_journals;
pub use worked_call::worked_calls;
pub use worked_context::worked_contexts;
pub use worked_finally::worked_finallies;
pub use worked_generator::worked_generators;
pub use worked_loop::worked_loops;
pub use worked_raw::worked_raws;
pub use worked_report::worked_report_drives;
pub use worked_show::worked_shows;
pub use worked_with::worked_withs;
