//! What a run is: which event may come next, and the journal that holds its events and objects. Definitions and laws, which know of no machine.
#![tactic(auto)]

mod drive;
mod exit;
mod journal;
mod laws;
mod worked;

pub use drive::{Drive, Makings, Question, Told};
pub use exit::Exit;
pub use journal::Journal;
pub use laws::{laws_of_generators, laws_of_runs};
pub use worked::{
    worked_close, worked_exit, worked_handled, worked_ignored, worked_next, worked_self,
    worked_stop, worked_throw,
};
