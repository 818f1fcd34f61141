//! Reports of exceptions in the form in which CPython prints them: the chain of causes and contexts, each exception with its traceback.
#![tactic(auto)]

mod caret;
mod chain;
mod found;
mod laws;
mod lines;
mod order;
mod part;
mod place;
mod report;
mod scene;
mod source;
mod stage;
mod syntax;
mod traceback;
mod whole;
mod worked;

pub use chain::{Chain, Chained, Sentence};
pub use laws::laws_of_reports;
pub use part::part_of;
pub use place::{Place, Places};
pub use report::Report;
pub use scene::Scene;
pub use source::{Source, Sources};
pub use stage::{ReportStep, Stage};
pub use whole::report_of;
pub use worked::worked_reports;
