//! Raw codes, which are written unit by unit, as codes with notes.
#![tactic(auto)]

mod assembler;
mod constants;
mod earlier;
mod flags;
mod laws;
mod naming;
mod notes;
mod units;

pub use assembler::assemble;
pub use earlier::Earlier;
pub use laws::laws_of_raw_codes;
pub use py_check::Annotated;
pub use py_grammar::RawBlock;
