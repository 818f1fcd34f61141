//! Laid code: by which units operators are compiled, and where the code of each form of a tree stands, with its notes.
//! Its runs are traces of the tree, and it keeps the typing rules.
#![tactic(auto)]

mod coding;
mod laws;

pub use coding::{Coding, argument_of, callee_of, coding_of, instruction_of};
pub use laws::laws_of_laid_code;
