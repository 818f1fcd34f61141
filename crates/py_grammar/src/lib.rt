//! The grammar of scripts: which bytes are a script, its trees, and the line that makes bytes none.
#![tactic(auto)]

mod fault;
mod lines;
mod open_body;
mod open_item;
mod open_raw;
mod parse;
mod raw_block;
mod raw_head;
mod raw_rules;
mod raw_worked;
mod reader;
mod rules;
mod script;
mod table;
mod worked;

pub use fault::ParseFault;
pub use parse::{one_script, parse_script};
pub use py_lines::{DriveAtom, DriveAtomList, DriveLine};
pub use raw_block::{RawBlock, RawCounts, RawUnit, RawUnitList};
pub use raw_worked::worked_raw_codes;
pub use script::{DeclList, Declaration, DriveList, Script};
pub use worked::worked_scripts;
