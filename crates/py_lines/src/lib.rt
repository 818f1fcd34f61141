//! The lines of scripts: what one line says, by the tokens that it prints.
#![tactic(auto)]

mod atoms;
mod blocks;
mod comment;
mod constant;
mod count;
mod drive;
mod expr;
mod flag;
mod head;
mod header;
mod instruction;
mod keyword;
mod kinds;
mod laws;
mod line;
mod meaning;
mod piece;
mod plain;
mod raw;
mod token;
mod unit;
mod word;
mod worked;

pub use blocks::RawBlockList;
pub use constant::{RawAtom, RawAtomList, RawConst, RawConstList};
pub use drive::{DriveAtom, DriveAtomList, DriveLine};
pub use flag::{RawFlag, RawFlagList};
pub use head::{Head, Turn};
pub use header::Header;
pub use instruction::instruction_text;
pub use keyword::Keyword;
pub use kinds::RawKindList;
pub use laws::laws_of_lines;
pub use line::{Line, LineRead, read_line};
pub use plain::Plain;
pub use raw::{NameList, RawLine};
pub use unit::RawNote;
pub use word::short_number;
pub use worked::{worked_lines, worked_raw_lines};
