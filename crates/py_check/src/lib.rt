//! Codes with notes on what their stack holds, the rules that such notes keep, and the checker that says yes exactly where they hold.
#![tactic(auto)]

mod annotated;
mod blocks;
mod check;
mod checked;
mod fault;
mod fits;
mod handlers_worked;
mod innermost;
mod kinds;
mod landing;
mod laws;
mod leaving;
mod making;
mod note;
mod opened;
mod operands;
mod raw_worked;
mod rows_worked;
mod rules_worked;
mod running_worked;
mod site;
mod table;
mod taking;
mod whole;
mod worked;

pub use annotated::Annotated;
pub use blocks::BlockList;
pub use check::{Shapes, check_code};
pub use checked::CheckedCode;
pub use fault::CheckFault;
pub use handlers_worked::{worked_handlers, worked_values};
pub use kinds::KindList;
pub use laws::laws_of_rules;
pub use note::{BlockNote, Kind, Note, NoteList, Pending, PendingSet};
pub use raw_worked::worked_raw;
pub use rows_worked::{worked_call_rows, worked_name_rows, worked_value_rows};
pub use rules_worked::worked_rules;
pub use running_worked::worked_running;
pub use worked::{worked_blocks, worked_codes, worked_loops, worked_notes};
