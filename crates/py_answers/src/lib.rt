//! What a request is answered, one request at a time.
#![tactic(auto)]

mod answering;
mod arithmetic;
mod calling;
mod comparison;
mod giving;
mod lacking;
mod managers;
mod matching;
mod names;
mod raising;
mod refusals;
mod reply;
mod values;

pub use answering::{Answered, answer};
pub use managers::told;
pub use values::entry;
