//! Generators as four states, which know nothing of who drives them (Python Language Reference, 6.2.9).
#![tactic(auto)]

mod coro;
mod generator;
mod laws;
mod leaving;
mod refusal;
mod stage;

pub use coro::{Begin, Coro, CoroAnswer, CoroEnd, MOST_DEPTH};
pub use generator::PyGenerator;
pub use laws::laws_of_coros;
pub use refusal::{CoroRefusal, converted, ignored};
