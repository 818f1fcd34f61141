//! Frames run by codes written by hand: a code for each kind of block by each reason to leave it, and for managers, raises, throws, calls
//! and moves, each with the events that come. The tests stand apart so that no crate is proved again with them.
#![tactic(auto)]

mod tables;

pub use tables::{Case, FIRST, First, Open, Row, Said};

#[cfg(test)]
mod blocks;
#[cfg(test)]
mod calls;
#[cfg(test)]
mod codes;
#[cfg(test)]
mod drives;
#[cfg(test)]
mod inputs;
#[cfg(test)]
mod managers;
#[cfg(test)]
mod moves;
#[cfg(test)]
mod objects;
#[cfg(test)]
mod raises;
