//! Tests of public calls about scripts that no script shows, apart from the crate, which would be proved once more with them.
#![tactic(auto)]

#[cfg(test)]
mod running;
#[cfg(test)]
mod scripts;
#[cfg(test)]
mod tracebacks;
#[cfg(test)]
mod units;
