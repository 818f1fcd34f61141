//! Tests of a machine's public calls that no script shows, apart from the crate, which would be proved once more with them.
#![tactic(auto)]

#[cfg(test)]
mod machine;
#[cfg(test)]
mod normalizing;
#[cfg(test)]
mod printing;
