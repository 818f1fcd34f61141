//! Tests of public calls below the machine that neither a script nor a table of units shows, apart from the crates, which would be proved once more
//! with them.
#![tactic(auto)]

#[cfg(test)]
mod bodies;
#[cfg(test)]
mod checking;
#[cfg(test)]
mod codes;
#[cfg(test)]
mod compiling;
#[cfg(test)]
mod exception_links;
#[cfg(test)]
mod exception_texts;
#[cfg(test)]
mod exceptions;
#[cfg(test)]
mod generators;
#[cfg(test)]
mod grammar;
#[cfg(test)]
mod made;
#[cfg(test)]
mod notes;
#[cfg(test)]
mod objects;
#[cfg(test)]
mod outside;
#[cfg(test)]
mod reports;
