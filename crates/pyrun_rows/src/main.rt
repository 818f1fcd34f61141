//! Runs the rows of a file that standard input holds: scripts, each with what a run of it must come to.
#![tactic(auto)]

mod expand;
mod fault;
mod faults;
mod outcome;
mod parse;
mod report;
mod row;
mod run;

use crate::fault::RowsFault;
use crate::parse::parse_rows;
use crate::report::{Report, run_rows};
use py_outside::{StdSink, write_bytes};
use std::alloc::Global;
use std::process::ExitCode;
use std::{env, io};

/// The word that the rows to be shown have in their names, where the command line has one.
fn word_of(rt: &HostRuntime, alloc: Global) -> Result<Option<String>, RowsFault> {
    let mut args = env::args(rt).map_err(|_| RowsFault::NoMemory)?;
    match args.nth(1) {
        Some(word) => Ok(Some(String::from_str(alloc, word.as_str())?)),
        None => Ok(None),
    }
}

/// Runs all rows, or shows those that have the word in their names.
fn run_all(rt: &HostRuntime) -> Result<Report, RowsFault> {
    let alloc = rt.alloc();
    let word = word_of(rt, alloc)?;
    let text = io::read_to_string(alloc, rt.reader())?;
    let rows = parse_rows(alloc, text.as_str())?;
    let word = word.as_ref().map(|word| word.as_str());
    Ok(run_rows(alloc, rows.as_slice(), word)?)
}

fn main(rt: HostRuntime) -> ExitCode {
    let mut sink = StdSink::new(io::writer(&rt));
    match run_all(&rt) {
        Ok(report) => match write_bytes(&mut sink, report.lines()) {
            Ok(()) => ExitCode::from(report.status()),
            Err(_) => ExitCode::from(1),
        },
        Err(fault) => {
            let _ = eprintln!(rt; "{fault}");
            ExitCode::from(2)
        }
    }
}
