//! A host of plug-ins: each is a script that declares and drives nothing itself. The host puts lines of its own behind it, loads it, and drives it
//! line by line, each with a budget of turns.
#![tactic(auto)]

ghost use Rattle.py_grammar.specs.WellFormed.{IsWellFormed};

mod course;
mod driving;
mod fault;
mod payloads;
mod plugins;
mod reading;
mod report;

use crate::driving::drive_lines;
use crate::fault::Refusal;
use crate::plugins::{PLUGINS, Plugin};
use crate::reading::read_plugin;
use crate::report::Report;
use py_code::{NoMemory, PyText};
use py_script::{LoadFault, Script, Session, StdSink, journal_text, load_script, write_bytes};
use std::alloc::Global;
use std::io;
use std::process::ExitCode;

/// Reads a plug-in, drives it, and tells what came.
fn host_plugin(alloc: Global, report: &mut Report, plugin: &Plugin) -> Result<(), NoMemory> {
    match read_plugin(alloc, plugin.text) {
        Ok(script) => run_plugin(alloc, report, plugin.name, &script),
        Err(Refusal::NoMemory) => Err(NoMemory),
        Err(refusal) => report.put_refused(plugin.name, &refusal),
    }
}

/// Drives a plug-in that is read, and tells what came.
fn run_plugin(
    alloc: Global,
    report: &mut Report,
    name: &str,
    script: &Script,
) -> Result<(), NoMemory>
    requires { IsWellFormed script.now }
{
    let mut session = match load_script(alloc, script) {
        Ok(session) => session,
        Err(LoadFault::Refused(code, at)) => return report.put_refused(
            name,
            &Refusal::Broken(code, at),
        ),
        Err(LoadFault::NoMemory) => return Err(NoMemory),
    };
    let course = drive_lines(alloc, report, name, script, &mut session)?;
    match course.standing.why_left_out() {
        Some(why) => report.put_left_out(name, why),
        None => keep_plugin(alloc, report, name, course.registered, session),
    }
}

/// Keeps a plug-in, with all that happened.
fn keep_plugin(
    alloc: Global,
    report: &mut Report,
    name: &str,
    registered: Option<PyText>,
    session: Session,
) -> Result<(), NoMemory> {
    let events = session.events();
    let text = journal_text(alloc, &session.into_journal())?;
    report.put_kept(name, registered, events, text.as_slice())
}

/// What comes of all plug-ins, as lines.
fn host_all(alloc: Global) -> Result<Report, NoMemory> {
    let mut report = Report::new(alloc);
    for plugin in &PLUGINS {
        host_plugin(alloc, &mut report, plugin)?;
    }
    report.put_registered()?;
    Ok(report)
}

fn main(rt: HostRuntime) -> ExitCode {
    let mut sink = StdSink::new(io::writer(&rt));
    match host_all(rt.alloc()) {
        Ok(report) => match write_bytes(&mut sink, report.lines()) {
            Ok(()) => ExitCode::SUCCESS,
            Err(_) => ExitCode::FAILURE,
        },
        Err(NoMemory) => {
            let _ = eprintln!(rt; "out of memory");
            ExitCode::FAILURE
        }
    }
}
