//! Driving a plug-in by the host's lines.

ghost use Rattle.std.specs.Prelude.{[]};
ghost use Rattle.py_grammar.specs.Script.{decls_of};
ghost use Rattle.py_grammar.specs.WellFormed.{IsWellFormed};
ghost use Rattle.plugin_host.specs.Host.{IsBehind};

use crate::course::Course;
use crate::report::Report;
use py_code::NoMemory;
use py_script::{Script, Session};
use py_vm::VmFault;
use std::alloc::Global;

/// How many turns a drive may take. Each drive has a budget of its own, so that one can't spend what the next is owed.
const TURNS: u64 = 100;

/// Makes the lines of the host one after another, and tells what comes of each. Behind a raise it goes on, so that what the plug-in has open is closed.
/// Where a drive has no answer, the line behind it is answered by `Failed`, and the host stops there.
pub(crate) fn drive_lines(
    alloc: Global,
    report: &mut Report,
    name: &str,
    script: &Script,
    session: &mut Session,
) -> Result<Course, NoMemory>
    requires well { IsWellFormed script.now }
    requires behind { IsBehind (decls_of script.now) [] session.old }
{
    let mut course = Course::new(alloc);
    for line in script.drives.as_slice() {
        let came = session.drive(line, TURNS);
        report.put_came(name, course.next(), &came, session.store())?;
        if matches!(came, Err(VmFault::Failed)) {
            break;
        }
        course.take(&came, session.store())?;
    }
    Ok(course)
}
