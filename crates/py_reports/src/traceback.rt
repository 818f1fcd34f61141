//! Tracebacks as they are printed (Python Language Reference, 4.2).

ghost use Rattle.std.specs.Prelude.{◌≡◌, [], IfOk, option_copied};
ghost use Rattle.py_exceptions.specs.Writing.{Adds};
ghost use Rattle.py_reports.specs.Entries.{entries_text, entry_at, file_line, place_text, placed_text, source_line, traceback_text, HasEntries};

use crate::lines::{line_at, push_characters, push_words, skip};
use crate::order::{Way, order};
use crate::place::Place;
use crate::scene::Scene;
use crate::source::{Source, lines_at};
use py_code::{NoMemory, PyText};
use py_exceptions::payload_at;
use py_objects::{ObjList, Payload, PyObjectRef};
use std::alloc::Global;

/// The entries of a traceback, each once.
pub(crate) fn entries_of(
    alloc: Global,
    objects: &[Payload],
    traceback: Option<PyObjectRef>,
) -> Result<ObjList, NoMemory>
    ensures { IfOk result (HasEntries objects.now traceback) }
{
    match traceback {
        None => Ok(ObjList::new(alloc)),
        Some(traceback) => order(alloc, objects, Way::Next, traceback),
    }
}

/// Puts the entries of a traceback after a text, with the line before them.
pub(crate) fn push_traceback(
    out: &mut String,
    scene: &Scene,
    entries: &[PyObjectRef],
) -> Result<(), NoMemory>
    ensures { Adds result out.old out.new (traceback_text scene.now entries.now) }
{
    if entries.is_empty() {
        return Ok(());
    }
    out.push_str("Traceback (most recent call last):\n")?;
    push_entries(out, scene, entries)
}

fn push_entries(out: &mut String, scene: &Scene, entries: &[PyObjectRef]) -> Result<(), NoMemory>
    ensures { Adds result out.old out.new (entries_text scene.now entries.now) }
{
    for entry in entries {
        push_entry(out, scene, *entry)?;
    }
    Ok(())
}

fn push_entry(out: &mut String, scene: &Scene, entry: PyObjectRef) -> Result<(), NoMemory>
    ensures { Adds result out.old out.new (entry_at scene.now entry) }
{
    let Some(payload) = payload_at(scene.objects(), entry) else {
        return Ok(());
    };
    let Payload::Traceback(body) = payload else {
        return Ok(());
    };
    push_placed(out, scene, scene.place_of(body.frame), body.lineno)
}

fn push_placed(
    out: &mut String,
    scene: &Scene,
    place: Option<Place>,
    line: u32,
) -> Result<(), NoMemory>
    ensures { Adds result out.old out.new (placed_text scene.now place line) }
{
    push_place(
        out,
        scene.sources(),
        scene.path(place),
        scene.name(place),
        line,
    )
}

/// Puts a line of a file after a text, with the name of its code, and its source.
fn push_place(
    out: &mut String,
    sources: &[Source],
    path: &str,
    name: &str,
    line: u32,
) -> Result<(), NoMemory>
    ensures { Adds result out.old out.new (place_text sources.now path.now name.now line) }
{
    push_file(out, path)?;
    write!(out, "{line}")?;
    out.push_str(", in ")?;
    out.push_str(name)?;
    out.push_str("\n")?;
    push_source_line(out, line_at(lines_at(sources, path), line))
}

/// Puts a file after a text, of which a line is to follow.
pub(crate) fn push_file(out: &mut String, path: &str) -> Result<(), NoMemory>
    ensures { Adds result out.old out.new (file_line path.now []) }
{
    out.push_str("  File \"")?;
    out.push_str(path)?;
    push_words(out, "\", line ")
}

fn push_source_line(out: &mut String, line: Option<&PyText>) -> Result<(), NoMemory>
    ensures { Adds result out.old out.new (source_line (option_copied line.entry)) }
{
    let Some(line) = line else {
        return Ok(());
    };
    out.push_str("    ")?;
    push_characters(out, skip(line.as_slice(), &[' ', '\t']))?;
    push_words(out, "\n")
}
