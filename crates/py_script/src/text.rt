//! The text of an event.

ghost use Rattle.std.specs.Prelude.{◌++◌};
ghost use Rattle.py_objects.specs.declared.request.Request.TheVariants.{Show};
ghost use Rattle.py_exceptions.specs.Texts.{repr};
ghost use Rattle.py_exceptions.specs.Writing.{Adds};
ghost use Rattle.py_meaning.specs.Text.{numbered, request_text, result_text, event_text};
ghost use Rattle.py_script.specs.Writing.{raised_line};

use py_code::{NoMemory, push_utf8};
use py_exceptions::{payload_at, push_raised, push_whole_repr};
use py_objects::{DriveAnswer, Event, Payload, PyBaseExceptionRef, PyObjectRef, Request};

/// Puts after the text what is written of an event, where these are the objects at it.
pub(crate) fn push_event(
    out: &mut String,
    objects: &[Payload],
    event: &Event,
) -> Result<(), NoMemory>
    ensures { Adds result out.old out.new (event_text objects.now event.now) }
{
    match event {
        Event::Result { drive, answer } => push_result(out, objects, *drive, answer),
        Event::Ask { request, .. } => push_request(out, objects, request),
        Event::Drive { .. }
        | Event::Make { .. }
        | Event::Resume { .. }
        | Event::Got { .. }
        | Event::Round { .. }
        | Event::Yield { .. }
        | Event::End { .. } => Ok(()),
    }
}

fn push_request(out: &mut String, objects: &[Payload], request: &Request) -> Result<(), NoMemory>
    ensures { Adds result out.old out.new (request_text objects.now request.now) }
{
    match request {
        Request::Show(value) => push_shown(out, objects, *value),
        _ => Ok(()),
    }
}

/// Puts a line for a value that is shown after the text, unless it is None.
fn push_shown(out: &mut String, objects: &[Payload], value: PyObjectRef) -> Result<(), NoMemory>
    ensures { Adds result out.old out.new (request_text objects.now (Show value)) }
{
    if matches!(payload_at(objects, value), Some(Payload::None)) {
        return Ok(());
    }
    push_whole_repr(out, objects, value)?;
    Ok(out.push_str("\n")?)
}

fn push_result(
    out: &mut String,
    objects: &[Payload],
    drive: u64,
    answer: &DriveAnswer,
) -> Result<(), NoMemory>
    ensures { Adds result out.old out.new (result_text objects.now drive answer.now) }
{
    match answer {
        DriveAnswer::Returns(value) => push_value(out, objects, drive, " returns ", *value),
        DriveAnswer::Yields(value) => push_value(out, objects, drive, " yields ", *value),
        DriveAnswer::Stops(None) => push_line(out, drive, " stops None"),
        DriveAnswer::Stops(Some(value)) => push_value(out, objects, drive, " stops ", *value),
        DriveAnswer::Closes => push_line(out, drive, " closes"),
        DriveAnswer::Raises(exception) => push_raise(out, objects, drive, *exception),
        DriveAnswer::Reported(text) => push_utf8(out, text),
    }
}

fn push_line(out: &mut String, drive: u64, words: &str) -> Result<(), NoMemory>
    ensures { Adds result out.old out.new (numbered drive words.now) }
{
    write!(out, "{drive}{words}\n")?;
    Ok(())
}

fn push_value(
    out: &mut String,
    objects: &[Payload],
    drive: u64,
    word: &str,
    value: PyObjectRef,
) -> Result<(), NoMemory>
    ensures { Adds result out.old out.new (numbered drive (word.now ++ repr objects.now value)) }
{
    write!(out, "{drive}{word}")?;
    push_whole_repr(out, objects, value)?;
    Ok(out.push_str("\n")?)
}

fn push_raise(
    out: &mut String,
    objects: &[Payload],
    drive: u64,
    exception: PyBaseExceptionRef,
) -> Result<(), NoMemory>
    ensures { Adds result out.old out.new (raised_line objects.now drive exception) }
{
    write!(out, "{drive} raises ")?;
    push_raised(out, objects, exception)?;
    Ok(out.push_str("\n")?)
}
