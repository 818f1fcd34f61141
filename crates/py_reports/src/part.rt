//! What is printed of one exception.

ghost use Rattle.std.specs.Prelude.{◌≡◌, IfOk, option_copied};
ghost use Rattle.py_exceptions.specs.Writing.{Adds};
ghost use Rattle.py_reports.specs.Inside.{AddsSome};
ghost use Rattle.py_reports.specs.Parts.{said_at, syntax_error_at as error_at, IsPart, IsPartText};

use crate::lines::{push_words, text_in};
use crate::scene::Scene;
use crate::syntax::push_syntax_error;
use crate::traceback::{entries_of, push_traceback};
use py_code::{NoMemory, PyText};
use py_exceptions::{link_at, payload_at, push_raised};
use py_objects::{
    ErrorKind, ExceptionBody, LinkField, Payload, PyBaseExceptionRef, PyObjectRef, derives_from,
};
use std::alloc::Global;

/// What is printed of an exception alone: its traceback, and its class with what it says (Python Language Reference, 4.2).
pub fn part_of(alloc: Global, scene: &Scene, exc: PyBaseExceptionRef) -> Result<PyText, NoMemory>
    ensures { IfOk result (IsPartText scene.now exc) }
{
    let mut out = String::new(alloc);
    push_part(&mut out, scene, PyObjectRef::from(exc))?;
    text_in(alloc, &out)
}

/// Puts what is printed of an exception alone after a text.
pub(crate) fn push_part(
    out: &mut String,
    scene: &Scene,
    exception: PyObjectRef,
) -> Result<(), NoMemory>
    ensures { AddsSome result out.old out.new (IsPart scene.now exception) }
{
    let objects = scene.objects();
    let traceback = link_at(objects, LinkField::Traceback, exception);
    let entries = entries_of(*out.allocator(), objects, traceback)?;
    push_traceback(out, scene, entries.as_slice())?;
    push_said(out, objects, exception)
}

fn push_said(out: &mut String, objects: &[Payload], exception: PyObjectRef) -> Result<(), NoMemory>
    ensures { Adds result out.old out.new (said_at objects.now exception) }
{
    let raised = PyBaseExceptionRef {
        number: exception.number,
    };
    let Some(error) = syntax_error_at(objects, exception) else {
        push_raised(out, objects, raised)?;
        return push_words(out, "\n");
    };
    push_syntax_error(out, objects, raised, error)
}

/// An exception that is a SyntaxError.
fn syntax_error_at(objects: &[Payload], exception: PyObjectRef) -> Option<&ExceptionBody>
    ensures { option_copied result ≡ error_at objects.now exception }
{
    let body = payload_at(objects, exception).and_then(Payload::exception)?;
    if derives_from(objects, body.class, ErrorKind::SyntaxError) {
        Some(body)
    } else {
        None
    }
}
