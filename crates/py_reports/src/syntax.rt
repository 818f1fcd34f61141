//! What is printed of a SyntaxError.

ghost use Rattle.std.specs.Prelude.{◌≡◌};
ghost use Rattle.py_exceptions.specs.Writing.{Adds};
ghost use Rattle.py_reports.specs.SyntaxLines.{column_at as column_of_object, column_by, shown_text};
ghost use Rattle.py_reports.specs.Parts.{syntax_error_text};

use crate::caret::push_trimmed;
use crate::found::{Found, str_of_attribute};
use crate::lines::{push_words, without_ends};
use py_code::{NoMemory, text_of_str};
use py_exceptions::{attribute, payload_at, push_raised};
use py_objects::{ExceptionBody, Payload, PyBaseExceptionRef, PyObjectRef};

/// Puts a SyntaxError after a text: where it was found and its text, its class with what it says, and its file where it has no line.
pub(crate) fn push_syntax_error(
    out: &mut String,
    objects: &[Payload],
    raised: PyBaseExceptionRef,
    body: &ExceptionBody,
) -> Result<(), NoMemory>
    ensures { Adds result out.old out.new (syntax_error_text objects.now raised body.now) }
{
    let found = Found::of(*out.allocator(), objects, body)?;
    found.push_line(out)?;
    push_shown_text(out, objects, body)?;
    push_raised(out, objects, raised)?;
    found.push_end(out)?;
    push_words(out, "\n")
}

/// Puts the lines of a SyntaxError's text after a text, where it has one.
fn push_shown_text(
    out: &mut String,
    objects: &[Payload],
    exception: &ExceptionBody,
) -> Result<(), NoMemory>
    ensures { Adds result out.old out.new (shown_text objects.now exception.now) }
{
    let alloc = *out.allocator();
    let Some(text) = str_of_attribute(alloc, objects, exception, b"text")? else {
        return Ok(());
    };
    let offset = attribute(alloc, objects, exception, b"offset")?;
    let end_offset = attribute(alloc, objects, exception, b"end_offset")?;
    let text = text_of_str(alloc, text.as_str())?;
    push_trimmed(
        out,
        without_ends(text.as_slice()),
        column_at(objects, offset),
        column_at(objects, end_offset),
    )
}

/// A column, from 1: a number. 0 stands for any other value.
fn column_at(objects: &[Payload], object: Option<PyObjectRef>) -> u128
    ensures { result ≡ column_of_object objects.now object }
{
    let Some(object) = object else {
        return 0;
    };
    let Some(payload) = payload_at(objects, object) else {
        return 0;
    };
    column_of(payload.number())
}

fn column_of(number: Option<i128>) -> u128
    ensures { result ≡ column_by number }
{
    let Some(number) = number else {
        return 0;
    };
    u128::try_from(number).unwrap_or(0)
}
