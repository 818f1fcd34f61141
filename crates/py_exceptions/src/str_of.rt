//! Objects as texts, after a text.

ghost use Rattle.py_exceptions.specs.Texts.{str_within};
ghost use Rattle.py_exceptions.specs.Writing.{Adds, args_text, entry_text, exception_text, found_text, key_text, line_in_file, line_text, os_text, syntax_text};

use crate::attributes::{attribute, push_base_name, push_files, text_at};
use crate::repr::{items_at, payload_at, push_enclosed, push_repr, push_words};
use py_code::{NoMemory, push_utf8};
use py_objects::{ErrorKind, ExceptionBody, Payload, PyObjectRef, derives_from};

/// Puts an object as a text after the text. It may hold others so deep.
#[cycle(str)]
pub(crate) fn push_str(
    out: &mut String,
    objects: &[Payload],
    object: PyObjectRef,
    depth: u32,
) -> Result<(), NoMemory>
    ensures { Adds result out.old out.new (str_within depth objects.now object) }
{
    let Some(payload) = payload_at(objects, object) else {
        return push_repr(out, objects, object, depth);
    };
    push_payload_str(out, objects, object, payload, depth)
}

#[cycle(str)]
fn push_payload_str(
    out: &mut String,
    objects: &[Payload],
    object: PyObjectRef,
    payload: &Payload,
    depth: u32,
) -> Result<(), NoMemory>
    ensures { Adds result out.old out.new (entry_text depth objects.now object payload.now) }
{
    match payload {
        Payload::Str(text) => push_utf8(out, text),
        Payload::Exception(exception) if depth > 0 => {
            push_said_by(out, objects, exception.value(), depth - 1)
        }
        _ => push_repr(out, objects, object, depth),
    }
}

/// Puts after the text what an exception says by its class (Python Library Reference, "Built-in Exceptions"). Its arguments may
/// hold others so deep.
#[cycle(str)]
fn push_said_by(
    out: &mut String,
    objects: &[Payload],
    exception: &ExceptionBody,
    depth: u32,
) -> Result<(), NoMemory>
    ensures { Adds result out.old out.new (exception_text depth objects.now exception.now) }
{
    let items = items_at(objects, exception.args);
    if derives_from(objects, exception.class, ErrorKind::KeyError) {
        return push_key_said(out, objects, items, depth);
    }
    if derives_from(objects, exception.class, ErrorKind::OSError) {
        return push_os_said(out, objects, exception, items, depth);
    }
    if derives_from(objects, exception.class, ErrorKind::SyntaxError) {
        return push_syntax_said(out, objects, exception, items, depth);
    }
    push_said(out, objects, items, depth)
}

/// Puts after the text what an exception with these arguments says, of whatever class. They may hold others so deep.
#[cycle(str)]
pub(crate) fn push_said(
    out: &mut String,
    objects: &[Payload],
    items: &[PyObjectRef],
    depth: u32,
) -> Result<(), NoMemory>
    ensures { Adds result out.old out.new (args_text depth objects.now items.now) }
{
    match items {
        [] => Ok(()),
        [item] => push_str(out, objects, *item, depth),
        _ => push_enclosed(out, objects, items, depth),
    }
}

#[cycle(str)]
fn push_key_said(
    out: &mut String,
    objects: &[Payload],
    items: &[PyObjectRef],
    depth: u32,
) -> Result<(), NoMemory>
    ensures { Adds result out.old out.new (key_text depth objects.now items.now) }
{
    match items {
        [key] => push_repr(out, objects, *key, depth),
        _ => push_said(out, objects, items, depth),
    }
}

#[cycle(str)]
fn push_os_said(
    out: &mut String,
    objects: &[Payload],
    exception: &ExceptionBody,
    items: &[PyObjectRef],
    depth: u32,
) -> Result<(), NoMemory>
    ensures { Adds result out.old out.new (os_text depth objects.now exception.now items.now) }
{
    let [number, message] = items else {
        return push_said(out, objects, items, depth);
    };
    out.push_str("[Errno ")?;
    push_str(out, objects, *number, depth)?;
    out.push_str("] ")?;
    push_str(out, objects, *message, depth)?;
    push_files(out, objects, exception, depth)
}

#[cycle(str)]
fn push_syntax_said(
    out: &mut String,
    objects: &[Payload],
    exception: &ExceptionBody,
    items: &[PyObjectRef],
    depth: u32,
) -> Result<(), NoMemory>
    ensures { Adds result out.old out.new (syntax_text depth objects.now exception.now items.now) }
{
    let [message] = items else {
        return push_said(out, objects, items, depth);
    };
    push_repr(out, objects, *message, depth)?;
    push_found(out, objects, exception, depth)
}

/// Puts after the text where a `SyntaxError` was found.
#[cycle(str)]
fn push_found(
    out: &mut String,
    objects: &[Payload],
    exception: &ExceptionBody,
    depth: u32,
) -> Result<(), NoMemory>
    ensures { Adds result out.old out.new (found_text depth objects.now exception.now) }
{
    let file = attribute(*out.allocator(), objects, exception, b"filename")?;
    let line = attribute(*out.allocator(), objects, exception, b"lineno")?;
    let Some(path) = text_at(objects, file) else {
        return push_line(out, objects, line, depth);
    };
    out.push_str(" (")?;
    push_base_name(out, path)?;
    push_line_in_file(out, objects, line, depth)?;
    push_words(out, ")")
}

/// Puts the number of a line in parentheses after the text, where it is known.
#[cycle(str)]
fn push_line(
    out: &mut String,
    objects: &[Payload],
    line: Option<PyObjectRef>,
    depth: u32,
) -> Result<(), NoMemory>
    ensures { Adds result out.old out.new (line_text depth objects.now line) }
{
    let Some(line) = line else {
        return Ok(());
    };
    out.push_str(" (line ")?;
    push_str(out, objects, line, depth)?;
    push_words(out, ")")
}

/// Puts the number of a line after the text and its path, where it is known.
#[cycle(str)]
fn push_line_in_file(
    out: &mut String,
    objects: &[Payload],
    line: Option<PyObjectRef>,
    depth: u32,
) -> Result<(), NoMemory>
    ensures { Adds result out.old out.new (line_in_file depth objects.now line) }
{
    let Some(line) = line else {
        return Ok(());
    };
    out.push_str(", line ")?;
    push_str(out, objects, line, depth)
}
