//! The attributes of exceptions that their texts show.

ghost use Rattle.std.specs.Prelude.{◌≡◌, IfOk, encode_utf8_all, option_copied};
ghost use Rattle.py_exceptions.specs.Said.{attribute as attribute_of, base_name as after_last_slash, given as given_object, text_at as text_of_object};
ghost use Rattle.py_exceptions.specs.Writing.{Adds, files_text};

use crate::repr::{payload_at, push_repr};
use py_code::{NoMemory, PyText, text_of};
use py_objects::{ExceptionBody, Payload, PyObjectRef};
use std::alloc::Global;

/// An attribute of an exception, where it has one that isn't `None`.
pub fn attribute(
    alloc: Global,
    objects: &[Payload],
    exception: &ExceptionBody,
    name: &[u8],
) -> Result<Option<PyObjectRef>, NoMemory>
    ensures { IfOk result (λ value. value ≡ attribute_of objects.now exception.now name.now) }
{
    let name = text_of(alloc, name)?;
    Ok(given(objects, exception.attrs.get(&name)))
}

fn given(objects: &[Payload], value: Option<PyObjectRef>) -> Option<PyObjectRef>
    ensures { result ≡ given_object objects.now value }
{
    let Some(object) = value else {
        return None;
    };
    if matches!(payload_at(objects, object), Some(Payload::None)) {
        return None;
    }
    Some(object)
}

/// The characters of an object, where there is one that is a text.
pub(crate) fn text_at(objects: &[Payload], object: Option<PyObjectRef>) -> Option<&PyText>
    ensures { option_copied result ≡ text_of_object objects.now object }
{
    let Some(object) = object else {
        return None;
    };
    let Some(payload) = payload_at(objects, object) else {
        return None;
    };
    payload.text()
}

/// Puts the files of an `OSError` after the text.
pub(crate) fn push_files(
    out: &mut String,
    objects: &[Payload],
    exception: &ExceptionBody,
    depth: u32,
) -> Result<(), NoMemory>
    ensures { Adds result out.old out.new (files_text depth objects.now exception.now) }
{
    let first = attribute(*out.allocator(), objects, exception, b"filename")?;
    let second = attribute(*out.allocator(), objects, exception, b"filename2")?;
    let Some(first) = first else {
        return Ok(());
    };
    out.push_str(": ")?;
    push_repr(out, objects, first, depth)?;
    let Some(second) = second else {
        return Ok(());
    };
    out.push_str(" -> ")?;
    push_repr(out, objects, second, depth)
}

/// The part of a path after its last `/`.
fn base_name(path: &[char]) -> &[char]
    ensures { result.now ≡ after_last_slash path.now }
{
    let mut name = path;
    let mut rest = path;
    while let Some((c, more)) = rest.split_first() {
        if *c == '/' {
            name = more;
        }
        rest = more;
    }
    name
}

/// Puts the part of a path after its last `/` after the text.
pub(crate) fn push_base_name(out: &mut String, path: &PyText) -> Result<(), NoMemory>
    ensures { Adds result out.old out.new (encode_utf8_all (after_last_slash path.now)) }
{
    for c in base_name(path.as_slice()) {
        out.push(*c)?;
    }
    Ok(())
}
