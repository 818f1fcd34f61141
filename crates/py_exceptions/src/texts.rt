//! Objects and raised exceptions as they are written.

ghost use Rattle.py_exceptions.specs.Texts.{details, repr, str};
ghost use Rattle.py_exceptions.specs.Writing.{Adds, raised_text};

use crate::repr::{items_at, payload_at, push_class_name, push_repr};
use crate::str_of::{push_said, push_str};
use py_code::NoMemory;
use py_objects::{Payload, PyBaseExceptionRef, PyObjectRef};

/// How many objects are shown inside one another.
const DEPTH: u32 = 1000;

/// Puts the representation of an object after a text (Python Language Reference, 3.3.1). Nothing
/// stands for an object that isn't there.
pub fn push_whole_repr(
    out: &mut String,
    objects: &[Payload],
    object: PyObjectRef,
) -> Result<(), NoMemory>
    ensures { Adds result out.old out.new (repr objects.now object) }
{
    push_repr(out, objects, object, DEPTH)
}

/// Puts an object as a text after a text.
pub fn push_whole_str(
    out: &mut String,
    objects: &[Payload],
    object: PyObjectRef,
) -> Result<(), NoMemory>
    ensures { Adds result out.old out.new (str objects.now object) }
{
    push_str(out, objects, object, DEPTH)
}

/// Puts a raised exception after a text: its class, and what it says. Nothing stands for what is no
/// exception.
pub fn push_raised(
    out: &mut String,
    objects: &[Payload],
    exception: PyBaseExceptionRef,
) -> Result<(), NoMemory>
    ensures { Adds result out.old out.new (raised_text objects.now exception) }
{
    let object = PyObjectRef::from(exception);
    let Some(body) = payload_at(objects, object).and_then(Payload::exception) else {
        return Ok(());
    };
    push_class_name(out, objects, body.class)?;
    push_details(out, objects, items_at(objects, body.args))
}

fn push_details(
    out: &mut String,
    objects: &[Payload],
    items: &[PyObjectRef],
) -> Result<(), NoMemory>
    ensures { Adds result out.old out.new (details objects.now items.now) }
{
    if items.is_empty() {
        return Ok(());
    }
    out.push_str(": ")?;
    push_said(out, objects, items, DEPTH)
}
