//! Walks along links, each object once.

ghost use Rattle.std.specs.Prelude.{◌≡◌, IfOk};
ghost use Rattle.py_exceptions.specs.Orders.{IsOrder};
ghost use Rattle.py_reports.specs.Chains.{before_at};
ghost use Rattle.py_reports.specs.Inside.{step_at};

use indexmap::IndexSet;
use py_code::NoMemory;
use py_exceptions::{link_at, payload_at};
use py_objects::{LinkField, ObjList, Payload, PyObjectRef};
use std::alloc::Global;

/// What a walk follows.
#[derive(Clone, Copy, Debug, PartialEq, Eq)]
pub(crate) enum Way {
    /// From an exception to the one that is reported before it.
    Before,
    /// From an entry of a traceback to the next one.
    Next,
}

/// The objects of a walk in order. It ends where nothing follows, or at one that was met before.
pub(crate) fn order(
    alloc: Global,
    objects: &[Payload],
    way: Way,
    from: PyObjectRef,
) -> Result<ObjList, NoMemory>
    ensures { IfOk result (IsOrder (step_at way objects.now) from) }
{
    let mut met = ObjList::new(alloc);
    let mut seen: IndexSet<u64> = IndexSet::new(alloc);
    let mut next = Some(from);
    'walk: while let Some(object) = next {
        let is_new = seen.insert(object.number)?;
        if !is_new {
            return Ok(met);
        }
        met.push(object)?;
        next = follow(objects, way, object);
    }
    Ok(met)
}

fn follow(objects: &[Payload], way: Way, object: PyObjectRef) -> Option<PyObjectRef>
    ensures { result ≡ step_at way objects.now object }
{
    match way {
        Way::Before => before(objects, object),
        Way::Next => link_at(objects, LinkField::Next, object),
    }
}

/// The exception that is reported before one.
fn before(objects: &[Payload], exception: PyObjectRef) -> Option<PyObjectRef>
    ensures { result ≡ before_at objects.now exception }
{
    let body = payload_at(objects, exception).and_then(Payload::exception)?;
    if body.cause.is_some() {
        return body.cause;
    }
    if body.suppress { None } else { body.context }
}
