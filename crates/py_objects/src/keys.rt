//! The keys of dicts.

ghost use Rattle.std.specs.Prelude.{◌≡◌, ◌<◌, length, IfSome};
ghost use Rattle.py_objects.specs.Keys.{place_of_key};
ghost use Rattle.py_objects.specs.Values.{same_key};

use crate::payload::Payload;
use crate::refs::PyObjectRef;

/// Whether two objects are one key.
fn same_key(payloads: &[Payload], left: PyObjectRef, right: PyObjectRef) -> bool
    ensures { result ≡ same_key payloads.now left right }
{
    if left.number == right.number {
        return true;
    }
    match (
        payloads.get(left.number as usize),
        payloads.get(right.number as usize),
    ) {
        (Some(left), Some(right)) => left.same_value(right),
        _ => false,
    }
}

/// The place of a key among pairs.
pub(crate) fn place_of_key(
    payloads: &[Payload],
    key: PyObjectRef,
    pairs: &[(PyObjectRef, PyObjectRef)],
) -> Option<usize>
    ensures place { result ≡ place_of_key payloads.now key pairs.now }
    ensures within { IfSome result (λ at. at < length pairs.now) }
{
    pairs
        .iter()
        .position(|pair| same_key(payloads, key, pair.0))
}
