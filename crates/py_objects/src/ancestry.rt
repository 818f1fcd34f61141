//! Which classes a class derives from.

ghost use Rattle.std.specs.Prelude.{◌≡◌, Some, eqb, option_copied};
ghost use Rattle.std.specs.List.{list_any};
ghost use Rattle.py_objects.specs.ErrorKinds.{name_of};
ghost use Rattle.py_objects.specs.Objects.{class_object};
ghost use Rattle.py_objects.specs.Ancestry.{class_in, class_at as class_of, derives as is_or_derives, derives_from as derives_by_name, first_class as first_of_name, has_name};

use crate::error_kind::ErrorKind;
use crate::payload::{ClassBody, Payload};
use crate::refs::{PyObjectRef, PyTypeRef};

impl Payload {
    /// Whether it is a class with the name of a built-in one.
    fn is_class(&self, kind: ErrorKind) -> bool
        ensures { result ≡ has_name (name_of kind) (class_in (Some self.now)) }
    {
        match self.class() {
            Some(class) => kind.is_name(&class.name),
            None => false,
        }
    }
}

/// The class that an object is, where it is one.
fn class_at(payloads: &[Payload], object: PyObjectRef) -> Option<&ClassBody>
    ensures { option_copied result ≡ class_of payloads.now object }
{
    let Some(payload) = payloads.get(object.number as usize) else {
        return None;
    };
    payload.class()
}

/// The place of a built-in class: the first class of its name.
#[tactic(auto, using(crate::proofs::AncestryLemmas::first_position))]
fn first_class(payloads: &[Payload], kind: ErrorKind) -> Option<usize>
    ensures { result ≡ first_of_name (name_of kind) payloads.now }
{
    payloads.iter().position(|payload| payload.is_class(kind))
}

/// Whether a class is a built-in one, or derives from it (Python Language Reference, 3.3.3.1).
pub fn derives_from(payloads: &[Payload], class: PyTypeRef, kind: ErrorKind) -> bool
    ensures { result ≡ derives_by_name payloads.now (class_object class) (name_of kind) }
{
    let Some(body) = class_at(payloads, PyObjectRef::from(class)) else {
        return false;
    };
    let Some(first) = first_class(payloads, kind) else {
        return false;
    };
    derives(
        class,
        body,
        PyObjectRef {
            number: first as u64,
        },
    )
}

/// Whether a class is another one, or derives from it.
pub fn derives(class: PyTypeRef, body: &ClassBody, other: PyObjectRef) -> bool
    ensures { result ≡ is_or_derives class body.now other }
{
    class.number == other.number || is_among(other, body.mro.as_slice())
}

/// Whether an object is one of these.
fn is_among(object: PyObjectRef, objects: &[PyObjectRef]) -> bool
    ensures { result ≡ list_any (λ v. eqb v.number object.number) objects.now }
{
    objects.iter().any(|other| other.number == object.number)
}
