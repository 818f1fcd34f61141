//! The objects of a run at one of its events, from how they were made and what changed since.

ghost use Rattle.std.specs.Prelude.{◌≡◌, true, false, IfOk, OnOk};
ghost use Rattle.py_objects.specs.Edits.{EditFits, FitsDict, FitsException, FitsTraceback, Leaves, LeavesPairs, edited_exception, edited_traceback, store_at, with_edit};
ghost use Rattle.py_objects.specs.Originals.{FitsEntry};
ghost use Rattle.py_objects.specs.declared.payload.ExceptionBody.{ExceptionBody as Exception};
ghost use Rattle.py_objects.specs.declared.payload.TracebackBody.{TracebackBody as Traceback};

use crate::edit::{ChangeList, Edit, LinkField};
use crate::editing::edit_any;
use crate::payload::{Payload, PayloadList};
use crate::refs::PyObjectRef;
use py_code::NoMemory;
use std::alloc::Global;

/// A copy of each payload, in order.
pub fn copy_all(alloc: Global, payloads: &[Payload]) -> Result<Vec<Payload>, NoMemory>
    ensures { IfOk result (λ copy. copy.items ≡ payloads.now) }
{
    let mut copy = Vec::new(alloc);
    for payload in payloads {
        copy.push(payload.copy(alloc)?)?;
    }
    Ok(copy)
}

fn fits_exception(edit: &Edit) -> bool
    ensures fits { result ≡ true → FitsException edit.now }
    ensures stays { result ≡ false → (e : Exception) → edited_exception edit.now e ≡ e }
{
    match edit {
        Edit::Link(LinkField::Cause | LinkField::Context | LinkField::Traceback, _)
        | Edit::Flag(_)
        | Edit::Args(_)
        | Edit::Attr(..) => true,
        Edit::Link(LinkField::Next, _)
        | Edit::Append(_)
        | Edit::SetAt(..)
        | Edit::RemoveAt(_)
        | Edit::Put(..)
        | Edit::Drop(_)
        | Edit::Cell(_)
        | Edit::Place(_)
        | Edit::State(_) => false,
    }
}

fn fits_traceback(edit: &Edit) -> bool
    ensures fits { result ≡ true → FitsTraceback edit.now }
    ensures stays { result ≡ false → (t : Traceback) → edited_traceback edit.now t ≡ t }
{
    match edit {
        Edit::Link(LinkField::Next, _) => true,
        Edit::Link(LinkField::Cause | LinkField::Context | LinkField::Traceback, _)
        | Edit::Flag(_)
        | Edit::Args(_)
        | Edit::Attr(..)
        | Edit::Append(_)
        | Edit::SetAt(..)
        | Edit::RemoveAt(_)
        | Edit::Put(..)
        | Edit::Drop(_)
        | Edit::Cell(_)
        | Edit::Place(_)
        | Edit::State(_) => false,
    }
}

fn fits_dict(edit: &Edit) -> bool
    ensures fits { result ≡ true → FitsDict edit.now }
    ensures stays { result ≡ false → LeavesPairs edit.now }
{
    match edit {
        Edit::Put(..) | Edit::Drop(_) => true,
        Edit::Link(..)
        | Edit::Flag(_)
        | Edit::Args(_)
        | Edit::Attr(..)
        | Edit::Append(_)
        | Edit::SetAt(..)
        | Edit::RemoveAt(_)
        | Edit::Cell(_)
        | Edit::Place(_)
        | Edit::State(_) => false,
    }
}

fn fits(edit: &Edit, payload: &Payload) -> bool
    ensures fits { result ≡ true → EditFits edit.now payload.now }
    ensures stays { result ≡ false → Leaves edit.now payload.now }
{
    match payload {
        Payload::Dict(_) => fits_dict(edit),
        Payload::Exception(_) => fits_exception(edit),
        Payload::Traceback(_) => fits_traceback(edit),
        _ => false,
    }
}

fn fits_entry(payloads: &[Payload], object: PyObjectRef, edit: &Edit) -> bool
    ensures fits { result ≡ true → FitsEntry payloads.now object edit.now }
    ensures stays { result ≡ false → with_edit payloads.now object edit.now ≡ payloads.now }
{
    match payloads.get(object.number as usize) {
        Some(payload) => fits(edit, payload),
        None => false,
    }
}

/// Makes an edit where it fits what the object is, and else none.
pub(crate) fn edit_where_it_fits(
    alloc: Global,
    payloads: &mut [Payload],
    object: PyObjectRef,
    edit: &Edit,
) -> Result<(), NoMemory>
    ensures { OnOk result (payloads.new ≡ with_edit payloads.old object edit.now) }
{
    if !fits_entry(payloads, object, edit) {
        return Ok(());
    }
    edit_any(alloc, payloads, object, edit)
}

/// The objects of a run at the event of a number, which counts from 0: each as it was made, with the changes that were made by then, in
/// order. A change that doesn't fit its object changes nothing.
pub fn objects_at(
    alloc: Global,
    objects: &PayloadList,
    changes: &ChangeList,
    event: u64,
) -> Result<PayloadList, NoMemory>
    ensures { IfOk result (λ at. at ≡ store_at objects.now changes.now event) }
{
    let mut at = copy_all(alloc, objects.as_slice())?;
    for change in changes.as_slice() {
        if change.after <= event {
            edit_where_it_fits(alloc, at.as_mut_slice(), change.object, &change.edit)?;
        }
    }
    Ok(PayloadList::of(at))
}
