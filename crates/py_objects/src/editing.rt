//! Edits of payloads.

ghost use Rattle.std.specs.Prelude.{◌≡◌, Some, IfOk, OnOk, OnErr};
ghost use Rattle.py_objects.specs.Edits.{attr_set, with_edit, edited_exception, edited_traceback, FitsException, FitsTraceback, Becomes, IsInPlace};
ghost use Rattle.py_objects.specs.Originals.{may_change, original_of, FitsBody, FitsEntry, IsDict, IsPlaceIn};
ghost use Rattle.py_objects.specs.declared.edit.Edit.TheVariants.{Attr as AttrEdit, Drop as DropEdit, Put as PutEdit};

use crate::boxed::Boxed;
use crate::edit::{Edit, LinkField};
use crate::keys::place_of_key;
use crate::payload::{ExceptionBody, Payload, TracebackBody};
use crate::refs::PyObjectRef;
use py_code::{NoMemory, PyText};
use std::alloc::Global;

impl ExceptionBody {
    /// Makes an edit that takes no memory.
    fn edit_in_place(&mut self, edit: &Edit)
        requires fits { FitsException edit.now }
        requires in_place { IsInPlace edit.now }
        ensures { self.new ≡ edited_exception edit.now self.old }
    {
        match edit {
            Edit::Link(LinkField::Cause, link) => self.cause = *link,
            Edit::Link(LinkField::Context, link) => self.context = *link,
            Edit::Link(LinkField::Traceback, link) => self.traceback = *link,
            Edit::Flag(suppress) => self.suppress = *suppress,
            Edit::Args(args) => self.args = *args,
            Edit::Attr(name, None) => self.attrs.remove(name),
            Edit::Link(LinkField::Next, _)
            | Edit::Attr(_, Some(_))
            | Edit::Append(_)
            | Edit::SetAt(..)
            | Edit::RemoveAt(_)
            | Edit::Put(..)
            | Edit::Drop(_)
            | Edit::Cell(_)
            | Edit::Place(_)
            | Edit::State(_) => unreachable!(),
        }
    }
}

impl Boxed<ExceptionBody> {
    /// Sets an attribute.
    fn set_attr(&mut self, name: PyText, value: PyObjectRef) -> Result<(), NoMemory>
        ensures edited { OnOk result (self.new ≡ attr_set name value self.old) }
        ensures err { OnErr result (self.new ≡ self.old) }
    {
        let body: &mut ExceptionBody = &mut self.value;
        body.attrs.insert(name, value)
    }

    /// Makes an edit that takes no memory.
    fn edit_in_place(&mut self, edit: &Edit)
        requires fits { FitsException edit.now }
        requires in_place { IsInPlace edit.now }
        ensures { self.new ≡ edited_exception edit.now self.old }
    {
        let body: &mut ExceptionBody = &mut self.value;
        body.edit_in_place(edit)
    }
}

impl TracebackBody {
    /// Makes an edit.
    fn edit_in_place(&mut self, edit: &Edit)
        requires { FitsTraceback edit.now }
        ensures { self.new ≡ edited_traceback edit.now self.old }
    {
        match edit {
            Edit::Link(LinkField::Next, link) => self.next = *link,
            Edit::Link(LinkField::Cause | LinkField::Context | LinkField::Traceback, _)
            | Edit::Flag(_)
            | Edit::Args(_)
            | Edit::Attr(..)
            | Edit::Append(_)
            | Edit::SetAt(..)
            | Edit::RemoveAt(_)
            | Edit::Put(..)
            | Edit::Drop(_)
            | Edit::Cell(_)
            | Edit::Place(_)
            | Edit::State(_) => unreachable!(),
        }
    }
}

impl Payload {
    /// Whether some edit fits it.
    fn may_change(&self) -> bool
        ensures { result ≡ may_change self.now }
    {
        matches!(
            self,
            Payload::Dict(_) | Payload::Exception(_) | Payload::Traceback(_)
        )
    }

    /// A copy of a payload that may change.
    pub(crate) fn original(&self, alloc: Global) -> Result<Option<Payload>, NoMemory>
        ensures { IfOk result (λ original. original ≡ original_of self.now) }
    {
        if !self.may_change() {
            return Ok(None);
        }
        Ok(Some(self.copy(alloc)?))
    }

    /// Sets an attribute of an exception.
    fn set_attr(&mut self, name: PyText, value: PyObjectRef) -> Result<(), NoMemory>
        requires { FitsBody (AttrEdit name (Some value)) self.old }
        ensures edited { OnOk result (Becomes (AttrEdit name (Some value)) self.old self.new) }
        ensures err { OnErr result (self.new ≡ self.old) }
    {
        let Payload::Exception(body) = self else {
            unreachable!()
        };
        body.set_attr(name, value)
    }

    /// Makes an edit of an exception or a traceback that takes no memory.
    fn edit_in_place(&mut self, edit: &Edit)
        requires fits { FitsBody edit.now self.old }
        requires in_place { IsInPlace edit.now }
        ensures { Becomes edit.now self.old self.new }
    {
        match self {
            Payload::Exception(body) => body.edit_in_place(edit),
            Payload::Traceback(body) => body.edit_in_place(edit),
            _ => unreachable!(),
        }
    }
}

/// The place of a key among the pairs of a dict.
fn place_in(payloads: &[Payload], dict: PyObjectRef, key: PyObjectRef) -> Option<usize>
    requires { IsDict payloads.now dict }
    ensures { IsPlaceIn payloads.now dict key result }
{
    let Payload::Dict(pairs) = &payloads[dict.number as usize] else {
        unreachable!()
    };
    place_of_key(payloads, key, pairs.as_slice())
}

/// Deletes a key of a dict.
fn drop_key(payloads: &mut [Payload], dict: PyObjectRef, key: PyObjectRef)
    requires { IsDict payloads.old dict }
    ensures { payloads.new ≡ with_edit payloads.old dict (DropEdit key) }
{
    let place = place_in(payloads, dict, key);
    let Payload::Dict(pairs) = &mut payloads[dict.number as usize] else {
        unreachable!()
    };
    if let Some(at) = place {
        pairs.remove(at);
    }
}

/// Sets a key of a dict.
fn put_key(
    payloads: &mut [Payload],
    dict: PyObjectRef,
    key: PyObjectRef,
    value: PyObjectRef,
) -> Result<(), NoMemory>
    requires { IsDict payloads.old dict }
    ensures edited { OnOk result (payloads.new ≡ with_edit payloads.old dict (PutEdit key value)) }
    ensures err { OnErr result (payloads.new ≡ payloads.old) }
{
    let place = place_in(payloads, dict, key);
    let Payload::Dict(pairs) = &mut payloads[dict.number as usize] else {
        unreachable!()
    };
    match place {
        Some(at) => {
            pairs.set_value(at, value);
            Ok(())
        }
        None => pairs.push((key, value)),
    }
}

/// Makes an edit that takes no memory.
pub(crate) fn edit_in_place(payloads: &mut [Payload], object: PyObjectRef, edit: &Edit)
    requires fits { FitsEntry payloads.old object edit.now }
    requires in_place { IsInPlace edit.now }
    ensures { payloads.new ≡ with_edit payloads.old object edit.now }
{
    match edit {
        Edit::Link(..) | Edit::Flag(_) | Edit::Args(_) | Edit::Attr(..) => {
            payloads[object.number as usize].edit_in_place(edit);
        }
        Edit::Drop(key) => drop_key(payloads, object, *key),
        Edit::Append(_)
        | Edit::SetAt(..)
        | Edit::RemoveAt(_)
        | Edit::Put(..)
        | Edit::Cell(_)
        | Edit::Place(_)
        | Edit::State(_) => unreachable!(),
    }
}

/// Makes any edit. Where memory runs out, the payloads stay.
pub(crate) fn edit_any(
    alloc: Global,
    payloads: &mut [Payload],
    object: PyObjectRef,
    edit: &Edit,
) -> Result<(), NoMemory>
    requires { FitsEntry payloads.old object edit.now }
    ensures edited { OnOk result (payloads.new ≡ with_edit payloads.old object edit.now) }
    ensures err { OnErr result (payloads.new ≡ payloads.old) }
{
    match edit {
        Edit::Attr(name, Some(value)) => {
            let name = name.copy(alloc)?;
            payloads[object.number as usize].set_attr(name, *value)
        }
        Edit::Put(key, value) => put_key(payloads, object, *key, *value),
        Edit::Link(..)
        | Edit::Flag(_)
        | Edit::Args(_)
        | Edit::Attr(_, None)
        | Edit::Append(_)
        | Edit::SetAt(..)
        | Edit::RemoveAt(_)
        | Edit::Drop(_)
        | Edit::Cell(_)
        | Edit::Place(_)
        | Edit::State(_) => {
            edit_in_place(payloads, object, edit);
            Ok(())
        }
    }
}
