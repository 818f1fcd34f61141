//! The store: the objects of a run, as they were made and as they are.

ghost use Rattle.std.specs.Prelude.{◌≡◌, ◌<◌, ◌≤◌, ◌+◌, ℕ, [], ◌∷◌, length, slice_get, slice_set, Some, IfOk, IfSome, OnOk, OnErr, vec_len, vec_capacity};
ghost use Rattle.py_objects.specs.ErrorKinds.{name_of};
ghost use Rattle.py_objects.specs.Objects.{HasPayload, AllBelow, class_object, payload_numbers};
ghost use Rattle.py_objects.specs.Singletons.{none_object, own_truth};
ghost use Rattle.py_objects.specs.Growth.{with_object};
ghost use Rattle.py_objects.specs.Ancestry.{derives_from as derives};
ghost use Rattle.py_objects.specs.Edits.{objects_of, edit_numbers, FitsNow, IsFromMark, IsInPlace, IsAsBefore, IsEdited};
ghost use Rattle.py_objects.specs.Originals.{original_of, with_copy};
ghost use Rattle.py_objects.specs.declared.payload.Payload.TheVariants.{Bool as BoolPayload, None as NonePayload};

use crate::ancestry::derives_from;
use crate::edit::{Change, ChangeList, Edit, History};
use crate::editing::{edit_any, edit_in_place};
use crate::error_kind::ErrorKind;
use crate::payload::{Payload, PayloadList};
use crate::refs::{PyObjectRef, PyTypeRef};
use crate::truths::first_truth;
use py_code::NoMemory;
use std::alloc::Global;
use std::marker::Model;

/// How an object was made that may change, with its number.
#[derive(Drop)]
pub(crate) struct Original {
    pub(crate) number: usize,
    pub(crate) payload: Payload,
}

/// Objects by number, which are never taken off, seen as how they were made and what was changed since.
#[derive(Drop)]
pub struct Store {
    alloc: Global,
    /// The objects as they are.
    payloads: Vec<Payload>,
    /// The objects that may change, as they were made.
    originals: Vec<Original>,
    changes: Vec<Change>,
    mark: u64,
}

impl Model for Store {
    ghost use Rattle.std.specs.Prelude.{◌-◌, vec_len, vec_capacity};
    ghost use Rattle.py_objects.specs.Objects.{HasPayload};
    ghost use Rattle.py_objects.specs.Edits.{Kept};
    ghost use Rattle.py_objects.specs.Originals.{restored, IsKept};
    ghost use Rattle.py_objects.specs.Singletons.{none_object};
    ghost use Rattle.py_objects.specs.declared.payload.Payload.TheVariants.{None as NonePayload};

    ghost Value = { Kept };

    ghost view = { λ s. record { made = restored s.originals.items s.payloads.items; changes = s.changes.items; mark = s.mark; spare = vec_capacity s.changes - vec_len s.changes } };

    ghost invariant = { λ s. IsKept s.originals.items s.payloads.items s.changes.items s.mark × HasPayload (restored s.originals.items s.payloads.items) none_object NonePayload };
}

impl Store {
    /// A store of one object, `None`.
    pub fn new(alloc: Global) -> Result<Store, NoMemory>
        ensures made { IfOk result (λ store. store.made ≡ NonePayload ∷ []) }
        ensures changes { IfOk result (λ store. store.changes ≡ []) }
        ensures mark { IfOk result (λ store. store.mark ≡ 0) }
    {
        let mut payloads = Vec::new(alloc);
        payloads.push(Payload::None)?;
        Ok(Store {
            alloc,
            payloads,
            originals: Vec::new(alloc),
            changes: Vec::new(alloc),
            mark: 0,
        })
    }

    /// What gives the store its memory.
    pub fn allocator(&self) -> Global {
        self.alloc
    }

    /// The object that was there first: the store's own `None`.
    pub fn none(&self) -> PyObjectRef
        ensures first { result ≡ none_object }
        ensures has { HasPayload self.now.made result NonePayload }
    {
        // Read for what the store keeps of its objects: the first is `None`.
        let _payloads = &self.payloads;
        PyObjectRef { number: 0 }
    }

    /// The first object that is `True`, or `False`, where there is one.
    pub fn truth(&self, value: bool) -> Option<PyObjectRef>
        ensures first { result ≡ own_truth value self.now.made }
        ensures has { IfSome result (λ object. HasPayload self.now.made object (BoolPayload value)) }
    {
        first_truth(self.payloads.as_slice(), value)
    }

    /// How many objects there are.
    pub fn len(&self) -> u64
        ensures { result ≡ length self.now.made }
    {
        self.payloads.len() as u64
    }

    /// What an object is now: at any event behind the last change.
    pub fn get(&self, object: PyObjectRef) -> &Payload
        requires { object.number < length self.now.made }
        ensures now { slice_get (objects_of self.now) object.number ≡ Some result.now }
        ensures at { IsFromMark self.now object result.now }
    {
        &self.payloads[object.number as usize]
    }

    /// The objects as they are.
    pub fn objects(&self) -> &[Payload]
        ensures { result.now ≡ objects_of self.now }
    {
        self.payloads.as_slice()
    }

    /// Whether a class is a built-in one, or derives from it (Python Language Reference, 3.3.3.1).
    pub fn derives_from(&self, class: PyTypeRef, kind: ErrorKind) -> bool
        ensures { result ≡ derives self.now.made (class_object class) (name_of kind) }
    {
        derives_from(self.payloads.as_slice(), class, kind)
    }

    /// A new object, whose number is that of the objects before. It names objects that are there, or itself.
    pub fn add(&mut self, payload: Payload) -> Result<PyObjectRef, NoMemory>
        requires { AllBelow (length self.old.made + 1) (payload_numbers payload) }
        ensures number { IfOk result (λ object. object.number ≡ length self.old.made) }
        ensures added { OnOk result (self.new ≡ with_object self.old payload) }
        ensures err { OnErr result (self.new ≡ self.old) }
    {
        let number = self.payloads.len();
        let copy = copy_with_room(
            &payload,
            &mut self.payloads,
            &mut self.originals,
            self.alloc,
        )?;
        self.payloads.push_reserved(payload);
        keep(&mut self.originals, number, copy);
        Ok(PyObjectRef {
            number: number as u64,
        })
    }

    /// Takes memory for so many changes.
    pub fn reserve_changes(&mut self, n: usize) -> Result<(), NoMemory>
        ensures spare { OnOk result (n ≤ self.new.spare) }
        ensures kept { IsAsBefore self.old self.new }
    {
        self.changes.reserve(n)?;
        Ok(())
    }

    /// How many changes can be made without memory.
    pub fn spare(&self) -> usize
        ensures { result ≡ self.now.spare }
    {
        self.changes.capacity() - self.changes.len()
    }

    /// Makes an edit that takes no memory, and notes it under the last mark.
    pub fn change(&mut self, object: PyObjectRef, edit: Edit)
        requires spare { 0 < self.old.spare }
        requires within { object.number < length self.old.made }
        requires named { AllBelow (length self.old.made) (edit_numbers edit) }
        requires fits { FitsNow self.old object edit }
        requires in_place { IsInPlace edit }
        ensures edited { IsEdited self.old self.new object edit }
        ensures spare { self.old.spare ≤ self.new.spare + 1 }
    {
        edit_in_place(self.payloads.as_mut_slice(), object, &edit);
        self.changes.push_reserved(Change {
            after: self.mark,
            object,
            edit,
        });
    }

    /// Makes any edit, and notes it under the last mark.
    pub fn grow(&mut self, object: PyObjectRef, edit: Edit) -> Result<(), NoMemory>
        requires within { object.number < length self.old.made }
        requires named { AllBelow (length self.old.made) (edit_numbers edit) }
        requires fits { FitsNow self.old object edit }
        ensures edited { OnOk result (IsEdited self.old self.new object edit) }
        ensures err { OnErr result (IsAsBefore self.old self.new) }
    {
        self.changes.reserve(1)?;
        edit_any(self.alloc, self.payloads.as_mut_slice(), object, &edit)?;
        self.changes.push_reserved(Change {
            after: self.mark,
            object,
            edit,
        });
        Ok(())
    }

    /// Notes how many events there are, for the changes to come.
    pub fn mark(&mut self, after: u64)
        requires { self.old.mark ≤ after }
        ensures { self.new ≡ record self.old { mark = after } }
    {
        self.mark = after;
    }

    /// Each object as it was made, and the changes in order.
    pub fn into_history(self) -> History
        ensures objects { result.objects ≡ self.made }
        ensures changes { result.changes ≡ self.changes }
    {
        let Store {
            alloc: _,
            mut payloads,
            originals,
            changes,
            mark: _,
        } = self;
        for original in originals {
            put_back(payloads.as_mut_slice(), original);
        }
        History {
            objects: PayloadList::of(payloads),
            changes: ChangeList::of(changes),
        }
    }
}

/// Takes memory for one more object, and copies its payload where that may change.
fn copy_with_room(
    payload: &Payload,
    payloads: &mut Vec<Payload>,
    originals: &mut Vec<Original>,
    alloc: Global,
) -> Result<Option<Payload>, NoMemory>
    ensures payloads { payloads.new.items ≡ payloads.old.items }
    ensures originals { originals.new.items ≡ originals.old.items }
    ensures payloads_room { OnOk result (vec_len payloads.new < vec_capacity payloads.new) }
    ensures originals_room { OnOk result (vec_len originals.new < vec_capacity originals.new) }
    ensures copy { IfOk result (λ copy. copy ≡ original_of payload.now) }
{
    payloads.reserve(1)?;
    originals.reserve(1)?;
    payload.original(alloc)
}

/// Puts the copy of an object's payload behind the others, where there is one.
fn keep(originals: &mut Vec<Original>, number: usize, copy: Option<Payload>)
    requires { vec_len originals.old < vec_capacity originals.old }
    ensures { originals.new.items ≡ with_copy originals.old.items number copy }
{
    if let Some(payload) = copy {
        originals.push_reserved(Original { number, payload });
    }
}

/// Makes an object what it was made as.
fn put_back(payloads: &mut [Payload], original: Original)
    requires { original.number < length payloads.old }
    ensures { payloads.new ≡ slice_set payloads.old original.number original.payload }
{
    payloads[original.number] = original.payload;
}
