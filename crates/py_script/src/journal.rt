//! The text of a journal.

ghost use Rattle.std.specs.Prelude.{◌≡◌, IfOk, OnOk, string_bytes};
ghost use Rattle.py_objects.specs.Due.{AreInOrder, later};
ghost use Rattle.py_exceptions.specs.Writing.{Adds};
ghost use Rattle.py_meaning.specs.Text.{event_text, text_of};
ghost use Rattle.py_script.specs.Writing.{HasDue, latest};

use crate::text::push_event;
use py_code::NoMemory;
use py_objects::{
    Change, Event, Payload, PayloadList, are_in_order, copy_all, make_due, objects_at,
};
use py_vm::Journal;
use std::alloc::Global;

/// The copy of the objects that is edited on, or a first one.
fn copy_of(
    alloc: Global,
    made: &PayloadList,
    changed: Option<PayloadList>,
) -> Result<Vec<Payload>, NoMemory>
    ensures { IfOk result (λ copy. copy.items ≡ latest made.now changed) }
{
    match changed {
        Some(objects) => Ok(objects.into_vec()),
        None => copy_all(alloc, made.as_slice()),
    }
}

/// Makes the changes that are due at an event, all in one copy of the objects, and returns those
/// that are left. As long as none was due, nothing is copied.
fn go_on<'a>(
    alloc: Global,
    made: &PayloadList,
    changed: &mut Option<PayloadList>,
    left: &'a [Change],
    event: u64,
) -> Result<&'a [Change], NoMemory>
    requires { AreInOrder left.now }
    ensures made { OnOk result (HasDue made.now changed.old changed.new left.now event) }
    ensures left { IfOk result (λ rest. rest.now ≡ later event left.now) }
{
    let Some((first, _)) = left.split_first() else {
        return Ok(left);
    };
    if first.after > event {
        return Ok(left);
    }
    let mut objects = copy_of(alloc, made, changed.take())?;
    let rest = make_due(alloc, objects.as_mut_slice(), left, event)?;
    *changed = Some(PayloadList::of(objects));
    Ok(rest)
}

/// Puts the text of an event after the text, by the latest objects.
fn push_latest(
    out: &mut String,
    made: &PayloadList,
    changed: &Option<PayloadList>,
    event: &Event,
) -> Result<(), NoMemory>
    ensures { Adds result out.old out.new (event_text (latest made.now changed.now) event.now) }
{
    match changed {
        Some(objects) => push_event(out, objects.as_slice(), event),
        None => push_event(out, made.as_slice(), event),
    }
}

/// The text of a journal whose changes are in the order of their events: these are gone through
/// once, beside the events.
fn text_in_order(alloc: Global, journal: &Journal) -> Result<String, NoMemory>
    requires { AreInOrder journal.now.changes }
    ensures { IfOk result (λ text. string_bytes text ≡ text_of journal.now) }
{
    let mut out = String::new(alloc);
    let mut changed = None;
    let mut left = journal.changes.as_slice();
    for (number, event) in journal.events.as_slice().iter().enumerate() {
        left = go_on(alloc, &journal.objects, &mut changed, left, number as u64)?;
        push_latest(&mut out, &journal.objects, &changed, event)?;
    }
    Ok(out)
}

/// The text of a journal whose changes are in any order, by a copy of the objects for each event.
fn text_by_copies(alloc: Global, journal: &Journal) -> Result<String, NoMemory>
    ensures { IfOk result (λ text. string_bytes text ≡ text_of journal.now) }
{
    let mut out = String::new(alloc);
    for (number, event) in journal.events.as_slice().iter().enumerate() {
        let objects = objects_at(alloc, &journal.objects, &journal.changes, number as u64)?;
        push_event(&mut out, objects.as_slice(), event)?;
    }
    Ok(out)
}

/// The text of a journal: a line for each value that is shown and for each result of a drive, in order, and each report as
/// it is. Each is told by the objects as they were at its event.
pub fn journal_text(alloc: Global, journal: &Journal) -> Result<Vec<u8>, NoMemory>
    ensures { IfOk result (λ bytes. bytes.items ≡ text_of journal.now) }
{
    let text = if are_in_order(journal.changes.as_slice()) {
        text_in_order(alloc, journal)?
    } else {
        text_by_copies(alloc, journal)?
    };
    Ok(text.into_bytes())
}
