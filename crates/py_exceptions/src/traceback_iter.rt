//! The entries of a traceback, one after another.

ghost use Rattle.std.specs.Prelude.{◌≡◌, Some, IfSome};
ghost use Rattle.std.specs.Iterator.{item_count, YieldsFirstBy};
ghost use Rattle.py_objects.specs.Refs.{object_of_traceback};
ghost use Rattle.py_objects.specs.Edits.{objects_of};
ghost use Rattle.py_exceptions.specs.Nexts.{next_at};
ghost use Rattle.py_exceptions.specs.Orders.{IsMet, IsOrder, LeadsToEach};

use crate::links::link;
use py_objects::{LinkField, PyObjectRef, PyTracebackRef, Store};
use std::marker::Model;

/// The entries of a traceback along the links, each once, seen as the list of those that are left. It takes no memory.
#[derive(Drop)]
pub struct TracebackIter<'a> {
    store: &'a Store,
    next: Option<PyObjectRef>,
    /// How many links are followed from there on.
    links: u64,
}

impl<'a> Model for TracebackIter<'a> {
    ghost use Rattle.std.specs.Prelude.{List};
    ghost use Rattle.py_objects.specs.Objects.{Obj};
    ghost use Rattle.py_objects.specs.Edits.{objects_of};
    ghost use Rattle.py_exceptions.specs.Nexts.{next_at};
    ghost use Rattle.py_exceptions.specs.Orders.{walked};

    ghost Value = { List Obj };

    ghost view = { λ it. walked (next_at (objects_of it.store.now)) it.next it.links };
}

impl<'a> TracebackIter<'a> {
    /// The entries along the links from an object on, each once.
    pub(crate) fn new(store: &'a Store, from: PyObjectRef) -> TracebackIter<'a>
        ensures { IsOrder (next_at (objects_of store.now)) from result }
    {
        TracebackIter {
            store,
            next: Some(from),
            links: links_to_each(store, from),
        }
    }
}

impl<'a> Iterator for TracebackIter<'a> {
    type Item = PyTracebackRef;

    ghost next_gives = { YieldsFirstBy object_of_traceback (λ rest. rest) };

    ghost remaining = { item_count (λ rest. rest) };

    fn next(&mut self) -> Option<PyTracebackRef> {
        let object = self.next.take()?;
        if self.links > 0 {
            self.links -= 1;
            self.next = link(self.store, LinkField::Next, object);
        }
        Some(PyTracebackRef {
            number: object.number,
        })
    }
}

/// How many links lead to each object on the way from one.
fn links_to_each(store: &Store, from: PyObjectRef) -> u64
    ensures { LeadsToEach (next_at (objects_of store.now)) from result }
{
    if let Some(links) = links_to_end(store, from) {
        return links;
    }
    links_to_repeat(store, from)
}

/// How many links lead to each object on the way from one, where it ends. All are different then.
fn links_to_end(store: &Store, from: PyObjectRef) -> Option<u64>
    ensures { IfSome result (LeadsToEach (next_at (objects_of store.now)) from) }
{
    let mut at = from;
    for links in 0..store.len() {
        let Some(next) = link(store, LinkField::Next, at) else {
            return Some(links);
        };
        at = next;
    }
    None
}

/// How many links lead to each object on the way from one, up to the end or to one that was met before.
fn links_to_repeat(store: &Store, from: PyObjectRef) -> u64
    ensures { LeadsToEach (next_at (objects_of store.now)) from result }
{
    let mut next = link(store, LinkField::Next, from);
    for links in 0..store.len() {
        let Some(object) = next else {
            return links;
        };
        if is_met(store, from, links, object) {
            return links;
        }
        next = link(store, LinkField::Next, object);
    }
    store.len()
}

/// Whether an object is met on the way from one, by so many links at most.
fn is_met(store: &Store, from: PyObjectRef, links: u64, object: PyObjectRef) -> bool
    ensures { IsMet (next_at (objects_of store.now)) from links object result }
{
    let mut at = from;
    for _step in 0..links {
        if at.number == object.number {
            return true;
        }
        let Some(next) = link(store, LinkField::Next, at) else {
            return false;
        };
        at = next;
    }
    at.number == object.number
}
