//! Changes of objects after they were made.

use crate::payload::PayloadList;
use crate::refs::PyObjectRef;
use py_code::{ItemList, PyText};

/// A change of an object, made when the journal had `after` events.
#[derive(Drop)]
pub struct Change {
    pub after: u64,
    pub object: PyObjectRef,
    pub edit: Edit,
}

/// Changes in the order in which they were made.
pub type ChangeList = ItemList<Change>;

/// A store's end: each object's payload as it was made, and the changes in order.
#[derive(Drop)]
pub struct History {
    pub objects: PayloadList,
    pub changes: ChangeList,
}

/// What a change does to its object.
#[derive(Drop)]
pub enum Edit {
    /// Sets or clears a link of an exception or a traceback.
    Link(LinkField, Option<PyObjectRef>),
    /// Sets whether an exception's context is suppressed.
    Flag(bool),
    /// Sets the arguments of an exception.
    Args(PyObjectRef),
    /// Sets or deletes an attribute.
    Attr(PyText, Option<PyObjectRef>),
    /// Adds an item to a list or a set.
    Append(PyObjectRef),
    /// Sets an item of a list.
    SetAt(usize, PyObjectRef),
    /// Takes an item off a list.
    RemoveAt(usize),
    /// Sets a key of a dict.
    Put(PyObjectRef, PyObjectRef),
    /// Deletes a key of a dict.
    Drop(PyObjectRef),
    /// Sets or empties a cell.
    Cell(Option<PyObjectRef>),
    /// Moves an iterator.
    Place(i128),
    /// Moves an awaitable to another state.
    State(AwaitState),
}

/// The links of exceptions and tracebacks.
#[derive(Clone, Copy, Debug, PartialEq, Eq)]
pub enum LinkField {
    Cause,
    Context,
    Traceback,
    Next,
}

/// The states of an awaitable.
#[derive(Clone, Copy, Debug, PartialEq, Eq)]
pub enum AwaitState {
    Init,
    Iter,
    Closed,
}
