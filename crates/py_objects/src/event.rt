//! The events of a run, each of which is one turn.

use crate::refs::{ObjList, PyBaseExceptionRef, PyObjectRef};
use crate::request::Request;
use py_code::{ItemList, PyText};

/// One event. Drives and activations are numbered from 1; `at` is the unit of the activation's code, 0 where it has
/// begun none; `own` is the exception that the asking body handles.
#[derive(Drop)]
pub enum Event {
    /// A drive of the script begins.
    Drive {
        drive: u64,
    },
    /// A drive has its answer.
    Result {
        drive: u64,
        answer: DriveAnswer,
    },
    /// An activation of a function is made, with the values of its parameters in order.
    Make {
        act: u64,
        function: PyObjectRef,
        args: ObjList,
    },
    /// An activation is entered.
    Resume {
        act: u64,
        how: ResumeHow,
    },
    /// A body asks.
    Ask {
        act: u64,
        request: Request,
        own: Option<PyBaseExceptionRef>,
        at: u32,
    },
    /// A body gets the answer to what it asked.
    Got {
        act: u64,
        answer: GotAnswer,
    },
    /// A loop begins, or goes round.
    Round {
        act: u64,
        at: u32,
    },
    /// A generator yields.
    Yield {
        act: u64,
        value: PyObjectRef,
        at: u32,
    },
    /// An activation ends.
    End {
        act: u64,
        ending: Ending,
        at: u32,
    },
}

/// Events in order.
pub type EventList = ItemList<Event>;

/// What a drive comes to.
#[derive(Drop)]
pub enum DriveAnswer {
    Returns(PyObjectRef),
    Yields(PyObjectRef),
    Stops(Option<PyObjectRef>),
    Closes,
    Raises(PyBaseExceptionRef),
    Reported(PyText),
}

/// How an activation is entered.
#[derive(Clone, Copy, Debug, PartialEq, Eq)]
pub enum ResumeHow {
    Start,
    Send(PyObjectRef),
    Throw(PyBaseExceptionRef),
}

/// What a body's question is answered.
#[derive(Clone, Copy, Debug, PartialEq, Eq)]
pub enum GotAnswer {
    Value(PyObjectRef),
    Stop(Option<PyObjectRef>),
    Raise(PyBaseExceptionRef),
}

/// How an activation ends.
#[derive(Clone, Copy, Debug, PartialEq, Eq)]
pub enum Ending {
    Return(PyObjectRef),
    Raise(PyBaseExceptionRef),
}
