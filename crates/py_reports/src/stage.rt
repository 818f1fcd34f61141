//! How far a report is, and what its steps answer.

use crate::chain::Chain;
use py_code::PyText;
use py_objects::{PyBaseExceptionRef, PyObjectRef};

/// How far a report is.
#[derive(Drop)]
pub enum Stage {
    /// It has not begun: the exception.
    New(PyBaseExceptionRef),
    /// What is still to come.
    Begun(Chain),
}

/// What a step answers.
#[derive(Drop)]
pub enum ReportStep {
    /// What is printed of one exception, with the sentence before it.
    Piece(PyText),
    /// The text of an object is needed, which only user code has. This doesn't come yet.
    AskStr(PyObjectRef),
    /// Nothing is left.
    Done,
    /// Memory ran out. The report is as it was.
    NoMemory,
}
