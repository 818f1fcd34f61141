//! The body of a function: its header and its statements.

use crate::stmt::StmtList;
use py_code::{ItemList, PyText};

/// Parameters in order.
pub type ParamList = ItemList<PyText>;

/// What a call of a function makes.
#[derive(Clone, Copy, Debug, PartialEq, Eq)]
pub enum BodyKind {
    /// An activation, whose end is the call's.
    Function,
    /// A generator, whose activation its callers enter as often as it yields.
    Generator,
}

/// A function: its kind, its name, its parameters, its statements and the line of its header, from 1.
#[derive(Drop)]
pub struct Body {
    pub kind: BodyKind,
    pub name: PyText,
    pub params: ParamList,
    pub suite: StmtList,
    pub line: u32,
}
