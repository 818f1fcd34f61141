//! Raw codes: units of code written by hand, with what their header says.

use py_code::{Instruction, ItemList, PyText};
use py_lines::{NameList, RawConstList, RawFlagList, RawNote};
use py_tree::ParamList;

/// `counts P A K`: how many parameters take positional arguments alone, how many take those at all, and how many named ones alone.
#[derive(Clone, Copy, Debug, PartialEq, Eq)]
pub struct RawCounts {
    pub positional: u32,
    pub args: u32,
    pub named: u32,
}

/// `u OP ARG ..`: an instruction, its argument and what holds in front of it, with the line that it stands in.
#[derive(Drop)]
pub struct RawUnit {
    pub line: u32,
    pub op: Instruction,
    pub arg: u8,
    pub note: RawNote,
}

/// Units in order.
pub type RawUnitList = ItemList<RawUnit>;

/// `code NAME p ..`, its lines and `end`: a field has what the line of its word says, and is empty where that line is absent.
#[derive(Drop)]
pub struct RawBlock {
    /// The line of the header.
    pub line: u32,
    pub name: PyText,
    pub params: ParamList,
    pub flags: RawFlagList,
    pub counts: Option<RawCounts>,
    /// The locals behind the parameters.
    pub vars: NameList,
    /// The cells that a frame makes.
    pub cells: NameList,
    /// The cells that a function brings along.
    pub frees: NameList,
    pub names: NameList,
    /// The constants; one that is a code has the name of an earlier function.
    pub consts: RawConstList,
    /// How deep the stack may be.
    pub depth: u32,
    pub units: RawUnitList,
}
