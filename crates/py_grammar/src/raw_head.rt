//! What the header lines of a raw code say together, whatever their order.

ghost use Rattle.std.specs.Prelude.{◌≡◌};
ghost use Rattle.py_grammar.specs.RawText.{head_of, no_head, with_line};

use crate::raw_block::RawCounts;
use py_code::ItemList;
use py_lines::{NameList, RawConstList, RawFlagList, RawLine};
use std::alloc::Global;
use std::mem;

/// Header lines in order.
pub type RawLineList = ItemList<RawLine>;

/// What header lines say: a field for each of their words.
#[derive(Drop)]
pub struct RawHead {
    pub flags: RawFlagList,
    pub counts: Option<RawCounts>,
    pub vars: NameList,
    pub cells: NameList,
    pub frees: NameList,
    pub names: NameList,
    pub consts: RawConstList,
    pub depth: u32,
}

impl RawHead {
    /// What no lines say.
    fn new(alloc: Global) -> RawHead
        ensures { result ≡ no_head }
    {
        RawHead {
            flags: RawFlagList::new(alloc),
            counts: None,
            vars: NameList::new(alloc),
            cells: NameList::new(alloc),
            frees: NameList::new(alloc),
            names: NameList::new(alloc),
            consts: RawConstList::new(alloc),
            depth: 0,
        }
    }

    /// Takes what one more line says; a unit is no header line.
    fn set(&mut self, line: RawLine)
        ensures { self.new ≡ with_line self.old line }
    {
        match line {
            RawLine::Flags(flags) => self.flags = flags,
            RawLine::Counts {
                posonly,
                args,
                kwonly,
            } => {
                self.counts = Some(RawCounts {
                    positional: posonly,
                    args,
                    named: kwonly,
                });
            }
            RawLine::Vars(names) => self.vars = names,
            RawLine::Cells(names) => self.cells = names,
            RawLine::Frees(names) => self.frees = names,
            RawLine::Names(names) => self.names = names,
            RawLine::Consts(constants) => self.consts = constants,
            RawLine::Depth(depth) => self.depth = depth,
            RawLine::Unit { note, .. } => mem::drop(note),
        }
    }

    /// What these lines say, each of a word of its own.
    #[tactic(auto, using(crate::proofs::RawLines::with_lines_push))]
    pub fn of(alloc: Global, lines: RawLineList) -> RawHead
        ensures { result ≡ head_of lines }
    {
        let mut head = RawHead::new(alloc);
        let mut rest = lines.into_vec();
        while let Some(line) = rest.pop() {
            head.set(line);
        }
        head
    }
}
