//! The raw code that is open while its lines are read.

ghost use Rattle.std.specs.Prelude.{◌≡◌, ◌==◌, length, not, IfOk};
ghost use Rattle.py_grammar.specs.RawText.{bare_text, raw_of};
ghost use Rattle.py_grammar.specs.Reading.{AddsHead, AddsUnit, CodeGoesOn};

use crate::raw_block::{RawBlock, RawUnit, RawUnitList};
use crate::raw_head::{RawHead, RawLineList};
use crate::raw_rules::{have_depth, may_follow, may_run_behind, prefix_behind};
use py_code::{NameSet, NoMemory, OpArgState, PyText};
use py_lines::RawLine;
use py_tree::ParamList;
use std::alloc::Global;
use std::marker::Model;
use std::mem;

/// The header of a raw code, with the line it stands in, the header lines and the units read so far, and the argument that prefixes have
/// built for the next unit. Seen as what was read.
#[derive(Drop)]
pub struct OpenRaw {
    line: u32,
    name: PyText,
    params: ParamList,
    head: RawLineList,
    units: RawUnitList,
    prefixes: OpArgState,
}

impl Model for OpenRaw {
    ghost use Rattle.std.specs.Prelude.{◌≡◌};
    ghost use Rattle.py_grammar.specs.RawText.{carried, RawText};

    ghost Value = { RawText };

    ghost view = { λ o. record { line = o.line; name = o.name; params = o.params; head = o.head; units = o.units } };

    ghost invariant = { λ o. o.prefixes ≡ carried o.units };
}

impl OpenRaw {
    /// The raw code of which the header alone was read.
    pub fn new(alloc: Global, line: u32, name: PyText, params: ParamList) -> OpenRaw
        ensures { result ≡ bare_text line name params }
    {
        OpenRaw {
            line,
            name,
            params,
            head: RawLineList::new(alloc),
            units: RawUnitList::new(alloc),
            prefixes: OpArgState::new(),
        }
    }

    /// Its name.
    pub fn name(&self) -> &PyText
        ensures { result.now ≡ self.now.name }
    {
        &self.name
    }

    /// Takes one more header line, where it may stand there, behind functions of these names.
    fn push_head(&mut self, functions: &NameSet, line: RawLine) -> Result<bool, NoMemory>
        ensures taken { IfOk result (AddsHead functions.now self.old self.new line) }
        ensures name { self.new.name ≡ self.old.name }
    {
        if !self.units.is_empty() || !may_follow(functions, self.head.as_slice(), &line) {
            mem::drop(line);
            return Ok(false);
        }
        self.head.push(line)?;
        Ok(true)
    }

    /// Takes one more unit, where it may stand there.
    #[tactic(auto, using(crate::proofs::RawLines::carried_push))]
    fn push_unit(&mut self, unit: RawUnit) -> Result<bool, NoMemory>
        ensures taken { IfOk result (AddsUnit self.old self.new unit) }
        ensures name { self.new.name ≡ self.old.name }
    {
        if !have_depth(self.head.as_slice()) || !may_run_behind(self.prefixes, &unit) {
            mem::drop(unit);
            return Ok(false);
        }
        let prefixes = prefix_behind(self.prefixes, &unit);
        self.units.push(unit)?;
        self.prefixes = prefixes;
        Ok(true)
    }

    /// Takes one more line, where it may stand there, behind functions of these names.
    pub fn push(
        &mut self,
        functions: &NameSet,
        number: u32,
        line: RawLine,
    ) -> Result<bool, NoMemory>
        ensures taken { IfOk result (CodeGoesOn functions.now self.old self.new number line) }
        ensures name { self.new.name ≡ self.old.name }
    {
        match line {
            RawLine::Unit {
                instruction,
                arg,
                note,
            } => self.push_unit(RawUnit {
                line: number,
                op: instruction,
                arg,
                note,
            }),
            line => self.push_head(functions, line),
        }
    }

    /// Whether it may end there: it has a unit.
    pub fn is_whole(&self) -> bool
        ensures { result ≡ not (length self.now.units == 0) }
    {
        !self.units.is_empty()
    }

    /// The raw code that was read.
    pub fn block(self, alloc: Global) -> RawBlock
        ensures { result ≡ raw_of self }
    {
        let OpenRaw {
            line,
            name,
            params,
            head,
            units,
            prefixes: _,
        } = self;
        let RawHead {
            flags,
            counts,
            vars,
            cells,
            frees,
            names,
            consts,
            depth,
        } = RawHead::of(alloc, head);
        RawBlock {
            line,
            name,
            params,
            flags,
            counts,
            vars,
            cells,
            frees,
            names,
            consts,
            depth,
            units,
        }
    }
}
