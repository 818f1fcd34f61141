//! The emitter: units with their lines and notes, and the constants and names that they refer to.

ghost use Rattle.std.specs.Prelude.{◌≡◌, ◌+◌, ◌%◌, ◌<◌, ◌≤◌, ◌^◌, ◌∷◌, ◌++◌, [], false, true, length, replicate, OnOk};
ghost use Rattle.py_code.specs.Units.{is_prefix};
ghost use Rattle.py_check.specs.Constants.{is_earlier};
ghost use Rattle.py_tree.specs.declared.expr.Atom.TheVariants as Atom;
ghost use Rattle.py_body.specs.Emitting.{blank, byte_of, draft_of, spelled, weights_of};
ghost use Rattle.py_body.specs.Puts.{note_over, prefix, Puts, PutsPlain, PutsJump, PutsConst, PutsLocal, PutsAtom};

use crate::scope::{Scope, Site, note_of};
use crate::sizes::Weights;
use py_check::NoteList;
use py_code::{CodeUnit, Instruction, Literal, LiteralList, NameSet, NoMemory, PyText};
use std::alloc::Global;

/// An instruction with its operand, and how many prefixes carry it.
#[derive(Clone, Copy)]
struct Spelled {
    width: u32,
    op: Instruction,
    arg: u32,
}

/// What the code of a body is put together from.
#[derive(Drop)]
pub struct Emitter {
    pub alloc: Global,
    pub units: Vec<CodeUnit>,
    /// The line of each unit.
    pub locations: Vec<u32>,
    /// The note of each unit.
    pub notes: NoteList,
    pub constants: LiteralList,
    /// The names of the globals.
    pub globals: NameSet,
    pub locals: NameSet,
    /// How many prefixes each label has, at most 3.
    pub labels: u32,
    /// How many prefixes each place of a constant, a name or a local has, at most 3.
    pub others: u32,
    /// The most values that a note speaks of.
    pub deepest: u32,
}

impl Emitter {
    /// Nothing is emitted yet.
    pub fn new(alloc: Global, locals: NameSet, labels: u32, others: u32) -> Emitter
        ensures parts { draft_of result ≡ blank locals labels others }
    {
        Emitter {
            alloc,
            units: Vec::new(alloc),
            locations: Vec::new(alloc),
            notes: NoteList::new(alloc),
            constants: LiteralList::new(alloc),
            globals: NameSet::new(alloc),
            locals,
            labels,
            others,
            deepest: 0,
        }
    }

    /// How many units its instructions take.
    pub fn weights(&self) -> Weights
        requires { (self.now.labels ≤ 3) × (self.now.others ≤ 3) }
        ensures { result ≡ weights_of (draft_of self.now) }
    {
        Weights {
            jump: self.labels + 1,
            index: self.others + 1,
            plain: 1,
        }
    }

    /// The label of the place that lies so many units behind what there is. It is cut to its 32 bits; no code is so long.
    pub fn label(&self, size: u32) -> u32
        ensures { result ≡ (length self.now.units.items + size) % 2 ^ 32 }
    {
        ((self.units.len() as u64 % (1 << 32) + u64::from(size)) % (1 << 32)) as u32
    }

    /// Adds an instruction whose operand fits a byte.
    pub fn put_plain(
        &mut self,
        op: Instruction,
        arg: u32,
        at: &Site<'_>,
        above: u32,
    ) -> Result<(), NoMemory>
        requires plain { is_prefix op ≡ false }
        requires small { arg < 256 }
        requires depth { at.now.scope.now.depth + above ≤ 65535 }
        ensures code { OnOk result (PutsPlain self.old self.new at.now above op arg) }
        ensures widths { (self.new.labels ≡ self.old.labels) × (self.new.others ≡ self.old.others) }
    {
        let width = 0;
        self.put(Spelled { width, op, arg }, at, above)
    }

    /// Adds an instruction whose operand is a label.
    pub fn put_jump(
        &mut self,
        op: Instruction,
        label: u32,
        at: &Site<'_>,
        above: u32,
    ) -> Result<(), NoMemory>
        requires plain { is_prefix op ≡ false }
        requires low { self.old.labels ≤ 3 }
        requires depth { at.now.scope.now.depth + above ≤ 65535 }
        ensures code { OnOk result (PutsJump self.old self.new at.now above op label) }
        ensures widths { (self.new.labels ≡ self.old.labels) × (self.new.others ≡ self.old.others) }
    {
        let width = self.labels;
        let arg = label;
        self.put(Spelled { width, op, arg }, at, above)
    }

    /// Adds an instruction whose operand is a new constant.
    pub fn put_const(
        &mut self,
        op: Instruction,
        literal: Literal,
        at: &Site<'_>,
        above: u32,
    ) -> Result<(), NoMemory>
        requires plain { is_prefix op ≡ false }
        requires no_code { is_earlier 0 literal ≡ true }
        requires low { self.old.others ≤ 3 }
        requires depth { at.now.scope.now.depth + above ≤ 65535 }
        ensures code { OnOk result (PutsConst self.old self.new at.now above op literal) }
        ensures widths { (self.new.labels ≡ self.old.labels) × (self.new.others ≡ self.old.others) }
    {
        let arg = index_of(self.constants.len());
        self.constants.push(literal)?;
        let width = self.others;
        self.put(Spelled { width, op, arg }, at, above)
    }

    /// Adds the load of a name, as a local or as a global.
    pub fn put_load(&mut self, name: &PyText, at: &Site<'_>, above: u32) -> Result<(), NoMemory>
        requires low { self.old.others ≤ 3 }
        requires depth { at.now.scope.now.depth + above ≤ 65535 }
        ensures code { OnOk result (PutsAtom self.old self.new at.now above (Atom.Name name.now)) }
        ensures widths { (self.new.labels ≡ self.old.labels) × (self.new.others ≡ self.old.others) }
    {
        let width = self.others;
        if let Some(place) = self.locals.place(name) {
            let op = Instruction::LoadFast;
            let arg = index_of(place);
            return self.put(Spelled { width, op, arg }, at, above);
        }
        let place = self.globals.insert(name)?;
        let op = Instruction::LoadGlobal;
        let arg = index_of(place);
        self.put(Spelled { width, op, arg }, at, above)
    }

    /// Adds an instruction whose operand is a local.
    pub fn put_local(
        &mut self,
        op: Instruction,
        name: &PyText,
        at: &Site<'_>,
        above: u32,
    ) -> Result<(), NoMemory>
        requires plain { is_prefix op ≡ false }
        requires low { self.old.others ≤ 3 }
        requires depth { at.now.scope.now.depth + above ≤ 65535 }
        ensures code { OnOk result (PutsLocal self.old self.new at.now above op name.now) }
        ensures widths { (self.new.labels ≡ self.old.labels) × (self.new.others ≡ self.old.others) }
    {
        let place = self.locals.place(name).unwrap_or(self.locals.len());
        let width = self.others;
        let arg = index_of(place);
        self.put(Spelled { width, op, arg }, at, above)
    }

    /// Adds an instruction after its prefixes, where the stack has so many values more than the scope.
    fn put(&mut self, unit: Spelled, at: &Site<'_>, above: u32) -> Result<(), NoMemory>
        requires width { unit.width ≤ 3 }
        requires depth { at.now.scope.now.depth + above ≤ 65535 }
        ensures put { OnOk result (Puts self.old self.new at.now above unit) }
        ensures widths { (self.new.labels ≡ self.old.labels) × (self.new.others ≡ self.old.others) }
    {
        let Spelled { width, op, arg } = unit;
        put_units(&mut self.units, width, op, arg)?;
        put_line(&mut self.locations, width + 1, at.line)?;
        put_note(self.alloc, &mut self.notes, width + 1, at.scope, above)?;
        self.deepest = self.deepest.max(at.scope.depth + above);
        Ok(())
    }
}

/// The operand that a place is. It is cut to its 32 bits; no list is so long.
fn index_of(place: usize) -> u32
    ensures { result ≡ place % 2 ^ 32 }
{
    (place % (1 << 32)) as u32
}

/// Adds an instruction behind so many prefixes of its operand.
fn put_units(
    units: &mut Vec<CodeUnit>,
    width: u32,
    op: Instruction,
    arg: u32,
) -> Result<(), NoMemory>
    requires { width ≤ 3 }
    ensures { OnOk result (units.new.items ≡ units.old.items ++ spelled width op arg) }
{
    let byte = byte_of(width, arg);
    if width == 0 {
        units.push(CodeUnit { op, arg: byte })?;
        return Ok(());
    }
    put_prefix(units, byte)?;
    put_units(units, width - 1, op, arg)
}

/// Adds a prefix.
fn put_prefix(units: &mut Vec<CodeUnit>, byte: u8) -> Result<(), NoMemory>
    ensures { OnOk result (units.new.items ≡ units.old.items ++ prefix byte ∷ []) }
{
    units.push(CodeUnit {
        op: Instruction::ExtendedArg,
        arg: byte,
    })?;
    Ok(())
}

/// The byte of an operand that has so many bytes behind it.
fn byte_of(width: u32, arg: u32) -> u8
    requires { width ≤ 3 }
    ensures { result ≡ byte_of width arg }
{
    (arg / 256_u32.pow(width) % 256) as u8
}

/// Adds the line of so many units.
fn put_line(locations: &mut Vec<u32>, count: u32, line: u32) -> Result<(), NoMemory>
    ensures { OnOk result (locations.new.items ≡ locations.old.items ++ replicate count line) }
{
    for _unit in 0..count {
        locations.push(line)?;
    }
    Ok(())
}

/// Adds the note of so many units.
fn put_note(
    alloc: Global,
    notes: &mut NoteList,
    count: u32,
    scope: &Scope,
    above: u32,
) -> Result<(), NoMemory>
    requires { scope.now.depth + above ≤ 65535 }
    ensures { OnOk result (notes.new ≡ notes.old ++ replicate count (note_over above scope.now)) }
{
    for _unit in 0..count {
        let note = note_of(alloc, scope, above)?;
        notes.push(note)?;
    }
    Ok(())
}
