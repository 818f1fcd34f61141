//! The rules on units, and the first that is broken.

ghost use Rattle.std.specs.Prelude.{◌≡◌, ◌≤◌, ◌<◌, ◌+◌, Some, None, Err, IfOk, OnOk, length, nat_lt, replicate, slice_get, true};
ghost use Rattle.std.specs.List.{list_all};
ghost use Rattle.py_check.specs.declared.fault.CheckFault.TheVariants as CheckFault;
ghost use Rattle.py_check.specs.Sheet.{sheet_of};
ghost use Rattle.py_check.specs.Effects.{is_named, places_down};
ghost use Rattle.py_check.specs.Table.{places_by};
ghost use Rattle.py_check.specs.Operands.{operand};
ghost use Rattle.py_check.specs.Taking.{picked};
ghost use Rattle.py_check.specs.Sites.{exchanges, keeps_op_at, moves, IsOperand};
ghost use Rattle.py_check.specs.Checking.{units_of, KnowsInnermost};
ghost use Rattle.py_check.specs.Typing.{keeps_at, IsTyped};
ghost use Rattle.py_check.specs.Breaking.{BreaksWhere};

use crate::annotated::Annotated;
use crate::checked::CheckedCode;
use crate::fault::CheckFault;
use crate::innermost::{all_innermost_land, open_handlers_land};
use crate::landing::{is_label, levels_nest, top_level};
use crate::note::{Kind, Note};
use crate::site::Site;
use crate::table::{Effect, OpArgType, look_up, names_by};
use crate::taking::below_formatted;
use crate::whole::keeps_whole;
use py_code::{Instruction, ItemList, NoMemory, OpArgState};
use std::alloc::Global;

/// How many free names each earlier code has, in order.
pub type Shapes = ItemList<usize>;

/// Whether what an operand names is there.
fn is_named(code: &Annotated, names: OpArgType, arg: u32) -> bool
    ensures { result ≡ is_named (sheet_of code.now) names arg }
{
    let code = &code.code.code;
    let place = arg as usize;
    match names {
        OpArgType::Nothing => true,
        OpArgType::Constant => place < code.constants.len(),
        OpArgType::Local => place < code.varnames.len(),
        OpArgType::Name => place < code.names.len(),
        OpArgType::Cell => is_cell(code.cellvars.len(), code.freevars.len(), place),
        OpArgType::FreeCell => {
            code.cellvars.len() <= place && is_cell(code.cellvars.len(), code.freevars.len(), place)
        }
        OpArgType::Label => is_label(code.instructions.as_slice(), place),
        OpArgType::OneOf(count) => place < count,
    }
}

fn is_cell(own: usize, free: usize, place: usize) -> bool
    ensures { result ≡ nat_lt place (own + free) }
{
    place < own || place - own < free
}

/// The places below so many, the lowest first.
fn places_down(alloc: Global, count: usize) -> Result<Vec<usize>, NoMemory>
    ensures { IfOk result (λ places. places.items ≡ places_down count) }
{
    let mut places = Vec::new(alloc);
    let mut left = count;
    'down: while left > 0 {
        left -= 1;
        places.push(left)?;
    }
    Ok(places)
}

/// The places whose entries come in the place of those that go.
fn places_by(alloc: Global, op: Instruction, count: usize) -> Result<Vec<usize>, NoMemory>
    ensures { IfOk result (λ places. places.items ≡ places_by op count) }
{
    match op {
        Instruction::Duplicate => Ok(vec![in alloc; 0]?),
        Instruction::Duplicate2 => Ok(vec![in alloc; 0, 1]?),
        Instruction::Rotate2 => Ok(vec![in alloc; 1, 0]?),
        Instruction::Rotate3 => Ok(vec![in alloc; 1, 2, 0]?),
        Instruction::Reverse => places_down(alloc, count),
        _ => Ok(Vec::new(alloc)),
    }
}

/// The kind of the entry at a place.
fn kind_at(kinds: &[Kind], place: usize) -> Option<Kind>
    ensures { result ≡ slice_get kinds.now place }
{
    kinds.get(place).copied()
}

/// The kinds of the entries at places that are there.
fn picked(alloc: Global, places: &[usize], kinds: &[Kind]) -> Result<Vec<Kind>, NoMemory>
    ensures { IfOk result (λ picks. picks.items ≡ picked places.now kinds.now) }
{
    let mut picks = Vec::new(alloc);
    let mut left = places;
    'picked_left: while let [place, more @ ..] = left {
        if let Some(kind) = kind_at(kinds, *place) {
            picks.push(kind)?;
        }
        left = more;
    }
    Ok(picks)
}

/// As many entries of a kind.
fn repeated(alloc: Global, kind: Kind, count: usize) -> Result<Vec<Kind>, NoMemory>
    ensures { IfOk result (λ kinds. kinds.items ≡ replicate count kind) }
{
    Ok(vec![in alloc; kind; count]?)
}

fn all_there(places: &[usize], depth: usize) -> bool
    ensures { result ≡ list_all (λ p. nat_lt p depth) places.now }
{
    places.iter().all(|place| *place < depth)
}

/// Whether entries that are moved leave what control goes on with.
fn moves(alloc: Global, site: &Site<'_>, count: usize, places: &[usize]) -> Result<bool, NoMemory>
    requires { count ≤ length site.now.kinds.now }
    ensures { IfOk result (λ kept. kept ≡ moves site.now count places.now) }
{
    if site.kinds.len() - count < top_level(site.blocks) {
        return Ok(false);
    }
    if !all_there(places, site.kinds.len()) {
        return Ok(false);
    }
    let moved = if count == 0 {
        repeated(alloc, Kind::Any, places.len())?
    } else {
        picked(alloc, places, site.kinds)?
    };
    Ok(site.goes_on(moved.as_slice(), &site.kinds[count..]))
}

/// Whether so many entries are there, and control goes on with so many others of a kind in their place.
fn exchanges(
    alloc: Global,
    site: &Site<'_>,
    count: usize,
    pushed: usize,
    of: Kind,
) -> Result<bool, NoMemory>
    ensures { IfOk result (λ kept. kept ≡ exchanges site.now count (replicate pushed of)) }
{
    match site.below(count, Kind::Any) {
        Some(rest) => {
            // So that no more memory is taken than the stack may hold.
            if pushed > site.code.code.code.max_stackdepth as usize {
                return Ok(false);
            }
            let front = repeated(alloc, of, pushed)?;
            Ok(site.goes_on(front.as_slice(), rest))
        }
        None => Ok(false),
    }
}

/// Whether an instruction keeps the rules, with its operand.
fn keeps_op(
    alloc: Global,
    site: &Site<'_>,
    shapes: &[usize],
    op: Instruction,
    arg: u32,
) -> Result<bool, NoMemory>
    ensures { IfOk result (λ kept. kept ≡ keeps_op_at site.now shapes.now op arg) }
{
    if !is_named(site.code, names_by(op), arg) {
        return Ok(false);
    }
    match look_up(op, arg) {
        Effect::Moves(count) => {
            if count > site.kinds.len() {
                return Ok(false);
            }
            let places = places_by(alloc, op, count)?;
            moves(alloc, site, count, places.as_slice())
        }
        Effect::Gives { count, of, pushed } => Ok(site.gives(count, of, &[pushed])),
        Effect::Does(count) => Ok(site.gives(count, Kind::Any, &[])),
        Effect::Formats => match below_formatted(site.kinds, site.blocks) {
            Some(rest) => Ok(site.goes_on(&[Kind::Any], rest)),
            None => Ok(false),
        },
        Effect::Takes { count, pushed, of } => exchanges(alloc, site, count, pushed, of),
        Effect::Other => Ok(site.keeps_own(shapes, op, arg)),
    }
}

/// What the units of a code are checked by.
#[derive(Clone, Copy)]
struct Checking<'a> {
    code: &'a Annotated,
    /// How many free names each earlier code has.
    shapes: &'a [usize],
    /// Whether it is known that control may come to the innermost handler from each unit.
    all_land: bool,
}

/// Whether a unit keeps the rules, with its operand.
fn keeps_at(alloc: Global, checking: &Checking<'_>, at: u32, arg: u32) -> Result<bool, NoMemory>
    requires within { at < length (units_of checking.now) }
    requires notes { length checking.now.code.now.notes ≡ length (units_of checking.now) }
    requires arg { IsOperand (units_of checking.now) at arg }
    requires land { KnowsInnermost checking.now }
    ensures { IfOk result
        (λ kept. kept ≡ keeps_at checking.now.shapes.now (sheet_of checking.now.code.now) at) }
{
    let Checking {
        code,
        shapes,
        all_land,
    } = *checking;
    let op = code.code.code.instructions[at as usize].op;
    match code.notes.get(at as usize) {
        None => Ok(false),
        Some(Note::Dead) => Ok(true),
        Some(Note::Live { kinds, blocks }) => {
            if kinds.len() > code.code.code.max_stackdepth as usize {
                return Ok(false);
            }
            let kinds = kinds.expanded(alloc)?;
            let kinds = kinds.as_slice();
            if !levels_nest(kinds.len(), blocks) {
                return Ok(false);
            }
            if !open_handlers_land(code, kinds, blocks, all_land) {
                return Ok(false);
            }
            let site = Site {
                code,
                at,
                kinds,
                blocks,
            };
            keeps_op(alloc, &site, shapes, op, arg)
        }
    }
}

/// The first unit that breaks a rule, if any does.
fn first_break(alloc: Global, code: &Annotated, shapes: &[usize]) -> Result<Option<usize>, NoMemory>
    ensures none { IfOk result (λ found. found ≡ None → IsTyped shapes.now (sheet_of code.now)) }
    ensures first { IfOk result (λ found. BreaksWhere (λ at. found ≡ Some at) shapes.now code.now) }
{
    if !keeps_whole(code, shapes) {
        return Ok(Some(0));
    }
    let checking = Checking {
        code,
        shapes,
        all_land: all_innermost_land(alloc, code)?,
    };
    let units = code.code.code.instructions.as_slice();
    let mut state = OpArgState::new();
    for at in 0..units.len() {
        let unit = units[at];
        let arg = state.extend(unit.arg);
        if !keeps_at(alloc, &checking, at as u32, arg.0)? {
            return Ok(Some(at));
        }
        if !unit.op.is_prefix() {
            state.reset();
        }
    }
    Ok(None)
}

/// Checks a code: gives it where its notes keep the rules, else the first unit that breaks one. The shapes are the numbers of free names of
/// the earlier codes, in order.
pub fn check_code(
    alloc: Global,
    code: Annotated,
    shapes: &Shapes,
) -> Result<CheckedCode, CheckFault>
    ensures ok { IfOk result (λ checked. checked ≡ code) }
    ensures typed { OnOk result (IsTyped shapes.now (sheet_of code)) }
    ensures breaks { BreaksWhere (λ at. result ≡ Err (CheckFault.Breaks at)) shapes.now code }
{
    match first_break(alloc, &code, shapes.as_slice())? {
        Some(at) => Err(CheckFault::Breaks(at)),
        None => Ok(CheckedCode::known(code)),
    }
}
