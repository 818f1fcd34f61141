//! Lines of raw codes.

ghost use Rattle.std.specs.Prelude.{IfOk, codes};
ghost use Rattle.py_lines.specs.Finding.{Reads, ReadsAfter};
ghost use Rattle.py_lines.specs.Meaning.{Word};
ghost use Rattle.py_lines.specs.RawLines.{raw_tokens};

use crate::atoms::names_of;
use crate::constant::{RawConstList, all_consts};
use crate::count::{lone_small, three_smalls};
use crate::flag::{RawFlagList, all_flags};
use crate::meaning::Sense;
use crate::unit::{RawNote, whole_unit};
use py_code::{Instruction, ItemList, NoMemory, PyText};
use std::alloc::Global;

/// Names in order.
pub type NameList = ItemList<PyText>;

/// A line of a raw code; which may stand where, and how often, the grammar says.
#[derive(Drop)]
pub enum RawLine {
    /// `flags f ..`.
    Flags(RawFlagList),
    /// `counts P A K`: how many parameters take positional arguments alone, how many take those at all, and how many named ones alone.
    Counts {
        posonly: u32,
        args: u32,
        kwonly: u32,
    },
    /// `vars n ..`: the locals behind the parameters.
    Vars(NameList),
    /// `cells n ..`: the cells that a frame makes.
    Cells(NameList),
    /// `frees n ..`: the cells that a function brings along.
    Frees(NameList),
    /// `names n ..`: the names that operands stand for.
    Names(NameList),
    /// `consts c ..`: the constants that operands stand for.
    Consts(RawConstList),
    /// `depth D`: how deep the stack may be.
    Depth(u32),
    /// `u OP ARG ..`: an instruction, its argument, and what holds in front of it.
    Unit {
        instruction: Instruction,
        arg: u8,
        note: RawNote,
    },
}

/// The line that the tokens behind a `flags` make.
fn flags_of(alloc: Global, tokens: &[Sense<'_>]) -> Result<Option<RawLine>, NoMemory>
    ensures { IfOk result (ReadsAfter (Word (codes "flags")) raw_tokens tokens.now) }
{
    let Some(flags) = all_flags(alloc, tokens)? else {
        return Ok(None);
    };
    Ok(Some(RawLine::Flags(flags)))
}

/// The line that the tokens behind a `counts` make.
fn counts_of(tokens: &[Sense<'_>]) -> Option<RawLine>
    ensures { ReadsAfter (Word (codes "counts")) raw_tokens tokens.now result }
{
    let Some((posonly, args, kwonly)) = three_smalls(tokens) else {
        return None;
    };
    Some(RawLine::Counts {
        posonly,
        args,
        kwonly,
    })
}

/// The line that the tokens behind a `consts` make.
fn consts_of(alloc: Global, tokens: &[Sense<'_>]) -> Result<Option<RawLine>, NoMemory>
    ensures { IfOk result (ReadsAfter (Word (codes "consts")) raw_tokens tokens.now) }
{
    let Some(consts) = all_consts(alloc, tokens)? else {
        return Ok(None);
    };
    Ok(Some(RawLine::Consts(consts)))
}

/// The line that the tokens behind a `depth` make.
fn depth_of(tokens: &[Sense<'_>]) -> Option<RawLine>
    ensures { ReadsAfter (Word (codes "depth")) raw_tokens tokens.now result }
{
    let Some(depth) = lone_small(tokens) else {
        return None;
    };
    Some(RawLine::Depth(depth))
}

/// The line that the tokens behind a `u` make.
fn unit_of(alloc: Global, tokens: &[Sense<'_>]) -> Result<Option<RawLine>, NoMemory>
    ensures { IfOk result (ReadsAfter (Word (codes "u")) raw_tokens tokens.now) }
{
    let Some((instruction, arg, note)) = whole_unit(alloc, tokens)? else {
        return Ok(None);
    };
    Ok(Some(RawLine::Unit {
        instruction,
        arg,
        note,
    }))
}

/// The line of a raw code that a word begins with these tokens behind it.
fn raw_by(alloc: Global, word: &[u8], rest: &[Sense<'_>]) -> Result<Option<RawLine>, NoMemory>
    ensures { IfOk result (ReadsAfter (Word word.now) raw_tokens rest.now) }
{
    if word == b"u".as_slice() {
        return unit_of(alloc, rest);
    }
    if word == b"flags".as_slice() {
        return flags_of(alloc, rest);
    }
    if word == b"counts".as_slice() {
        return Ok(counts_of(rest));
    }
    if word == b"consts".as_slice() {
        return consts_of(alloc, rest);
    }
    if word == b"depth".as_slice() {
        return Ok(depth_of(rest));
    }
    if word == b"vars".as_slice() {
        return Ok(names_of(alloc, rest)?.map(RawLine::Vars));
    }
    if word == b"cells".as_slice() {
        return Ok(names_of(alloc, rest)?.map(RawLine::Cells));
    }
    if word == b"frees".as_slice() {
        return Ok(names_of(alloc, rest)?.map(RawLine::Frees));
    }
    if word == b"names".as_slice() {
        return Ok(names_of(alloc, rest)?.map(RawLine::Names));
    }
    Ok(None)
}

/// The line of a raw code that tokens are.
pub fn read_raw(alloc: Global, tokens: &[Sense<'_>]) -> Result<Option<RawLine>, NoMemory>
    ensures { IfOk result (Reads raw_tokens tokens.now) }
{
    let Some((first, rest)) = tokens.split_first() else {
        return Ok(None);
    };
    let Sense::Word(word) = first else {
        return Ok(None);
    };
    raw_by(alloc, word, rest)
}
