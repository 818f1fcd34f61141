//! Constants of raw codes, by what the tokens mean that print them.

ghost use Rattle.std.specs.Prelude.{[], IfOk, map};
ghost use Rattle.py_lines.specs.Finding.{Prints, Reads};
ghost use Rattle.py_lines.specs.Printing.{atom_token};
ghost use Rattle.py_lines.specs.RawFinding.{FindsBefore, FindsFirst};
ghost use Rattle.py_lines.specs.RawLines.{const_tokens, consts_tokens, raw_atom_token, tuple_tokens};
ghost use Rattle.py_lines.specs.Senses.{meaning_of};

use crate::atoms::atom_of;
use crate::expr::{closes, from};
use crate::meaning::Sense;
use py_code::{ItemList, NoMemory, PyText, text_of};
use py_tree::Atom;
use std::alloc::Global;

/// A constant that holds no others.
#[derive(Drop)]
pub enum RawAtom {
    /// `None`.
    None,
    /// `True` or `False`.
    Bool(bool),
    /// A whole number.
    Int(i128),
    /// A text.
    Str(PyText),
}

/// Such constants in order.
pub type RawAtomList = ItemList<RawAtom>;

/// A constant of a raw code.
#[derive(Drop)]
pub enum RawConst {
    /// One that holds no others.
    Atom(RawAtom),
    /// `@NAME`: the code of this name.
    Code(PyText),
    /// `(a ..)`: a tuple of these.
    Tuple(RawAtomList),
}

/// Constants of a raw code in order.
pub type RawConstList = ItemList<RawConst>;

impl RawAtom {
    /// An atom of a body as a constant, where it is no name.
    fn of(atom: Atom) -> Option<RawAtom>
        ensures { Prints raw_atom_token (atom_token atom) result }
    {
        match atom {
            Atom::None => Some(RawAtom::None),
            Atom::Bool(value) => Some(RawAtom::Bool(value)),
            Atom::Int(number) => Some(RawAtom::Int(number)),
            Atom::Str(text) => Some(RawAtom::Str(text)),
            Atom::Name(_) => None,
        }
    }
}

/// The constant that a token is.
fn raw_atom_of(alloc: Global, token: &Sense<'_>) -> Result<Option<RawAtom>, NoMemory>
    ensures { IfOk result (Prints raw_atom_token (meaning_of token.now)) }
{
    let Some(atom) = atom_of(alloc, token)? else {
        return Ok(None);
    };
    Ok(RawAtom::of(atom))
}

/// The constant that is the token in front and holds no others.
fn front_atom(alloc: Global, tokens: &[Sense<'_>]) -> Result<Option<RawAtom>, NoMemory>
    ensures { IfOk result (FindsFirst raw_atom_token (map meaning_of tokens.now)) }
{
    match tokens.split_first() {
        Some((first, _)) => raw_atom_of(alloc, first),
        None => Ok(None),
    }
}

/// The items of a tuple whose opening parenthesis stood in front of these tokens, and how many tokens they are with the one that closes.
fn front_tuple(
    alloc: Global,
    tokens: &[Sense<'_>],
) -> Result<Option<(RawAtomList, usize)>, NoMemory>
    ensures { IfOk result (FindsBefore tuple_tokens (map meaning_of tokens.now)) }
{
    let mut items = RawAtomList::new(alloc);
    let mut at = 0;
    while at < tokens.len() {
        let rest = from(tokens, at);
        if closes(rest) {
            return Ok(Some((items, at + 1)));
        }
        let Some(item) = front_atom(alloc, rest)? else {
            return Ok(None);
        };
        items.push(item)?;
        at += 1;
    }
    Ok(None)
}

/// The constant that stands in front, and how many tokens it is.
fn front_const(alloc: Global, tokens: &[Sense<'_>]) -> Result<Option<(RawConst, usize)>, NoMemory>
    ensures { IfOk result (FindsBefore const_tokens (map meaning_of tokens.now)) }
{
    let Some((first, behind)) = tokens.split_first() else {
        return Ok(None);
    };
    match first {
        Sense::Ref(name) => Ok(Some((RawConst::Code(text_of(alloc, name)?), 1))),
        Sense::Open => match front_tuple(alloc, behind)? {
            Some((items, used)) => Ok(Some((RawConst::Tuple(items), used + 1))),
            None => Ok(None),
        },
        _ => match raw_atom_of(alloc, first)? {
            Some(atom) => Ok(Some((RawConst::Atom(atom), 1))),
            None => Ok(None),
        },
    }
}

/// The constants that all the tokens are.
pub fn all_consts(alloc: Global, tokens: &[Sense<'_>]) -> Result<Option<RawConstList>, NoMemory>
    ensures { IfOk result (Reads (λ cs. consts_tokens cs []) tokens.now) }
{
    let mut consts = RawConstList::new(alloc);
    let mut at = 0;
    while at < tokens.len() {
        let rest = from(tokens, at);
        let Some((constant, used)) = front_const(alloc, rest)? else {
            return Ok(None);
        };
        consts.push(constant)?;
        at += used;
    }
    Ok(Some(consts))
}
