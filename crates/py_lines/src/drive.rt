//! Drives: what a script asks of its functions from outside.

ghost use Rattle.std.specs.Prelude.{◌≡◌, ◌∷◌, [], IfOk, codes, map};
ghost use Rattle.py_lines.specs.Finding.{Prints, Reads, ReadsAfter};
ghost use Rattle.py_lines.specs.Meaning.{Word};
ghost use Rattle.py_lines.specs.Senses.{meaning_of};
ghost use Rattle.py_lines.specs.Printing.{atom_token, drive_token, drive_tokens, number_token, thrown_tokens};

use crate::atoms::{atom_of, name_of};
use crate::meaning::Sense;
use py_code::{ItemList, NoMemory, PyText};
use py_tree::Atom;
use std::alloc::Global;

/// An argument of a drive.
#[derive(Drop)]
pub enum DriveAtom {
    /// `None`.
    None,
    /// `True` or `False`.
    Bool(bool),
    /// A whole number.
    Int(i128),
    /// A text.
    Str(PyText),
    /// The name of a declaration or of a built-in class.
    Name(PyText),
    /// `$N`: what the drive of this number came to, from 1.
    Drive(u64),
}

/// Arguments of a drive in order.
pub type DriveAtomList = ItemList<DriveAtom>;

/// A drive.
#[derive(Drop)]
pub enum DriveLine {
    /// `call f a ..`.
    Call(PyText, DriveAtomList),
    /// `next N`: what the drive of this number returned goes on. Any number of at most 64 bits may be spelled; whether it is a
    /// drive's the grammar says.
    Next(u64),
    /// `send N a`: it goes on with a value.
    Send(u64, DriveAtom),
    /// `throw N C` or `throw N C a`: an exception of a class is thrown into it, with a value or without.
    Throw(u64, PyText, Option<DriveAtom>),
    /// `close N`: it is closed.
    Close(u64),
    /// `report N`: the exception that the drive of this number raised is reported.
    Report(u64),
}

impl DriveAtom {
    /// An atom as bodies have it, as an argument.
    fn of(atom: Atom) -> DriveAtom
        ensures { drive_token result ≡ atom_token atom }
    {
        match atom {
            Atom::None => DriveAtom::None,
            Atom::Bool(value) => DriveAtom::Bool(value),
            Atom::Int(number) => DriveAtom::Int(number),
            Atom::Str(text) => DriveAtom::Str(text),
            Atom::Name(name) => DriveAtom::Name(name),
        }
    }
}

/// The argument of a drive that a token is.
fn drive_atom_of(alloc: Global, token: &Sense<'_>) -> Result<Option<DriveAtom>, NoMemory>
    ensures { IfOk result (Prints drive_token (meaning_of token.now)) }
{
    if let Sense::Drive(number) = token {
        return Ok(Some(DriveAtom::Drive(*number)));
    }
    let Some(atom) = atom_of(alloc, token)? else {
        return Ok(None);
    };
    Ok(Some(DriveAtom::of(atom)))
}

/// The arguments of a drive that all the tokens are.
fn drive_atoms_of(alloc: Global, tokens: &[Sense<'_>]) -> Result<Option<DriveAtomList>, NoMemory>
    ensures { IfOk result (Reads (map drive_token) tokens.now) }
{
    let mut atoms = DriveAtomList::new(alloc);
    for token in tokens {
        match drive_atom_of(alloc, token)? {
            Some(atom) => atoms.push(atom)?,
            None => return Ok(None),
        }
    }
    Ok(Some(atoms))
}

/// A name, and the arguments of a drive behind it.
fn name_and_atoms(
    alloc: Global,
    tokens: &[Sense<'_>],
) -> Result<Option<(PyText, DriveAtomList)>, NoMemory>
    ensures { IfOk result (Reads (λ p. Word p.0 ∷ map drive_token p.1) tokens.now) }
{
    let Some((first, rest)) = tokens.split_first() else {
        return Ok(None);
    };
    let Some(name) = name_of(alloc, first)? else {
        return Ok(None);
    };
    let Some(atoms) = drive_atoms_of(alloc, rest)? else {
        return Ok(None);
    };
    Ok(Some((name, atoms)))
}

/// The drive that the tokens behind a `call` make.
fn call_of(alloc: Global, tokens: &[Sense<'_>]) -> Result<Option<DriveLine>, NoMemory>
    ensures { IfOk result (ReadsAfter (Word (codes "call")) drive_tokens tokens.now) }
{
    let Some((name, atoms)) = name_and_atoms(alloc, tokens)? else {
        return Ok(None);
    };
    Ok(Some(DriveLine::Call(name, atoms)))
}

/// The number of a drive that a token is.
fn number_of(token: &Sense<'_>) -> Option<u64>
    ensures { Prints number_token (meaning_of token.now) result }
{
    let Sense::Number(number) = token else {
        return None;
    };
    u64::try_from(*number).ok()
}

/// The number of a drive that is the only token.
fn lone_number(tokens: &[Sense<'_>]) -> Option<u64>
    ensures { Reads (λ n. number_token n ∷ []) tokens.now result }
{
    match tokens {
        [] => None,
        [number] => number_of(number),
        [_, _, ..] => None,
    }
}

/// The argument of a drive that is the only token.
fn lone_drive_atom(alloc: Global, tokens: &[Sense<'_>]) -> Result<Option<DriveAtom>, NoMemory>
    ensures { IfOk result (Reads (λ a. drive_token a ∷ []) tokens.now) }
{
    match tokens {
        [] => Ok(None),
        [atom] => drive_atom_of(alloc, atom),
        [_, _, ..] => Ok(None),
    }
}

/// The drive that the tokens behind a `next` make.
fn next_of(tokens: &[Sense<'_>]) -> Option<DriveLine>
    ensures { ReadsAfter (Word (codes "next")) drive_tokens tokens.now result }
{
    let Some(number) = lone_number(tokens) else {
        return None;
    };
    Some(DriveLine::Next(number))
}

/// The drive that the tokens behind a `close` make.
fn close_of(tokens: &[Sense<'_>]) -> Option<DriveLine>
    ensures { ReadsAfter (Word (codes "close")) drive_tokens tokens.now result }
{
    let Some(number) = lone_number(tokens) else {
        return None;
    };
    Some(DriveLine::Close(number))
}

/// The drive that the tokens behind a `report` make.
fn report_of(tokens: &[Sense<'_>]) -> Option<DriveLine>
    ensures { ReadsAfter (Word (codes "report")) drive_tokens tokens.now result }
{
    let Some(number) = lone_number(tokens) else {
        return None;
    };
    Some(DriveLine::Report(number))
}

/// The number of a drive, and the argument behind it.
fn number_and_atom(
    alloc: Global,
    tokens: &[Sense<'_>],
) -> Result<Option<(u64, DriveAtom)>, NoMemory>
    ensures { IfOk result (Reads (λ p. number_token p.0 ∷ drive_token p.1 ∷ []) tokens.now) }
{
    let Some((first, rest)) = tokens.split_first() else {
        return Ok(None);
    };
    let Some(number) = number_of(first) else {
        return Ok(None);
    };
    let Some(atom) = lone_drive_atom(alloc, rest)? else {
        return Ok(None);
    };
    Ok(Some((number, atom)))
}

/// The drive that the tokens behind a `send` make.
fn send_of(alloc: Global, tokens: &[Sense<'_>]) -> Result<Option<DriveLine>, NoMemory>
    ensures { IfOk result (ReadsAfter (Word (codes "send")) drive_tokens tokens.now) }
{
    let Some((number, atom)) = number_and_atom(alloc, tokens)? else {
        return Ok(None);
    };
    Ok(Some(DriveLine::Send(number, atom)))
}

/// The value that is thrown with a class by the tokens behind it, which is none where there are none.
fn thrown_of(alloc: Global, tokens: &[Sense<'_>]) -> Result<Option<Option<DriveAtom>>, NoMemory>
    ensures { IfOk result (Reads thrown_tokens tokens.now) }
{
    if tokens.is_empty() {
        return Ok(Some(None));
    }
    match lone_drive_atom(alloc, tokens)? {
        Some(value) => Ok(Some(Some(value))),
        None => Ok(None),
    }
}

/// A class, and the value that is thrown with it.
fn class_and_value(
    alloc: Global,
    tokens: &[Sense<'_>],
) -> Result<Option<(PyText, Option<DriveAtom>)>, NoMemory>
    ensures { IfOk result (Reads (λ p. Word p.0 ∷ thrown_tokens p.1) tokens.now) }
{
    let Some((first, rest)) = tokens.split_first() else {
        return Ok(None);
    };
    let Some(class) = name_of(alloc, first)? else {
        return Ok(None);
    };
    let Some(value) = thrown_of(alloc, rest)? else {
        return Ok(None);
    };
    Ok(Some((class, value)))
}

/// The drive that a number and the tokens behind it make, which stand behind a `throw`.
fn throw_at(alloc: Global, number: u64, tokens: &[Sense<'_>]) -> Result<Option<DriveLine>, NoMemory>
    ensures { IfOk result (Prints drive_tokens (Word (codes "throw") ∷ number_token number ∷ map meaning_of tokens.now)) }
{
    let Some((class, value)) = class_and_value(alloc, tokens)? else {
        return Ok(None);
    };
    Ok(Some(DriveLine::Throw(number, class, value)))
}

/// The drive that the tokens behind a `throw` make.
fn throw_of(alloc: Global, tokens: &[Sense<'_>]) -> Result<Option<DriveLine>, NoMemory>
    ensures { IfOk result (ReadsAfter (Word (codes "throw")) drive_tokens tokens.now) }
{
    let Some((first, rest)) = tokens.split_first() else {
        return Ok(None);
    };
    let Some(number) = number_of(first) else {
        return Ok(None);
    };
    throw_at(alloc, number, rest)
}

/// The drive that a word begins with these tokens behind it.
fn drive_by(alloc: Global, word: &[u8], rest: &[Sense<'_>]) -> Result<Option<DriveLine>, NoMemory>
    ensures { IfOk result (ReadsAfter (Word word.now) drive_tokens rest.now) }
{
    if word == b"call".as_slice() {
        return call_of(alloc, rest);
    }
    if word == b"next".as_slice() {
        return Ok(next_of(rest));
    }
    if word == b"send".as_slice() {
        return send_of(alloc, rest);
    }
    if word == b"throw".as_slice() {
        return throw_of(alloc, rest);
    }
    if word == b"close".as_slice() {
        return Ok(close_of(rest));
    }
    if word == b"report".as_slice() {
        return Ok(report_of(rest));
    }
    Ok(None)
}

/// The drive that tokens are.
pub fn read_drive(alloc: Global, tokens: &[Sense<'_>]) -> Result<Option<DriveLine>, NoMemory>
    ensures { IfOk result (Reads drive_tokens tokens.now) }
{
    let Some((first, rest)) = tokens.split_first() else {
        return Ok(None);
    };
    let Sense::Word(word) = first else {
        return Ok(None);
    };
    drive_by(alloc, word, rest)
}
