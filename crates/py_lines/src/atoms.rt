//! Names and atoms, by what the tokens mean that print them.

ghost use Rattle.std.specs.Prelude.{◌∷◌, [], IfOk, map};
ghost use Rattle.py_lines.specs.Finding.{IsAlone, Prints, Reads};
ghost use Rattle.py_lines.specs.Meaning.{Key, Word};
ghost use Rattle.py_lines.specs.Senses.{meaning_of};
ghost use Rattle.py_lines.specs.Printing.{atom_token};

use crate::keyword::Keyword;
use crate::meaning::Sense;
use py_code::{NoMemory, PyText, text_of};
use py_tree::{Atom, ParamList};
use std::alloc::Global;

/// The constant that a keyword is.
fn constant_of(keyword: Keyword) -> Option<Atom>
    ensures { Prints atom_token (Key keyword) result }
{
    match keyword {
        Keyword::None => Some(Atom::None),
        Keyword::True => Some(Atom::Bool(true)),
        Keyword::False => Some(Atom::Bool(false)),
        _ => None,
    }
}

/// The atom that a token is.
pub fn atom_of(alloc: Global, token: &Sense<'_>) -> Result<Option<Atom>, NoMemory>
    ensures { IfOk result (Prints atom_token (meaning_of token.now)) }
{
    match token {
        Sense::Key(keyword) => Ok(constant_of(*keyword)),
        Sense::Word(name) => Ok(Some(Atom::Name(text_of(alloc, name)?))),
        Sense::Number(number) => Ok(Some(Atom::Int(*number))),
        Sense::Text(text) => Ok(Some(Atom::Str(text_of(alloc, text)?))),
        _ => Ok(None),
    }
}

/// The name that a token is.
pub fn name_of(alloc: Global, token: &Sense<'_>) -> Result<Option<PyText>, NoMemory>
    ensures { IfOk result (Prints Word (meaning_of token.now)) }
{
    let Sense::Word(name) = token else {
        return Ok(None);
    };
    Ok(Some(text_of(alloc, name)?))
}

/// A finding of no tokens, where there are none.
pub fn alone<T: Drop>(found: T, tokens: &[Sense<'_>]) -> Option<T>
    ensures { IsAlone found tokens.now result }
{
    if tokens.is_empty() { Some(found) } else { None }
}

/// The name that is the only token.
pub fn lone_name(alloc: Global, tokens: &[Sense<'_>]) -> Result<Option<PyText>, NoMemory>
    ensures { IfOk result (Reads (λ x. Word x ∷ []) tokens.now) }
{
    match tokens {
        [] => Ok(None),
        [name] => name_of(alloc, name),
        [_, _, ..] => Ok(None),
    }
}

/// The names that all the tokens are.
pub fn names_of(alloc: Global, tokens: &[Sense<'_>]) -> Result<Option<ParamList>, NoMemory>
    ensures { IfOk result (Reads (map Word) tokens.now) }
{
    let mut names = ParamList::new(alloc);
    for token in tokens {
        match name_of(alloc, token)? {
            Some(name) => names.push(name)?,
            None => return Ok(None),
        }
    }
    Ok(Some(names))
}

/// A name, and the names behind it.
pub fn name_and_names(
    alloc: Global,
    tokens: &[Sense<'_>],
) -> Result<Option<(PyText, ParamList)>, NoMemory>
    ensures { IfOk result (Reads (λ p. Word p.0 ∷ map Word p.1) tokens.now) }
{
    let Some((first, rest)) = tokens.split_first() else {
        return Ok(None);
    };
    let Some(first) = name_of(alloc, first)? else {
        return Ok(None);
    };
    let Some(names) = names_of(alloc, rest)? else {
        return Ok(None);
    };
    Ok(Some((first, names)))
}

/// The two names that are the only tokens.
pub fn two_names(alloc: Global, tokens: &[Sense<'_>]) -> Result<Option<(PyText, PyText)>, NoMemory>
    ensures { IfOk result (Reads (λ p. Word p.0 ∷ Word p.1 ∷ []) tokens.now) }
{
    let Some((first, rest)) = tokens.split_first() else {
        return Ok(None);
    };
    let Some(first) = name_of(alloc, first)? else {
        return Ok(None);
    };
    let Some(second) = lone_name(alloc, rest)? else {
        return Ok(None);
    };
    Ok(Some((first, second)))
}

/// The three names that are the only tokens.
pub fn three_names(
    alloc: Global,
    tokens: &[Sense<'_>],
) -> Result<Option<(PyText, PyText, PyText)>, NoMemory>
    ensures { IfOk result (Reads (λ p. Word p.0 ∷ Word p.1 ∷ Word p.2 ∷ []) tokens.now) }
{
    let Some((first, rest)) = tokens.split_first() else {
        return Ok(None);
    };
    let Some(first) = name_of(alloc, first)? else {
        return Ok(None);
    };
    let Some((second, third)) = two_names(alloc, rest)? else {
        return Ok(None);
    };
    Ok(Some((first, second, third)))
}
