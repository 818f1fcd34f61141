//! Flags of raw codes, by their words.

ghost use Rattle.std.specs.Prelude.{IfOk, map};
ghost use Rattle.py_lines.specs.Finding.{Prints, Reads};
ghost use Rattle.py_lines.specs.Meaning.{Word};
ghost use Rattle.py_lines.specs.RawLines.{flag_token};
ghost use Rattle.py_lines.specs.Senses.{meaning_of};

use crate::keyword::Keyword;
use crate::meaning::Sense;
use py_code::{ItemList, NoMemory};
use std::alloc::Global;

/// A flag of a raw code, by its word.
#[derive(Clone, Copy, Debug, PartialEq, Eq)]
pub enum RawFlag {
    /// `gen`: a call makes a generator.
    Gen,
    /// `coro`: a call makes a coroutine.
    Coro,
    /// `varargs`: a parameter takes the further positional arguments.
    VarArgs,
    /// `varkw`: a parameter takes the further keyword arguments.
    VarKw,
    /// `newlocals`: a frame makes a scope of its own.
    NewLocals,
    /// `optimized`: locals are known by their places.
    Optimized,
}

/// Flags in the order of their words.
pub type RawFlagList = ItemList<RawFlag>;

/// The flag that a word is which is no keyword.
fn flag_by(word: &[u8]) -> Option<RawFlag>
    ensures { Prints flag_token (Word word.now) result }
{
    if word == b"coro".as_slice() {
        return Some(RawFlag::Coro);
    }
    if word == b"varargs".as_slice() {
        return Some(RawFlag::VarArgs);
    }
    if word == b"varkw".as_slice() {
        return Some(RawFlag::VarKw);
    }
    if word == b"newlocals".as_slice() {
        return Some(RawFlag::NewLocals);
    }
    if word == b"optimized".as_slice() {
        return Some(RawFlag::Optimized);
    }
    None
}

/// The flag that a token is.
fn flag_of(token: &Sense<'_>) -> Option<RawFlag>
    ensures { Prints flag_token (meaning_of token.now) result }
{
    match token {
        Sense::Key(Keyword::Gen) => Some(RawFlag::Gen),
        Sense::Word(word) => flag_by(word),
        _ => None,
    }
}

/// The flags that all the tokens are.
pub fn all_flags(alloc: Global, tokens: &[Sense<'_>]) -> Result<Option<RawFlagList>, NoMemory>
    ensures { IfOk result (Reads (map flag_token) tokens.now) }
{
    let mut flags = RawFlagList::new(alloc);
    for token in tokens {
        match flag_of(token) {
            Some(flag) => flags.push(flag)?,
            None => return Ok(None),
        }
    }
    Ok(Some(flags))
}
