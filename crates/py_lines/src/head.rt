//! Lines that open a block, and those that turn it to its next suite.

ghost use Rattle.std.specs.Prelude.{◌∷◌, [], IfOk, codes, map};
ghost use Rattle.py_lines.specs.declared.keyword.Keyword.TheVariants as keyword;
ghost use Rattle.py_lines.specs.Finding.{Reads, ReadsAfter, ShowsHead, ShowsTarget};
ghost use Rattle.py_lines.specs.Meaning.{Key, Word};
ghost use Rattle.py_lines.specs.Senses.{meaning_of};
ghost use Rattle.py_lines.specs.Printing.{target_tokens, turn_tokens};

use crate::atoms::{alone, lone_name, name_of};
use crate::expr::{from, line_expr, whole_expr};
use crate::keyword::Keyword;
use crate::meaning::Sense;
use py_code::{NoMemory, PyText};
use py_tree::Expr;
use std::alloc::Global;

/// A line that opens a block.
#[derive(Drop)]
pub enum Head {
    /// `if e`.
    If(Expr),
    /// `while e`.
    While(Expr),
    /// `try`.
    Try,
    /// `with e` or `with e as x`: what gives the manager, and the name that is bound.
    With(Expr, Option<PyText>),
}

/// A line that ends one suite of an open block, and begins the next.
#[derive(Drop)]
pub enum Turn {
    /// `else`.
    Else,
    /// `except C` or `except C as x`: the class, and the name that is bound.
    Except(PyText, Option<PyText>),
    /// `finally`.
    Finally,
}

/// The line that opens a block and that tokens are.
pub fn read_head(alloc: Global, tokens: &[Sense<'_>]) -> Result<Option<Head>, NoMemory>
    ensures { IfOk result (ShowsHead (map meaning_of tokens.now)) }
{
    let Some((first, rest)) = tokens.split_first() else {
        return Ok(None);
    };
    let Sense::Key(keyword) = first else {
        return Ok(None);
    };
    match *keyword {
        Keyword::If => Ok(whole_expr(alloc, rest)?.map(Head::If)),
        Keyword::While => Ok(whole_expr(alloc, rest)?.map(Head::While)),
        Keyword::Try => Ok(alone(Head::Try, rest)),
        Keyword::With => with_of(alloc, rest),
        _ => Ok(None),
    }
}

/// The name that `as` has behind it.
fn named_by_as(alloc: Global, tokens: &[Sense<'_>]) -> Result<Option<PyText>, NoMemory>
    ensures { IfOk result (Reads (λ x. Word (codes "as") ∷ Word x ∷ []) tokens.now) }
{
    let Some((first, rest)) = tokens.split_first() else {
        return Ok(None);
    };
    let Sense::Word(word) = first else {
        return Ok(None);
    };
    if *word == b"as".as_slice() {
        lone_name(alloc, rest)
    } else {
        Ok(None)
    }
}

/// The name that a line binds by the tokens at its end, which binds none where there are none.
fn target_of(alloc: Global, tokens: &[Sense<'_>]) -> Result<Option<Option<PyText>>, NoMemory>
    ensures { IfOk result (Reads target_tokens tokens.now) }
{
    if tokens.is_empty() {
        return Ok(Some(None));
    }
    match named_by_as(alloc, tokens)? {
        Some(name) => Ok(Some(Some(name))),
        None => Ok(None),
    }
}

/// An expression, and the name that a line binds behind it.
fn expr_and_target(
    alloc: Global,
    tokens: &[Sense<'_>],
) -> Result<Option<(Expr, Option<PyText>)>, NoMemory>
    ensures { IfOk result (ShowsTarget (map meaning_of tokens.now)) }
{
    let Some((expr, used)) = line_expr(alloc, tokens)? else {
        return Ok(None);
    };
    let Some(target) = target_of(alloc, from(tokens, used))? else {
        return Ok(None);
    };
    Ok(Some((expr, target)))
}

/// The line that the tokens behind a `with` make.
fn with_of(alloc: Global, tokens: &[Sense<'_>]) -> Result<Option<Head>, NoMemory>
    ensures { IfOk result (ShowsHead (Key keyword.With ∷ map meaning_of tokens.now)) }
{
    let Some((manager, target)) = expr_and_target(alloc, tokens)? else {
        return Ok(None);
    };
    Ok(Some(Head::With(manager, target)))
}

/// A class, and the name that a clause binds behind it.
fn class_and_target(
    alloc: Global,
    tokens: &[Sense<'_>],
) -> Result<Option<(PyText, Option<PyText>)>, NoMemory>
    ensures { IfOk result (Reads (λ p. Word p.0 ∷ target_tokens p.1) tokens.now) }
{
    let Some((first, rest)) = tokens.split_first() else {
        return Ok(None);
    };
    let Some(class) = name_of(alloc, first)? else {
        return Ok(None);
    };
    let Some(target) = target_of(alloc, rest)? else {
        return Ok(None);
    };
    Ok(Some((class, target)))
}

/// The clause that the tokens behind an `except` make.
fn except_of(alloc: Global, tokens: &[Sense<'_>]) -> Result<Option<Turn>, NoMemory>
    ensures { IfOk result (ReadsAfter (Key keyword.Except) turn_tokens tokens.now) }
{
    let Some((class, target)) = class_and_target(alloc, tokens)? else {
        return Ok(None);
    };
    Ok(Some(Turn::Except(class, target)))
}

/// The line that turns a block and that tokens are.
pub fn read_turn(alloc: Global, tokens: &[Sense<'_>]) -> Result<Option<Turn>, NoMemory>
    ensures { IfOk result (Reads turn_tokens tokens.now) }
{
    let Some((first, rest)) = tokens.split_first() else {
        return Ok(None);
    };
    match first {
        Sense::Key(Keyword::Else) => Ok(alone(Turn::Else, rest)),
        Sense::Key(Keyword::Except) => except_of(alloc, rest),
        Sense::Key(Keyword::Finally) => Ok(alone(Turn::Finally, rest)),
        _ => Ok(None),
    }
}
