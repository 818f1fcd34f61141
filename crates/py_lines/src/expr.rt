//! Expressions, by what the tokens mean that print them.

ghost use Rattle.std.specs.Prelude.{◌≡◌, ◌≤◌, ◌∷◌, IfOk, drop, length, map};
ghost use Rattle.py_lines.specs.Finding.{begins_closed, FindsFront, FindsOperands, IsOperator, ShowsExpr};
ghost use Rattle.py_lines.specs.Meaning.{Open};
ghost use Rattle.py_lines.specs.Senses.{meaning_of};

use crate::atoms::atom_of;
use crate::meaning::Sense;
use py_code::NoMemory;
use py_tree::{Expr, ExprList, Operator};
use std::alloc::Global;

/// The most operators that may stand inside of one another.
const MOST_DEEP: u32 = 64;

/// The operator that a word is.
fn operator_of(word: &[u8]) -> Option<Operator>
    ensures { IsOperator word.now result }
{
    if word == b"add".as_slice() {
        return Some(Operator::Add);
    }
    if word == b"sub".as_slice() {
        return Some(Operator::Sub);
    }
    if word == b"lt".as_slice() {
        return Some(Operator::Lt);
    }
    if word == b"eq".as_slice() {
        return Some(Operator::Eq);
    }
    if word == b"send".as_slice() {
        return Some(Operator::Send);
    }
    if word == b"throw".as_slice() {
        return Some(Operator::Throw);
    }
    if word == b"close".as_slice() {
        return Some(Operator::Close);
    }
    if word == b"yield".as_slice() {
        return Some(Operator::Yield);
    }
    if word == b"call".as_slice() {
        return Some(Operator::Call);
    }
    None
}

/// The tokens from a place on.
pub fn from<'a, 'b>(tokens: &'b [Sense<'a>], at: usize) -> &'b [Sense<'a>]
    requires { at ≤ length tokens.now }
    ensures { result.now ≡ drop at tokens.now }
{
    &tokens[at..]
}

/// Whether a parenthesis that closes stands in front.
pub fn closes(tokens: &[Sense<'_>]) -> bool
    ensures { result ≡ begins_closed (map meaning_of tokens.now) }
{
    match tokens {
        [Sense::Close, ..] => true,
        _ => false,
    }
}

/// The expression that stands in front, with at most so many operators inside of one another, and how many tokens it is.
#[cycle(read)]
pub fn front_expr(
    alloc: Global,
    tokens: &[Sense<'_>],
    room: u32,
) -> Result<Option<(Expr, usize)>, NoMemory>
    ensures { IfOk result (FindsFront room (map meaning_of tokens.now)) }
{
    let Some((first, behind)) = tokens.split_first() else {
        return Ok(None);
    };
    if matches!(first, Sense::Open) {
        return front_operation(alloc, behind, room);
    }
    match atom_of(alloc, first)? {
        Some(atom) => Ok(Some((Expr::Atom(atom), 1))),
        None => Ok(None),
    }
}

/// The operation whose opening parenthesis stood in front of these tokens, and how many tokens it is with that.
#[cycle(read)]
fn front_operation(
    alloc: Global,
    tokens: &[Sense<'_>],
    room: u32,
) -> Result<Option<(Expr, usize)>, NoMemory>
    ensures { IfOk result (FindsFront room (Open ∷ map meaning_of tokens.now)) }
{
    if room == 0 {
        return Ok(None);
    }
    let Some((first, behind)) = tokens.split_first() else {
        return Ok(None);
    };
    let Sense::Word(word) = first else {
        return Ok(None);
    };
    let Some(operator) = operator_of(word) else {
        return Ok(None);
    };
    let Some((operands, used)) = front_operands(alloc, behind, room - 1)? else {
        return Ok(None);
    };
    Ok(Some((Expr::Operation(operator, operands), used + 2)))
}

/// The operands in front of a parenthesis that closes, and how many tokens they are with that.
#[cycle(read)]
fn front_operands(
    alloc: Global,
    tokens: &[Sense<'_>],
    room: u32,
) -> Result<Option<(ExprList, usize)>, NoMemory>
    ensures { IfOk result (FindsOperands room (map meaning_of tokens.now)) }
{
    let mut operands = ExprList::new(alloc);
    let mut at = 0;
    while at < tokens.len() {
        let rest = from(tokens, at);
        if closes(rest) {
            return Ok(Some((operands, at + 1)));
        }
        let Some((operand, used)) = front_expr(alloc, rest, room)? else {
            return Ok(None);
        };
        operands.push(operand)?;
        at += used;
    }
    Ok(None)
}

/// The expression that stands in front of these tokens, as a line may have it, and how many tokens it is.
pub fn line_expr(alloc: Global, tokens: &[Sense<'_>]) -> Result<Option<(Expr, usize)>, NoMemory>
    ensures { IfOk result (FindsFront 64 (map meaning_of tokens.now)) }
{
    front_expr(alloc, tokens, MOST_DEEP)
}

/// The expression that tokens are.
pub fn whole_expr(alloc: Global, tokens: &[Sense<'_>]) -> Result<Option<Expr>, NoMemory>
    ensures { IfOk result (ShowsExpr (map meaning_of tokens.now)) }
{
    let Some((expr, used)) = line_expr(alloc, tokens)? else {
        return Ok(None);
    };
    if used < tokens.len() {
        return Ok(None);
    }
    Ok(Some(expr))
}
