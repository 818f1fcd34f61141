//! Plain statements: lines that open and close nothing.

ghost use Rattle.std.specs.Prelude.{◌∷◌, IfOk, map};
ghost use Rattle.py_lines.specs.declared.keyword.Keyword.TheVariants as keyword;
ghost use Rattle.py_lines.specs.Finding.{ShowsPlain};
ghost use Rattle.py_lines.specs.Meaning.{Key, Word};
ghost use Rattle.py_lines.specs.Senses.{meaning_of};

use crate::atoms::alone;
use crate::expr::whole_expr;
use crate::keyword::Keyword;
use crate::meaning::Sense;
use py_code::{NoMemory, PyText, text_of};
use py_tree::{Expr, ExprList, Operator};
use std::alloc::Global;

/// A plain statement.
#[derive(Drop)]
pub enum Plain {
    /// `x = e`.
    Assign(PyText, Expr),
    /// `do (op e ..)`.
    Do(Operator, ExprList),
    /// `show e`.
    Show(Expr),
    /// `return e`.
    Return(Expr),
    /// `raise e`.
    Raise(Expr),
    /// `reraise`.
    Reraise,
    /// `break`.
    Break,
    /// `continue`.
    Continue,
    /// `pass`.
    Pass,
}

/// The plain statement that tokens are.
pub fn read_plain(alloc: Global, tokens: &[Sense<'_>]) -> Result<Option<Plain>, NoMemory>
    ensures { IfOk result (ShowsPlain (map meaning_of tokens.now)) }
{
    let Some((first, rest)) = tokens.split_first() else {
        return Ok(None);
    };
    match first {
        Sense::Key(keyword) => read_statement(alloc, *keyword, rest),
        Sense::Word(name) => read_assignment(alloc, name, rest),
        _ => Ok(None),
    }
}

/// The plain statement that a keyword begins with these tokens behind it.
fn read_statement(
    alloc: Global,
    keyword: Keyword,
    rest: &[Sense<'_>],
) -> Result<Option<Plain>, NoMemory>
    ensures { IfOk result (ShowsPlain (Key keyword ∷ map meaning_of rest.now)) }
{
    match keyword {
        Keyword::Do => do_of(alloc, rest),
        Keyword::Show => Ok(whole_expr(alloc, rest)?.map(Plain::Show)),
        Keyword::Return => Ok(whole_expr(alloc, rest)?.map(Plain::Return)),
        Keyword::Raise => Ok(whole_expr(alloc, rest)?.map(Plain::Raise)),
        Keyword::Reraise => Ok(alone(Plain::Reraise, rest)),
        Keyword::Break => Ok(alone(Plain::Break, rest)),
        Keyword::Continue => Ok(alone(Plain::Continue, rest)),
        Keyword::Pass => Ok(alone(Plain::Pass, rest)),
        _ => Ok(None),
    }
}

/// The statement that a `do` begins with these tokens behind it, which are an operation.
fn do_of(alloc: Global, rest: &[Sense<'_>]) -> Result<Option<Plain>, NoMemory>
    ensures { IfOk result (ShowsPlain (Key keyword.Do ∷ map meaning_of rest.now)) }
{
    let Some(expr) = whole_expr(alloc, rest)? else {
        return Ok(None);
    };
    match expr {
        Expr::Operation(operator, operands) => Ok(Some(Plain::Do(operator, operands))),
        Expr::Atom(_) => Ok(None),
    }
}

/// The assignment that a name begins with these tokens behind it.
fn read_assignment(
    alloc: Global,
    name: &[u8],
    rest: &[Sense<'_>],
) -> Result<Option<Plain>, NoMemory>
    ensures { IfOk result (ShowsPlain (Word name.now ∷ map meaning_of rest.now)) }
{
    let Some((equals, value)) = rest.split_first() else {
        return Ok(None);
    };
    if !matches!(equals, Sense::Equals) {
        return Ok(None);
    }
    let target = text_of(alloc, name)?;
    let Some(value) = whole_expr(alloc, value)? else {
        return Ok(None);
    };
    Ok(Some(Plain::Assign(target, value)))
}
