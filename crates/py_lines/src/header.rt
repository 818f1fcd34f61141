//! Lines that declare, or open what is declared.

ghost use Rattle.std.specs.Prelude.{IfOk};
ghost use Rattle.py_lines.specs.declared.keyword.Keyword.TheVariants as keyword;
ghost use Rattle.py_lines.specs.Finding.{Reads, ReadsAfter};
ghost use Rattle.py_lines.specs.Meaning.{Key};
ghost use Rattle.py_lines.specs.Printing.{body_keyword, header_tokens};

use crate::atoms::{name_and_names, three_names, two_names};
use crate::keyword::Keyword;
use crate::meaning::Sense;
use py_code::{NoMemory, PyText};
use py_tree::{BodyKind, ParamList};
use std::alloc::Global;

/// The header of a declaration, which is all of it for a class and for a manager.
#[derive(Drop)]
pub enum Header {
    /// `def f p ..`, or `gen f p ..`: the kind of the body, its name and its parameters.
    Def(BodyKind, PyText, ParamList),
    /// `code f p ..`: the name of a raw code and its parameters.
    Code(PyText, ParamList),
    /// `class C B`: the name of an exception class, and that of its base.
    Class(PyText, PyText),
    /// `manager M E X`: the name of a manager, and those of the functions that enter and exit it.
    Manager(PyText, PyText, PyText),
}

/// The header that tokens are.
pub fn read_header(alloc: Global, tokens: &[Sense<'_>]) -> Result<Option<Header>, NoMemory>
    ensures { IfOk result (Reads header_tokens tokens.now) }
{
    let Some((first, rest)) = tokens.split_first() else {
        return Ok(None);
    };
    match first {
        Sense::Key(Keyword::Def) => def_of(alloc, BodyKind::Function, rest),
        Sense::Key(Keyword::Gen) => def_of(alloc, BodyKind::Generator, rest),
        Sense::Key(Keyword::Code) => code_of(alloc, rest),
        Sense::Key(Keyword::Class) => class_of(alloc, rest),
        Sense::Key(Keyword::Manager) => manager_of(alloc, rest),
        _ => Ok(None),
    }
}

/// The header of a body of this kind, by its name and its parameters.
fn def_of(alloc: Global, kind: BodyKind, tokens: &[Sense<'_>]) -> Result<Option<Header>, NoMemory>
    ensures { IfOk result (ReadsAfter (Key (body_keyword kind)) header_tokens tokens.now) }
{
    let Some((name, params)) = name_and_names(alloc, tokens)? else {
        return Ok(None);
    };
    Ok(Some(Header::Def(kind, name, params)))
}

/// The header of a raw code, by its name and its parameters.
fn code_of(alloc: Global, tokens: &[Sense<'_>]) -> Result<Option<Header>, NoMemory>
    ensures { IfOk result (ReadsAfter (Key keyword.Code) header_tokens tokens.now) }
{
    let Some((name, params)) = name_and_names(alloc, tokens)? else {
        return Ok(None);
    };
    Ok(Some(Header::Code(name, params)))
}

/// The class that the tokens behind a `class` declare.
fn class_of(alloc: Global, tokens: &[Sense<'_>]) -> Result<Option<Header>, NoMemory>
    ensures { IfOk result (ReadsAfter (Key keyword.Class) header_tokens tokens.now) }
{
    let Some((name, base)) = two_names(alloc, tokens)? else {
        return Ok(None);
    };
    Ok(Some(Header::Class(name, base)))
}

/// The manager that the tokens behind a `manager` declare.
fn manager_of(alloc: Global, tokens: &[Sense<'_>]) -> Result<Option<Header>, NoMemory>
    ensures { IfOk result (ReadsAfter (Key keyword.Manager) header_tokens tokens.now) }
{
    let Some((name, enter, exit)) = three_names(alloc, tokens)? else {
        return Ok(None);
    };
    Ok(Some(Header::Manager(name, enter, exit)))
}
