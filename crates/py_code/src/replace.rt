//! Codes in which some parts are replaced.

ghost use Rattle.std.specs.Prelude.{◌≡◌, Err, IfOk, OnOk, false, true, unwrap_or};
ghost use Rattle.std.specs.List.{list_all};
ghost use Rattle.py_code.specs.declared.replace.ReplaceFault.TheVariants as ReplaceFault;
ghost use Rattle.py_code.specs.Literals.{AreSame, is_text, literals_of};
ghost use Rattle.py_code.specs.Names.{all_interned, AreInterned};
ghost use Rattle.py_code.specs.Replacing.{AreNames, AreNamesOr, are_texts, IsNameOr, IsReplaced, line_or, flags_or, names_are_texts, names_given, nothing_given, text_given, texts_given, texts_of};

use crate::code::{CodeObject, PyCode};
use crate::flags::CodeFlags;
use crate::list::{NoMemory, copy_of};
use crate::literal::{Literal, LiteralList};
use crate::names::{NameId, Names};
use crate::text::{PyText, utf8_of};
use bitflags::Flags;
use std::alloc::Global;
use thiserror::Error;

/// What a code gets in place of its own parts. What is None stays.
#[derive(Drop)]
pub struct ReplaceArgs {
    /// How many parameters take a positional argument alone.
    pub co_posonlyargcount: Option<u32>,
    /// How many parameters take a positional argument, those of `co_posonlyargcount` among them.
    pub co_argcount: Option<u32>,
    /// How many parameters take a keyword argument alone.
    pub co_kwonlyargcount: Option<u32>,
    /// Bits that stand for no flag are dropped.
    pub co_flags: Option<u16>,
    /// 0 stands for code without a source.
    pub co_firstlineno: Option<u32>,
    /// The file that the code comes from.
    pub co_filename: Option<PyText>,
    /// The name of the code.
    pub co_name: Option<PyText>,
    /// Each is to be a text.
    pub co_names: Option<LiteralList>,
    /// Each is to be a text.
    pub co_varnames: Option<LiteralList>,
    /// The constants that instructions refer to.
    pub co_consts: Option<LiteralList>,
}

/// Why nothing is replaced. Its text is the name of its variant.
#[derive(Clone, Copy, Debug, PartialEq, Eq, Error)]
pub enum ReplaceFault {
    /// A name isn't a text.
    #[error("NotText")]
    NotText,
    /// Memory ran out.
    #[error("NoMemory")]
    NoMemory,
}

impl From<NoMemory> for ReplaceFault {
    ghost from_gives = { λ error fault. fault ≡ ReplaceFault.NoMemory };

    fn from(_error: NoMemory) -> ReplaceFault {
        ReplaceFault::NoMemory
    }
}

impl ReplaceArgs {
    /// Nothing is replaced.
    pub fn new() -> ReplaceArgs
        ensures { result ≡ nothing_given }
    {
        ReplaceArgs {
            co_posonlyargcount: None,
            co_argcount: None,
            co_kwonlyargcount: None,
            co_flags: None,
            co_firstlineno: None,
            co_filename: None,
            co_name: None,
            co_names: None,
            co_varnames: None,
            co_consts: None,
        }
    }
}

/// Whether these constants, where some are given, are texts.
fn are_texts(given: &Option<LiteralList>) -> bool
    ensures { result ≡ are_texts given.now }
{
    match given {
        None => true,
        Some(list) => list.all_text(),
    }
}

/// The name of a text, or else the code's own.
fn name_or(
    alloc: Global,
    names: &mut Names,
    given: Option<PyText>,
    own: NameId,
) -> Result<NameId, NoMemory>
    ensures named { IfOk result (λ id. IsNameOr names.new given own id) }
    ensures table { OnOk result (names.new ≡ all_interned names.old (text_given given)) }
    ensures some { AreInterned (text_given given) names.old names.new }
{
    match given {
        None => Ok(own),
        Some(text) => Ok(names.intern(&utf8_of(alloc, &text)?)?),
    }
}

/// The names of texts, in order.
fn intern_all(
    alloc: Global,
    names: &mut Names,
    texts: &LiteralList,
) -> Result<Vec<NameId>, NoMemory>
    requires { list_all is_text (literals_of texts.now) ≡ true }
    ensures named { IfOk result (λ ids. AreNames names.new ids.items (texts_of texts.now)) }
    ensures table { OnOk result (names.new ≡ all_interned names.old (texts_of texts.now)) }
    ensures some { AreInterned (texts_of texts.now) names.old names.new }
{
    let mut ids = Vec::new(alloc);
    for literal in texts.as_slice() {
        let Literal::Str(text) = literal else {
            unreachable!();
        };
        ids.push(names.intern(&utf8_of(alloc, text)?)?)?;
    }
    Ok(ids)
}

/// The names of texts, in order, or else the code's own.
fn names_or(
    alloc: Global,
    names: &mut Names,
    given: Option<LiteralList>,
    own: &[NameId],
) -> Result<Vec<NameId>, NoMemory>
    requires { are_texts given ≡ true }
    ensures named { IfOk result (λ ids. AreNamesOr names.new given own.now ids.items) }
    ensures table { OnOk result (names.new ≡ all_interned names.old (texts_given given)) }
    ensures some { AreInterned (texts_given given) names.old names.new }
{
    match given {
        None => copy_of(alloc, own),
        Some(texts) => intern_all(alloc, names, &texts),
    }
}

/// The constants that are given, or else the code's own.
fn constants_or(
    alloc: Global,
    given: Option<LiteralList>,
    own: &LiteralList,
) -> Result<LiteralList, NoMemory>
    ensures { IfOk result (λ made. AreSame made (unwrap_or given own.now)) }
{
    match given {
        None => own.copy(alloc),
        Some(constants) => Ok(constants),
    }
}

/// The first line: the one that is given, of which 0 is none, or else the code's own.
fn line_or(given: Option<u32>, own: Option<u32>) -> Option<u32>
    ensures { result ≡ line_or given own }
{
    match given {
        None => own,
        Some(0) => None,
        Some(line) => Some(line),
    }
}

/// The flags: those of the number that is given, or else the code's own.
fn flags_or(given: Option<u16>, own: CodeFlags) -> CodeFlags
    ensures { result ≡ flags_or given own }
{
    match given {
        None => own,
        Some(bits) => CodeFlags::from_bits_truncate(bits),
    }
}

impl PyCode {
    /// A code like this one, with the given parts in place of its own (Python Language Reference,
    /// 3.2.13, code objects). `NotText` where a name isn't a text, `NoMemory` where memory ran out.
    /// The texts that are to be names go into the table: that of the file, of the code, of the
    /// names and of the locals, in order. The table stays as it is where one of them isn't a text;
    /// where memory ran out it may have some of them.
    pub fn replace(
        &self,
        alloc: Global,
        names: &mut Names,
        args: ReplaceArgs,
    ) -> Result<PyCode, ReplaceFault>
        ensures replaced { IfOk result (λ made. IsReplaced names.new self.now.code args made.code) }
        ensures table { OnOk result (names.new ≡ all_interned names.old (names_given args)) }
        ensures not_text { names_are_texts args ≡ false → result ≡ Err ReplaceFault.NotText }
        ensures only { result ≡ Err ReplaceFault.NotText → names_are_texts args ≡ false }
        ensures stays { result ≡ Err ReplaceFault.NotText → names.new ≡ names.old }
        ensures some { AreInterned (names_given args) names.old names.new }
    {
        if !are_texts(&args.co_names) {
            return Err(ReplaceFault::NotText);
        }
        if !are_texts(&args.co_varnames) {
            return Err(ReplaceFault::NotText);
        }
        Ok(self.with_parts(alloc, names, args)?)
    }

    /// The code that `replace` answers with, where each name is known to be a text.
    fn with_parts(
        &self,
        alloc: Global,
        names: &mut Names,
        args: ReplaceArgs,
    ) -> Result<PyCode, NoMemory>
        requires names { are_texts args.co_names ≡ true }
        requires varnames { are_texts args.co_varnames ≡ true }
        ensures replaced { IfOk result (λ made. IsReplaced names.new self.now.code args made.code) }
        ensures table { OnOk result (names.new ≡ all_interned names.old (names_given args)) }
        ensures some { AreInterned (names_given args) names.old names.new }
    {
        let own = &self.code;
        let source_path = name_or(alloc, names, args.co_filename, own.source_path)?;
        let obj_name = name_or(alloc, names, args.co_name, own.obj_name)?;
        let global_names = names_or(alloc, names, args.co_names, own.names.as_slice())?;
        let varnames = names_or(alloc, names, args.co_varnames, own.varnames.as_slice())?;
        let constants = constants_or(alloc, args.co_consts, &own.constants)?;
        Ok(PyCode::new(CodeObject {
            instructions: copy_of(alloc, own.instructions.as_slice())?,
            locations: copy_of(alloc, own.locations.as_slice())?,
            flags: flags_or(args.co_flags, own.flags),
            posonlyarg_count: args.co_posonlyargcount.unwrap_or(own.posonlyarg_count),
            arg_count: args.co_argcount.unwrap_or(own.arg_count),
            kwonlyarg_count: args.co_kwonlyargcount.unwrap_or(own.kwonlyarg_count),
            source_path,
            first_line_number: line_or(args.co_firstlineno, own.first_line_number),
            max_stackdepth: own.max_stackdepth,
            obj_name,
            cell2arg: copy_of(alloc, own.cell2arg.as_slice())?,
            constants,
            names: global_names,
            varnames,
            cellvars: copy_of(alloc, own.cellvars.as_slice())?,
            freevars: copy_of(alloc, own.freevars.as_slice())?,
        }))
    }
}
