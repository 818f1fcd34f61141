//! The names of a raw code, as places in the table of names.

ghost use Rattle.std.specs.Prelude.{IfOk};
ghost use Rattle.py_laid.specs.Fits.{Continues};
ghost use Rattle.py_laid.specs.Naming.{IsNameOf, IsNameFor, NamesAll};
ghost use Rattle.py_raw.specs.Assembled.{script_path};
ghost use Rattle.py_raw.specs.RawSheet.{locals_of};

use py_body::{intern_all, intern_text};
use py_code::{NameId, Names, NoMemory};
use py_grammar::RawBlock;
use std::alloc::Global;

/// The names that a code has, by their places in the table.
pub(crate) struct RawNames {
    pub(crate) source_path: NameId,
    pub(crate) obj_name: NameId,
    pub(crate) global_names: Vec<NameId>,
    pub(crate) varnames: Vec<NameId>,
    pub(crate) cellvars: Vec<NameId>,
    pub(crate) freevars: Vec<NameId>,
}

/// The name of where codes of scripts come from.
fn intern_path(names: &mut Names) -> Result<NameId, NoMemory>
    ensures named { IfOk result (λ id. IsNameOf names.new id script_path) }
    ensures grows { Continues names.old names.new }
{
    names.intern("<script>")
}

/// The names of the locals: of the parameters that the first line names, and after them of the others.
fn name_locals(alloc: Global, names: &mut Names, block: &RawBlock) -> Result<Vec<NameId>, NoMemory>
    ensures named { IfOk result (λ ids. NamesAll names.new ids.items (locals_of block.now)) }
    ensures grows { Continues names.old names.new }
{
    let mut ids = intern_all(alloc, names, block.params.as_slice())?;
    for text in block.vars.as_slice() {
        let id = intern_text(alloc, names, text)?;
        ids.push(id)?;
    }
    Ok(ids)
}

/// The names of a raw code.
pub(crate) fn names_for(
    alloc: Global,
    names: &mut Names,
    block: &RawBlock,
) -> Result<RawNames, NoMemory>
    ensures source_path { IfOk result (λ ids. IsNameOf names.new ids.source_path script_path) }
    ensures obj_name { IfOk result (λ ids. IsNameFor names.new ids.obj_name block.now.name) }
    ensures global_names { IfOk result
        (λ ids. NamesAll names.new ids.global_names.items block.now.names) }
    ensures varnames { IfOk result
        (λ ids. NamesAll names.new ids.varnames.items (locals_of block.now)) }
    ensures cellvars { IfOk result (λ ids. NamesAll names.new ids.cellvars.items block.now.cells) }
    ensures freevars { IfOk result (λ ids. NamesAll names.new ids.freevars.items block.now.frees) }
    ensures grows { Continues names.old names.new }
{
    let source_path = intern_path(names)?;
    let obj_name = intern_text(alloc, names, &block.name)?;
    let varnames = name_locals(alloc, names, block)?;
    let global_names = intern_all(alloc, names, block.names.as_slice())?;
    let cellvars = intern_all(alloc, names, block.cells.as_slice())?;
    let freevars = intern_all(alloc, names, block.frees.as_slice())?;
    Ok(RawNames {
        source_path,
        obj_name,
        global_names,
        varnames,
        cellvars,
        freevars,
    })
}
