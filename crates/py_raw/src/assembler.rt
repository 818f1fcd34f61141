//! The assembler: the code of a raw code, as it was written.

ghost use Rattle.std.specs.Prelude.{◌≡◌, ◌≤◌, IfOk, length};
ghost use Rattle.py_grammar.specs.WellFormed.{IsWellCoded};
ghost use Rattle.py_laid.specs.Fits.{Continues};
ghost use Rattle.py_raw.specs.Assembled.{IsAssembled};
ghost use Rattle.py_raw.specs.RawSheet.{counts_of};

use crate::constants::literals_of;
use crate::flags::flags_of;
use crate::naming::{RawNames, names_for};
use crate::notes::notes_of;
use crate::units::{instructions_of, locations_of};
use py_check::Annotated;
use py_code::{CodeObject, NameSet, Names, NoMemory, PyCode};
use py_grammar::{RawBlock, RawCounts};
use std::alloc::Global;

/// The counts of a raw code: where it has no line of them, all its parameters take positional arguments.
fn counts_of(block: &RawBlock) -> RawCounts
    requires { length block.now.params ≤ 255 }
    ensures { result ≡ counts_of block.now }
{
    match block.counts {
        Some(counts) => counts,
        None => RawCounts {
            positional: 0,
            args: block.params.len() as u32,
            named: 0,
        },
    }
}

/// The code that a raw code is, with its notes: unit by unit as it was written, after codes of these names. Its names go into the table.
/// It fails only where memory runs out; the table may then have some of the names.
pub fn assemble(
    alloc: Global,
    names: &mut Names,
    earlier: &NameSet,
    block: &RawBlock,
) -> Result<Annotated, NoMemory>
    requires { IsWellCoded earlier.now block.now }
    ensures assembled { IfOk result (λ code. IsAssembled names.new earlier.now code block.now) }
    ensures grows { Continues names.old names.new }
{
    let ids = names_for(alloc, names, block)?;
    let RawNames {
        source_path,
        obj_name,
        global_names,
        varnames,
        cellvars,
        freevars,
    } = ids;
    let counts = counts_of(block);
    let units = block.units.as_slice();
    let notes = notes_of(alloc, units)?;
    let code = PyCode::new(CodeObject {
        instructions: instructions_of(alloc, units)?,
        locations: locations_of(alloc, units)?,
        flags: flags_of(block.flags.as_slice()),
        posonlyarg_count: counts.positional,
        arg_count: counts.args,
        kwonlyarg_count: counts.named,
        source_path,
        first_line_number: Some(block.line),
        max_stackdepth: block.depth,
        obj_name,
        cell2arg: Vec::new(alloc),
        constants: literals_of(alloc, earlier, block.consts.as_slice())?,
        names: global_names,
        varnames,
        cellvars,
        freevars,
    });
    Ok(Annotated { code, notes })
}
