//! The units of a raw code, and their lines.

ghost use Rattle.std.specs.Prelude.{◌≡◌, IfOk, map};
ghost use Rattle.py_raw.specs.RawSheet.{line_of, unit_of};

use py_code::{CodeUnit, NoMemory};
use py_grammar::RawUnit;
use std::alloc::Global;

/// The units without their notes and lines, in order.
pub(crate) fn instructions_of(alloc: Global, units: &[RawUnit]) -> Result<Vec<CodeUnit>, NoMemory>
    ensures { IfOk result (λ made. made.items ≡ map unit_of units.now) }
{
    let mut instructions = Vec::new(alloc);
    for unit in units {
        instructions.push(CodeUnit {
            op: unit.op,
            arg: unit.arg,
        })?;
    }
    Ok(instructions)
}

/// The lines that they stand in.
pub(crate) fn locations_of(alloc: Global, units: &[RawUnit]) -> Result<Vec<u32>, NoMemory>
    ensures { IfOk result (λ lines. lines.items ≡ map line_of units.now) }
{
    let mut lines = Vec::new(alloc);
    for unit in units {
        lines.push(unit.line)?;
    }
    Ok(lines)
}
