//! Codes as tables: what each unit does, and what its note says.

ghost use Rattle.std.specs.Prelude.{◌≡◌, List, [], IfOk, map, true};
ghost use Rattle.py_code.specs.Literals.{literals_of};
ghost use Rattle.py_check.specs.declared.note.Note.{Note as NoteOf};
ghost use Rattle.py_check.specs.declared.note.Note.TheVariants as note;
ghost use Rattle.py_check.specs.Sheet.{sheet_of};
ghost use Rattle.py_check.specs.Typing.{IsTyped};
ghost use Rattle.py_check.specs.Running.{AllRun};
ghost use Rattle.frame_tests.specs.Codes.{IsCodeOf, block_of, keeps_rules, note_of, table_constants, unit_of, waiting_of};

use crate::tables::{Open, Row};
use bitflags::Flags;
use py_check::{
    Annotated, BlockList, BlockNote, CheckFault, CheckedCode, Kind, KindList, Note, NoteList,
    Pending, PendingSet, Shapes, check_code,
};
use py_code::{
    BuiltinFn, CodeFlags, CodeObject, CodeUnit, Instruction, Literal, LiteralList, NameId,
    NoMemory, PyCode,
};
use std::alloc::Global;
use std::process::Abort;
use std::test::Fail;

/// The jumps that may wait where at most one may.
fn waiting(alloc: Global, jump: Option<Pending>) -> Result<PendingSet, NoMemory>
    ensures { IfOk result (λ made. made ≡ waiting_of jump) }
{
    let mut made = PendingSet::new(alloc);
    if let Some(jump) = jump {
        made.push(jump)?;
    }
    Ok(made)
}

/// An open block.
fn block(alloc: Global, around: Open) -> Result<BlockNote, NoMemory>
    ensures { IfOk result (λ made. made ≡ block_of around) }
{
    match around {
        Open::Loop(level) => Ok(BlockNote::Loop { level }),
        Open::TryExcept(level, handler) => Ok(BlockNote::TryExcept { level, handler }),
        Open::Finally(level, handler) => Ok(BlockNote::Finally { level, handler }),
        Open::FinallyHandler(level, jump) => {
            let pending = waiting(alloc, jump)?;
            Ok(BlockNote::FinallyHandler { level, pending })
        }
        Open::ExceptHandler(level) => Ok(BlockNote::ExceptHandler { level }),
    }
}

/// Open blocks.
fn blocks(alloc: Global, opens: &[Open]) -> Result<BlockList, NoMemory>
    ensures { IfOk result (λ made. made ≡ map block_of opens.now) }
{
    match opens {
        [] => Ok(BlockList::new()),
        [open, more @ ..] => {
            let around = blocks(alloc, more)?;
            let block = block(alloc, *open)?;
            around.with(alloc, block)
        }
    }
}

/// Kinds of entries.
fn kinds(alloc: Global, entries: &[Kind]) -> Result<KindList, NoMemory>
    ensures { IfOk result (λ made. made ≡ entries.now) }
{
    let mut made = KindList::new(alloc);
    for kind in entries {
        made.push(*kind)?;
    }
    Ok(made)
}

/// A note.
fn note(alloc: Global, entries: &[Kind], opens: &[Open]) -> Result<Note, NoMemory>
    ensures { IfOk result (λ made. made ≡ note.Live entries.now (map block_of opens.now)) }
{
    let kinds = kinds(alloc, entries)?;
    let blocks = blocks(alloc, opens)?;
    Ok(Note::Live { kinds, blocks })
}

/// The notes of a code.
fn notes(alloc: Global, rows: &[Row]) -> Result<NoteList, NoMemory>
    ensures { IfOk result (λ made. made ≡ map note_of rows.now) }
{
    let mut made = NoteList::new(alloc);
    for row in rows {
        made.push(note(alloc, row.2, row.3)?)?;
    }
    Ok(made)
}

/// The units of a code.
fn units(alloc: Global, rows: &[Row]) -> Result<Vec<CodeUnit>, NoMemory>
    ensures { IfOk result (λ made. made.items ≡ map unit_of rows.now) }
{
    let mut made = Vec::new(alloc);
    for row in rows {
        made.push(CodeUnit {
            op: row.0,
            arg: row.1,
        })?;
    }
    Ok(made)
}

/// None and the functions that drive generators.
fn constants(alloc: Global) -> Result<LiteralList, NoMemory>
    ensures { IfOk result (λ made. literals_of made ≡ table_constants) }
{
    let mut made = LiteralList::new(alloc);
    made.push(Literal::None)?;
    made.push(Literal::Builtin(BuiltinFn::Send))?;
    made.push(Literal::Builtin(BuiltinFn::Throw))?;
    made.push(Literal::Builtin(BuiltinFn::Close))?;
    Ok(made)
}

/// A generator's code of two parameters and one more local, with None and the functions that drive generators as constants.
fn code(alloc: Global, rows: &[Row]) -> Result<PyCode, NoMemory>
    ensures { IfOk result (λ code. (notes : List NoteOf) → notes ≡ map note_of rows.now → IsCodeOf rows.now (record { code = code; notes = notes })) }
{
    let name = NameId { index: 0 };
    let instructions = units(alloc, rows)?;
    let locations = vec![in alloc; 1; rows.len()]?;
    let constants = constants(alloc)?;
    let names = vec![in alloc; name]?;
    let varnames = vec![in alloc; name, name, name]?;
    Ok(PyCode::new(CodeObject {
        instructions,
        locations,
        flags: CodeFlags::NEW_LOCALS
            .union(CodeFlags::IS_OPTIMIZED)
            .union(CodeFlags::IS_GENERATOR),
        posonlyarg_count: 0,
        arg_count: 2,
        kwonlyarg_count: 0,
        source_path: name,
        first_line_number: None,
        max_stackdepth: 5,
        obj_name: name,
        cell2arg: Vec::new(alloc),
        constants,
        names,
        varnames,
        cellvars: Vec::new(alloc),
        freevars: Vec::new(alloc),
    }))
}

/// The same with its notes.
fn annotated(alloc: Global, rows: &[Row]) -> Result<Annotated, NoMemory>
    ensures { IfOk result (λ code. IsCodeOf rows.now code) }
{
    let notes = notes(alloc, rows)?;
    let code = code(alloc, rows)?;
    Ok(Annotated { code, notes })
}

/// The code of a table whose notes keep the rules.
pub fn checked(alloc: Global, rows: &[Row]) -> Result<CheckedCode, NoMemory>
    requires { keeps_rules rows.now ≡ true }
    ensures of { IfOk result (λ code. IsCodeOf rows.now code) }
    ensures typed { IfOk result (λ code. IsTyped [] (sheet_of code)) }
    ensures runs { IfOk result (λ code. AllRun (sheet_of code)) }
{
    let code = annotated(alloc, rows)?;
    let shapes = Shapes::new(alloc);
    match check_code(alloc, code, &shapes) {
        Ok(code) => Ok(code),
        Err(CheckFault::NoMemory) => Err(NoMemory),
        Err(CheckFault::Breaks(_)) => unreachable!(),
    }
}

/// The sum of the two parameters.
const SUM: [Row; 4] = [
    Row(Instruction::LoadFast, 0, &[], &[]),
    Row(Instruction::LoadFast, 1, &[Kind::Any], &[]),
    Row(
        Instruction::BinaryOperation,
        6,
        &[Kind::Any, Kind::Any],
        &[],
    ),
    Row(Instruction::ReturnValue, 0, &[Kind::Any], &[]),
];

/// Whether a unit's note has so many entries, and no block.
fn has_entries(note: Option<&Note>, entries: usize) -> bool {
    match note {
        Some(Note::Live { kinds, blocks }) => kinds.len() == entries && blocks.len() == 0,
        Some(Note::Dead) | None => false,
    }
}

/// Compares the notes of the sum's code with its rows.
fn compare_notes(rt: &impl Abort, code: &CheckedCode) {
    for (at, row) in SUM.iter().enumerate() {
        assert!(rt; has_entries(code.note(at), row.2.len()), "at {at}");
    }
    assert!(rt; code.note(SUM.len()).is_none());
}

#[test]
fn a_checked_code_is_what_was_handed_in(rt: HostRuntime) -> Result<(), Fail> {
    let code = checked(rt.alloc(), &SUM)?;
    assert_eq!(rt; (code.code().co_argcount(), code.block_depth()), (2, 0));
    compare_notes(&rt, &code);
    let code = code.into_code();
    assert_eq!(rt; code.co_argcount(), 2);
    Ok(())
}
