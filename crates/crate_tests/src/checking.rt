//! The checker on small codes: each is taken, or refused at the first unit that breaks a rule.

use py_check::{
    Annotated, BlockList, CheckFault, Kind, KindList, Note, NoteList, Shapes, check_code,
};
use py_code::{
    CodeFlags, CodeObject, CodeUnit, Instruction, Literal, LiteralList, NameId, NoMemory, PyCode,
};
use std::alloc::Global;

/// A unit, and what lies on the stack before it, the top first.
type Row<'a> = (Instruction, u8, &'a [Kind]);

/// A code of these units on a stack of two, with None and the code 0 as constants.
fn annotated(alloc: Global, rows: &[Row<'_>]) -> Result<Annotated, NoMemory> {
    let mut instructions = Vec::new(alloc);
    let mut locations = Vec::new(alloc);
    let mut notes = NoteList::new(alloc);
    for (op, arg, before) in rows {
        instructions.push(CodeUnit { op: *op, arg: *arg })?;
        locations.push(1)?;
        let mut kinds = KindList::new(alloc);
        for kind in *before {
            kinds.push(*kind)?;
        }
        notes.push(Note::Live {
            kinds,
            blocks: BlockList::new(),
        })?;
    }
    let mut constants = LiteralList::new(alloc);
    constants.push(Literal::None)?;
    constants.push(Literal::Code(0))?;
    let name = NameId { index: 0 };
    let code = PyCode::new(CodeObject {
        instructions,
        locations,
        flags: CodeFlags::NEW_LOCALS,
        posonlyarg_count: 0,
        arg_count: 0,
        kwonlyarg_count: 0,
        source_path: name,
        first_line_number: None,
        max_stackdepth: 2,
        obj_name: name,
        cell2arg: Vec::new(alloc),
        constants,
        names: Vec::new(alloc),
        varnames: Vec::new(alloc),
        cellvars: Vec::new(alloc),
        freevars: Vec::new(alloc),
    });
    Ok(Annotated { code, notes })
}

#[test]
fn the_first_unit_that_breaks_a_rule_is_named(rt: HostRuntime) -> Result<(), NoMemory> {
    let load: Row<'_> = (Instruction::LoadConst, 0, &[]);
    let give: Row<'_> = (Instruction::ReturnValue, 0, &[Kind::Any]);
    let end: Row<'_> = (Instruction::ReturnConst, 0, &[]);
    let prefix: Row<'_> = (Instruction::ExtendedArg, 0, &[]);
    let cases: [(&[Row<'_>], Option<usize>); 8] = [
        (&[end], None),
        (&[load, give], None),
        // A jump into the middle of a unit and its prefix.
        (&[prefix, (Instruction::Jump, 1, &[]), end], Some(1)),
        // Nothing is left to drop.
        (
            &[
                load,
                (Instruction::Pop, 0, &[Kind::Any]),
                (Instruction::Pop, 0, &[]),
                end,
            ],
            Some(2),
        ),
        // The note before a unit isn't what the unit before it leaves.
        (&[load, (Instruction::ReturnConst, 0, &[])], Some(0)),
        // There is no such constant, and control runs past the end.
        (&[(Instruction::LoadConst, 2, &[]), give], Some(0)),
        (&[load, (Instruction::Pop, 0, &[Kind::Any])], Some(1)),
        (&[], Some(0)),
    ];
    let mut shapes = Shapes::new(rt.alloc());
    shapes.push(0)?;
    for (at, (rows, want)) in cases.iter().enumerate() {
        let code = annotated(rt.alloc(), rows)?;
        let breaks = match check_code(rt.alloc(), code, &shapes) {
            Ok(_) => None,
            Err(CheckFault::Breaks(unit)) => Some(unit),
            Err(CheckFault::NoMemory) => return Err(NoMemory),
        };
        assert_eq!(rt; breaks, *want, "code {at}");
    }
    Ok(())
}

#[test]
fn a_code_constant_is_an_earlier_code(rt: HostRuntime) -> Result<(), NoMemory> {
    let rows: [Row<'_>; 1] = [(Instruction::ReturnConst, 0, &[])];
    let code = annotated(rt.alloc(), &rows)?;
    let shapes = Shapes::new(rt.alloc());
    assert!(rt;
        matches!(
            check_code(rt.alloc(), code, &shapes),
            Err(CheckFault::Breaks(0))
        )
    );
    Ok(())
}
