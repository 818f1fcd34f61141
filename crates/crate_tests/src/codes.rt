//! Codes, units and operators, as far as they can be worked out by hand and no script shows them.

use bitflags::Flags;
use py_code::{
    BinaryOperator, CodeFlags, CodeObject, CodeUnit, ComparisonOperator, ConversionFlag,
    Instruction, Literal, LiteralList, MakeFunctionFlags, NameId, Names, NoMemory, NoOperator,
    OpArg, OpArgState, PyCode, RaiseKind, ReplaceArgs, ReplaceFault, TestOperator, UnaryOperator,
    text_of, utf8_of,
};
use std::alloc::Global;
use std::process::Abort;

/// A code of these units, constants and names of locals, whose numbers all differ.
fn code_of(
    alloc: Global,
    instructions: Vec<CodeUnit>,
    constants: LiteralList,
    varnames: Vec<NameId>,
) -> PyCode {
    PyCode::new(CodeObject {
        instructions,
        locations: Vec::new(alloc),
        flags: CodeFlags::NEW_LOCALS | CodeFlags::IS_OPTIMIZED,
        posonlyarg_count: 1,
        arg_count: 2,
        kwonlyarg_count: 3,
        source_path: NameId { index: 4 },
        first_line_number: None,
        max_stackdepth: 5,
        obj_name: NameId { index: 6 },
        cell2arg: Vec::new(alloc),
        constants,
        names: Vec::new(alloc),
        varnames,
        cellvars: Vec::new(alloc),
        freevars: Vec::new(alloc),
    })
}

/// A code of these units.
fn code_of_units(alloc: Global, units: &[(Instruction, u8)]) -> Result<PyCode, NoMemory> {
    let mut made = Vec::new(alloc);
    for (op, arg) in units {
        made.push(CodeUnit { op: *op, arg: *arg })?;
    }
    let constants = LiteralList::new(alloc);
    Ok(code_of(alloc, made, constants, Vec::new(alloc)))
}

/// A code of a constant and two locals.
fn code_of_locals(alloc: Global) -> Result<PyCode, NoMemory> {
    let mut constants = LiteralList::new(alloc);
    constants.push(Literal::Bool(true))?;
    let varnames = vec![in alloc; NameId { index: 7 }, NameId { index: 8 }]?;
    Ok(code_of(alloc, Vec::new(alloc), constants, varnames))
}

#[test]
fn a_unit_stands_behind_its_prefixes(rt: HostRuntime) -> Result<(), NoMemory> {
    let units = [
        (Instruction::ExtendedArg, 1),
        (Instruction::ExtendedArg, 2),
        (Instruction::LoadConst, 3),
        (Instruction::Pop, 0),
        (Instruction::ExtendedArg, 9),
    ];
    let code = code_of_units(rt.alloc(), &units)?;
    let load = Instruction::LoadConst;
    let cases = [
        (0, Some((load, 66051, 3))),
        (1, Some((load, 515, 3))),
        (2, Some((load, 3, 3))),
        (3, Some((Instruction::Pop, 0, 4))),
        (4, None),
        (5, None),
        (99, None),
    ];
    for (at, want) in cases {
        let decoded = code
            .decoded(at)
            .map(|unit| (unit.op, unit.arg.0, unit.next));
        assert_eq!(rt; decoded, want, "at {at}");
    }
    Ok(())
}

#[test]
fn an_argument_keeps_its_low_32_bits(rt: HostRuntime) {
    let mut state = OpArgState::new();
    for byte in [1, 2, 3, 4] {
        state.extend(byte);
    }
    assert_eq!(rt; state.extend(5), OpArg(0x0203_0405));
    state.reset();
    assert_eq!(rt; state.extend(7), OpArg(7));
    let mut built = OpArgState::of(OpArg(2));
    assert_eq!(rt; built.arg(), OpArg(2));
    assert_eq!(rt; built.extend(1), OpArg(513));
}

#[test]
fn an_operator_is_read_by_its_number(rt: HostRuntime) {
    assert!(rt; BinaryOperator::try_from(6) == Ok(BinaryOperator::Add));
    assert!(rt; BinaryOperator::try_from(13) == Err(NoOperator(13)));
    assert!(rt; ComparisonOperator::try_from(2) == Ok(ComparisonOperator::Equal));
    assert!(rt; UnaryOperator::try_from(2) == Ok(UnaryOperator::Minus));
    assert!(rt; TestOperator::try_from(4) == Ok(TestOperator::ExceptionMatch));
    assert!(rt; ConversionFlag::try_from(3) == Ok(ConversionFlag::Repr));
    assert!(rt; RaiseKind::try_from(1) == Ok(RaiseKind::Raise));
}

#[test]
fn an_operator_has_its_number(rt: HostRuntime) {
    let numbers = [
        u32::from(BinaryOperator::Or),
        u32::from(ComparisonOperator::NotEqual),
        u32::from(UnaryOperator::Plus),
        u32::from(TestOperator::Is),
        u32::from(ConversionFlag::Ascii),
        u32::from(RaiseKind::RaiseCause),
    ];
    assert_eq!(rt; numbers, [12, 5, 3, 2, 2, 2]);
}

#[test]
fn a_getter_gives_its_own_field(rt: HostRuntime) -> Result<(), NoMemory> {
    let code = code_of_locals(rt.alloc())?;
    assert_eq!(rt;
        (
            code.co_posonlyargcount(),
            code.co_argcount(),
            code.co_kwonlyargcount()
        ),
        (1, 2, 3)
    );
    assert_eq!(rt; (code.co_stacksize(), code.co_firstlineno()), (5, 0));
    assert_eq!(rt; (code.co_nlocals(), code.co_flags()), (2, 33));
    assert_eq!(rt; (code.co_filename().index, code.co_name().index), (4, 6));
    assert_eq!(rt; code.co_varnames().first(), Some(&NameId { index: 7 }));
    assert!(rt;
        code.co_names().is_empty() && code.co_cellvars().is_empty() && code.co_freevars().is_empty()
    );
    assert!(rt; matches!(code.co_consts().get(0), Some(Literal::Bool(true))));
    assert_eq!(rt; code.co_consts().len(), 1);
    Ok(())
}

/// The code of a function f in line 1 of a script, which names nothing.
fn code_of_f(alloc: Global, names: &mut Names) -> Result<PyCode, NoMemory> {
    let mut code = code_of_locals(alloc)?;
    code.code.source_path = names.intern("<script>")?;
    code.code.obj_name = names.intern("f")?;
    code.code.first_line_number = Some(1);
    Ok(code)
}

/// The repr of a code whose number is 0.
fn repr_of(
    rt: &impl Abort,
    alloc: Global,
    names: &Names,
    code: &PyCode,
) -> Result<String, NoMemory> {
    assert!(rt; code.co_name().index < names.len() && code.co_filename().index < names.len());
    utf8_of(alloc, &code.repr(alloc, names, 0)?)
}

#[test]
fn a_code_is_told_by_its_name_its_file_and_its_line(rt: HostRuntime) -> Result<(), NoMemory> {
    let alloc = rt.alloc();
    let mut names = Names::new(alloc);
    let mut code = code_of_f(alloc, &mut names)?;
    let text = repr_of(&rt, alloc, &names, &code)?;
    assert_eq!(rt;
        text.as_str(),
        "<code object f at 0 file \"<script>\", line 1>"
    );
    code.code.first_line_number = None;
    let text = repr_of(&rt, alloc, &names, &code)?;
    assert_eq!(rt;
        text.as_str(),
        "<code object f at 0 file \"<script>\", line -1>"
    );
    Ok(())
}

#[test]
fn a_part_that_is_given_replaces_the_codes_own(rt: HostRuntime) -> Result<(), ReplaceFault> {
    let alloc = rt.alloc();
    let mut names = Names::new(alloc);
    let code = code_of_f(alloc, &mut names)?;
    let mut locals = LiteralList::new(alloc);
    locals.push(Literal::Str(text_of(alloc, b"x")?))?;
    let args = ReplaceArgs {
        co_name: Some(text_of(alloc, b"h")?),
        co_firstlineno: Some(0),
        co_flags: Some(0xffc2),
        co_varnames: Some(locals),
        ..ReplaceArgs::new()
    };
    let made = code.replace(alloc, &mut names, args)?;
    let text = repr_of(&rt, alloc, &names, &made)?;
    assert_eq!(rt;
        text.as_str(),
        "<code object h at 0 file \"<script>\", line -1>"
    );
    assert_eq!(rt;
        (made.co_flags(), made.co_nlocals(), names.len()),
        (2, 1, 4)
    );
    assert_eq!(rt; (made.co_argcount(), made.co_stacksize()), (2, 5));
    assert!(rt; matches!(made.co_consts().get(0), Some(Literal::Bool(true))));
    Ok(())
}

#[test]
fn a_name_that_is_no_text_is_refused(rt: HostRuntime) -> Result<(), NoMemory> {
    let alloc = rt.alloc();
    let mut names = Names::new(alloc);
    let code = code_of_f(alloc, &mut names)?;
    let mut wanted = LiteralList::new(alloc);
    wanted.push(Literal::Int(3))?;
    let args = ReplaceArgs {
        co_name: Some(text_of(alloc, b"h")?),
        co_names: Some(wanted),
        ..ReplaceArgs::new()
    };
    match code.replace(alloc, &mut names, args) {
        Ok(_) => panic!(rt; "a number is no name"),
        Err(fault) => assert_eq!(rt; fault.to_string(alloc)?.as_str(), "NotText"),
    }
    assert_eq!(rt; names.len(), 2);
    Ok(())
}

#[test]
fn a_new_function_has_the_parts_that_its_number_stands_for(rt: HostRuntime) {
    let flags = MakeFunctionFlags::CLOSURE | MakeFunctionFlags::DEFAULTS;
    assert_eq!(rt; flags.bits(), 9);
    assert!(rt; MakeFunctionFlags::from_bits(16).is_none());
}
