//! The code of a generator with each operation that yields, or that drives another generator.

ghost use Rattle.std.specs.Prelude.{◌≡◌, IfOk};
ghost use Rattle.py_tree.specs.Compilable.{IsCompilable};
ghost use Rattle.py_tree.specs.Views.{tree_of};

use py_body::{
    Atom, Body, BodyKind, Expr, ExprList, Operator, ParamList, Stmt, StmtForm, StmtList,
    compile_body,
};
use py_code::{CodeFlags, Instruction, Names, NoMemory, PyCode, text_of};
use std::alloc::Global;
use std::process::Abort;

fn line(line: u32, form: StmtForm) -> Stmt
    ensures { result ≡ record { line = line; form = form } }
{
    Stmt { line, form }
}

/// A generator with one of each:
///
/// ```text
/// gen g
/// do (yield 1)
/// do (send None 2)
/// do (throw None 3)
/// do (close None)
/// end
/// ```
fn driving(alloc: Global) -> Result<Body, NoMemory>
    ensures { IfOk result (λ body. IsCompilable (tree_of body)) }
{
    let mut suite = StmtList::new(alloc);
    let yielded = ExprList::one(alloc, Expr::Atom(Atom::Int(1)))?;
    suite.push(line(2, StmtForm::Do(Operator::Yield, yielded)))?;
    let sent = ExprList::two(alloc, Expr::Atom(Atom::None), Expr::Atom(Atom::Int(2)))?;
    suite.push(line(3, StmtForm::Do(Operator::Send, sent)))?;
    let thrown = ExprList::two(alloc, Expr::Atom(Atom::None), Expr::Atom(Atom::Int(3)))?;
    suite.push(line(4, StmtForm::Do(Operator::Throw, thrown)))?;
    let closed = ExprList::one(alloc, Expr::Atom(Atom::None))?;
    suite.push(line(5, StmtForm::Do(Operator::Close, closed)))?;
    Ok(Body {
        kind: BodyKind::Generator,
        name: text_of(alloc, b"g")?,
        params: ParamList::new(alloc),
        suite,
        line: 1,
    })
}

#[test]
fn a_generator_yields_by_a_unit_and_drives_by_calls(rt: HostRuntime) -> Result<(), NoMemory> {
    let load = Instruction::LoadConst;
    let call = Instruction::CallFunctionPositional;
    let units = [
        (load, 0),
        (Instruction::YieldValue, 0),
        (Instruction::Pop, 0),
        (load, 1),
        (load, 2),
        (load, 3),
        (call, 2),
        (Instruction::Pop, 0),
        (load, 4),
        (load, 5),
        (load, 6),
        (call, 2),
        (Instruction::Pop, 0),
        (load, 7),
        (load, 8),
        (call, 1),
        (Instruction::Pop, 0),
        (Instruction::ReturnConst, 9),
    ];
    let body = driving(rt.alloc())?;
    let mut names = Names::new(rt.alloc());
    compare_compiled(&rt, rt.alloc(), &mut names, &body, &units)
}

/// Compares the code that a body is compiled to with these units.
fn compare_compiled(
    rt: &impl Abort,
    alloc: Global,
    names: &mut Names,
    body: &Body,
    units: &[(Instruction, u32)],
) -> Result<(), NoMemory>
    requires { IsCompilable (tree_of body.now) }
{
    let codes = compile_body(alloc, names, body, 0)?;
    let [annotated] = codes.as_slice() else {
        panic!(rt; "one body has one code");
    };
    compare_units(rt, &annotated.code, units);
    Ok(())
}

/// Compares a code with these units, and its flags with a generator's.
fn compare_units(rt: &impl Abort, code: &PyCode, units: &[(Instruction, u32)]) {
    let wanted = CodeFlags::NEW_LOCALS | CodeFlags::IS_OPTIMIZED | CodeFlags::IS_GENERATOR;
    assert_eq!(rt; code.code.flags, wanted);
    for (at, want) in units.iter().enumerate() {
        assert!(rt; is_unit(code, at, *want), "at {at}");
    }
}

/// Whether a code has this unit at a place.
fn is_unit(code: &PyCode, at: usize, want: (Instruction, u32)) -> bool {
    match code.decoded(at) {
        Some(unit) => unit.op == want.0 && unit.arg.0 == want.1,
        None => false,
    }
}
