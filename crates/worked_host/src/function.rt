//! A function and a generator as trees, made by hand.

ghost use Rattle.std.specs.Prelude.{◌≡◌, ◌≤◌, IfOk, false};
ghost use Rattle.py_tree.specs.declared.body.BodyKind.TheVariants.{Function, Generator};
ghost use Rattle.py_tree.specs.Tree.{Operate};
ghost use Rattle.py_tree.specs.ExprViews.{expr_of, exprs_of};
ghost use Rattle.py_tree.specs.Compilable.{IsCompilable, SuiteFits, SuiteNests, statements};
ghost use Rattle.py_tree.specs.Views.{suite_of, tree_of};

use py_body::{
    Atom, Body, BodyKind, Expr, ExprList, Operator, ParamList, Stmt, StmtForm, StmtList,
};
use py_code::{NoMemory, PyText, text_of};
use std::alloc::Global;

/// The function that counts down by calls of itself:
///
/// ```text
/// def down n
/// show n
/// if n
/// m = (sub n 1)
/// do (call down m)
/// end
/// return 'done'
/// end
/// ```
pub(crate) fn count_down(alloc: Global) -> Result<Body, NoMemory>
    ensures { IfOk result (λ body. IsCompilable (tree_of body)) }
{
    let inner = call_of_less(alloc)?;
    let mut suite = StmtList::new(alloc);
    suite.push(line(2, StmtForm::Show(Expr::Atom(name(alloc, b"n")?))))?;
    suite.push(line(3, StmtForm::If(Expr::Atom(name(alloc, b"n")?), inner)))?;
    let done = Expr::Atom(Atom::Str(text(alloc, b"done")?));
    suite.push(line(7, StmtForm::Return(done)))?;
    body_of(alloc, BodyKind::Function, b"down", suite)
}

/// The two lines in the `if`.
fn call_of_less(alloc: Global) -> Result<StmtList, NoMemory>
    ensures fits { IfOk result (λ suite. SuiteFits Function false (suite_of suite)) }
    ensures nests { IfOk result (λ suite. SuiteNests 0 (suite_of suite)) }
    ensures counted { IfOk result (λ suite. statements (suite_of suite) ≡ 8) }
{
    let mut suite = StmtList::new(alloc);
    let operands = ExprList::two(
        alloc,
        Expr::Atom(name(alloc, b"n")?),
        Expr::Atom(Atom::Int(1)),
    )?;
    suite.push(line(
        4,
        StmtForm::Assign(text(alloc, b"m")?, operation(Operator::Sub, operands)),
    ))?;
    let operands = ExprList::two(
        alloc,
        Expr::Atom(name(alloc, b"down")?),
        Expr::Atom(name(alloc, b"m")?),
    )?;
    suite.push(line(5, StmtForm::Do(Operator::Call, operands)))?;
    Ok(suite)
}

/// The generator that yields its argument, and then what it is sent:
///
/// ```text
/// gen echo n
/// x = (yield n)
/// do (yield x)
/// end
/// ```
pub(crate) fn echo(alloc: Global) -> Result<Body, NoMemory>
    ensures { IfOk result (λ body. IsCompilable (tree_of body)) }
{
    let mut suite = StmtList::new(alloc);
    let operands = ExprList::one(alloc, Expr::Atom(name(alloc, b"n")?))?;
    suite.push(line(
        2,
        StmtForm::Assign(text(alloc, b"x")?, operation(Operator::Yield, operands)),
    ))?;
    let operands = ExprList::one(alloc, Expr::Atom(name(alloc, b"x")?))?;
    suite.push(line(3, StmtForm::Do(Operator::Yield, operands)))?;
    body_of(alloc, BodyKind::Generator, b"echo", suite)
}

/// A body of this kind and name, whose one parameter is `n` and whose statements are given.
fn body_of(alloc: Global, kind: BodyKind, name: &[u8], suite: StmtList) -> Result<Body, NoMemory>
    requires fits { SuiteFits kind false (suite_of suite) }
    requires nests { SuiteNests 0 (suite_of suite) }
    requires short { statements (suite_of suite) ≤ 1048576 }
    ensures { IfOk result (λ body. IsCompilable (tree_of body)) }
{
    let name = text(alloc, name)?;
    let mut params = ParamList::new(alloc);
    params.push(text(alloc, b"n")?)?;
    Ok(Body {
        kind,
        name,
        params,
        suite,
        line: 1,
    })
}

/// An operator with its operands.
fn operation(operator: Operator, operands: ExprList) -> Expr
    ensures { expr_of result ≡ Operate operator (exprs_of operands) }
{
    Expr::Operation(operator, operands)
}

fn line(line: u32, form: StmtForm) -> Stmt
    ensures { result ≡ record { line = line; form = form } }
{
    Stmt { line, form }
}

fn text(alloc: Global, bytes: &[u8]) -> Result<PyText, NoMemory> {
    Ok(text_of(alloc, bytes)?)
}

fn name(alloc: Global, bytes: &[u8]) -> Result<Atom, NoMemory> {
    Ok(Atom::Name(text_of(alloc, bytes)?))
}
