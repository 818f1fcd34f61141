//! Sizes: how many units the code of each form takes, where it is known how many an instruction takes.

ghost use Rattle.std.specs.Prelude.{◌≡◌, ◌+◌, ◌≤◌};
ghost use Rattle.py_tree.specs.Tree.{Operate};
ghost use Rattle.py_tree.specs.ExprViews.{expr_of, exprs_of};
ghost use Rattle.py_tree.specs.Views.{clauses_of, form_of, suite_of};
ghost use Rattle.py_body.specs.Sizes.{most_units, size_around, size_clause, size_callee, size_clauses, size_expr, size_exprs, size_finally, size_form, size_handler, size_suite, size_target};

use py_code::{BuiltinFn, PyText};
use py_laid::{callee_of, coding_of};
use py_tree::{ClauseList, Expr, ExprList, Operator, StmtForm, StmtList};

/// How many units an instruction takes, by its operand.
#[derive(Clone, Copy, Debug, PartialEq, Eq)]
pub struct Weights {
    /// Where it is a label.
    pub jump: u32,
    /// Where it is the place of a constant, of a name or of a local.
    pub index: u32,
    /// Where it fits a byte.
    pub plain: u32,
}

/// The size of statements.
#[cycle(size)]
pub fn size_of_suite(weights: Weights, suite: &StmtList) -> u32
    requires { size_suite weights (suite_of suite.now) ≤ most_units }
    ensures size { result ≡ size_suite weights (suite_of suite.now) }
    ensures most { result ≤ most_units }
{
    let mut size = 0;
    for stmt in suite.as_slice() {
        size += size_of_form(weights, &stmt.form);
    }
    size
}

/// The size of a statement.
#[cycle(size)]
fn size_of_form(weights: Weights, form: &StmtForm) -> u32
    requires { size_form weights (form_of form.now) ≤ most_units }
    ensures size { result ≡ size_form weights (form_of form.now) }
{
    let Weights { jump, index, plain } = weights;
    match form {
        StmtForm::Assign(_name, expr) => size_of_expr(weights, expr) + index,
        StmtForm::Do(operator, operands) => {
            size_of_operation(weights, *operator, operands) + plain
        },
        StmtForm::Show(expr) => size_of_expr(weights, expr) + plain,
        StmtForm::Return(expr) => size_of_expr(weights, expr) + plain,
        StmtForm::Raise(expr) => size_of_expr(weights, expr) + plain,
        StmtForm::Reraise => plain,
        StmtForm::Break => jump,
        StmtForm::Continue => jump,
        StmtForm::Pass => 0,
        StmtForm::If(expr, suite) => {
            let value = size_of_expr(weights, expr);
            value + jump + size_of_suite(weights, suite)
        },
        StmtForm::IfElse(expr, suite, other) => {
            let value = size_of_expr(weights, expr);
            let first = size_of_suite(weights, suite);
            value + jump + first + jump + size_of_suite(weights, other)
        }
        StmtForm::While(expr, suite) => {
            let value = size_of_expr(weights, expr);
            plain + value + jump + size_of_suite(weights, suite) + jump + plain
        }
        StmtForm::TryExcept(suite, clauses) => {
            let body = size_of_suite(weights, suite);
            jump + body + plain + jump + size_of_clauses(weights, clauses) + plain
        }
        StmtForm::TryFinally(suite, last) => {
            let body = size_of_suite(weights, suite);
            size_of_finally(weights, body, size_of_suite(weights, last))
        }
        StmtForm::With(expr, target, suite) => {
            let value = size_of_expr(weights, expr);
            let body = size_of_suite(weights, suite);
            size_of_with(weights, value, target, body)
        }
    }
}

/// The size of clauses.
#[cycle(size)]
pub fn size_of_clauses(weights: Weights, clauses: &ClauseList) -> u32
    requires { size_clauses weights (clauses_of clauses.now) ≤ most_units }
    ensures size { result ≡ size_clauses weights (clauses_of clauses.now) }
    ensures most { result ≤ most_units }
{
    let mut size = 0;
    for clause in clauses.as_slice() {
        let body = size_of_suite(weights, &clause.suite);
        size += size_of_clause(weights, &clause.target, body);
    }
    size
}

/// The size of a clause whose suite has this one.
pub fn size_of_clause(weights: Weights, target: &Option<PyText>, body: u32) -> u32
    requires { size_clause weights target.now body ≤ most_units }
    ensures { result ≡ size_clause weights target.now body }
{
    let Weights { jump, index, plain } = weights;
    let tests = plain + index + plain + jump;
    tests + size_of_target(weights, target) + size_of_handler(weights, target, body) + plain + jump
}

/// The size of what binds a value or drops it.
pub fn size_of_target(weights: Weights, target: &Option<PyText>) -> u32
    ensures { result ≡ size_target weights target.now }
{
    match target {
        None => weights.plain,
        Some(_name) => weights.index,
    }
}

/// The size of the suite of a clause, which has this one, with what forgets the clause's name.
pub fn size_of_handler(weights: Weights, target: &Option<PyText>, body: u32) -> u32
    requires { size_handler weights target.now body ≤ most_units }
    ensures { result ≡ size_handler weights target.now body }
{
    match target {
        None => body,
        Some(_name) => {
            let index = weights.index;
            size_of_finally(weights, body, index + index + index)
        }
    }
}

/// The size of a try with a finally, whose bodies have these.
fn size_of_finally(weights: Weights, body: u32, last: u32) -> u32
    requires { size_finally weights body last ≤ most_units }
    ensures { result ≡ size_finally weights body last }
{
    let Weights { jump, plain, .. } = weights;
    jump + body + plain + plain + last + plain
}

/// The size of a with whose suite has this one.
fn size_of_with(weights: Weights, value: u32, target: &Option<PyText>, body: u32) -> u32
    requires { size_around weights value target.now body ≤ most_units }
    ensures { result ≡ size_around weights value target.now body }
{
    let Weights { jump, plain, .. } = weights;
    let binds = size_of_target(weights, target);
    value + jump + binds + body + plain + plain + plain + plain
}

/// The size of the function of the machine's own that an operator may call.
fn size_of_callee(weights: Weights, callee: Option<BuiltinFn>) -> u32
    ensures { result ≡ size_callee weights callee }
{
    match callee {
        None => 0,
        Some(_function) => weights.index,
    }
}

/// The size of an expression.
#[cycle(measure)]
pub fn size_of_expr(weights: Weights, expr: &Expr) -> u32
    requires { size_expr weights (expr_of expr.now) ≤ most_units }
    ensures size { result ≡ size_expr weights (expr_of expr.now) }
    ensures most { result ≤ most_units }
{
    match expr {
        Expr::Atom(_atom) => weights.index,
        Expr::Operation(operator, operands) => size_of_operation(weights, *operator, operands),
    }
}

/// The size of an operator with its operands.
#[cycle(measure)]
pub fn size_of_operation(weights: Weights, operator: Operator, operands: &ExprList) -> u32
    requires { size_expr weights (Operate operator (exprs_of operands.now)) ≤ most_units }
    ensures size { result ≡ size_expr weights (Operate operator (exprs_of operands.now)) }
    ensures most { result ≤ most_units }
{
    let callee = size_of_callee(weights, callee_of(coding_of(operator)));
    callee + size_of_exprs(weights, operands) + weights.plain
}

/// The size of operands.
#[cycle(measure)]
fn size_of_exprs(weights: Weights, exprs: &ExprList) -> u32
    requires { size_exprs weights (exprs_of exprs.now) ≤ most_units }
    ensures size { result ≡ size_exprs weights (exprs_of exprs.now) }
{
    let mut size = 0;
    for expr in exprs.as_slice() {
        size += size_of_expr(weights, expr);
    }
    size
}
