//! The locals of a body: its parameters, and the names that its statements bind.

ghost use Rattle.std.specs.Prelude.{◌≡◌, ◌≢◌, [], IfOk, OnOk, AllPairs};
ghost use Rattle.py_tree.specs.Binding.{bound, bound_by, bound_if, bound_in, locals_of};
ghost use Rattle.py_tree.specs.Views.{form_of, suite_of, tree_of};
ghost use Rattle.py_body.specs.Puts.{bound_suite, bound_tried};

use py_code::{NameSet, NoMemory, PyText};
use py_tree::{Body, ClauseList, StmtForm, StmtList};
use std::alloc::Global;

/// The locals of a body in the order of their places: its parameters, then the other names that it binds.
pub fn locals_of(alloc: Global, body: &Body) -> Result<NameSet, NoMemory>
    requires { AllPairs (λ x y. x ≢ y) body.now.params }
    ensures { IfOk result (λ locals. locals ≡ locals_of (tree_of body.now)) }
{
    let mut names = NameSet::new(alloc);
    bind_params(&mut names, body.params.as_slice())?;
    bind_suite(&mut names, &body.suite)?;
    Ok(names)
}

/// Puts the names of parameters behind no others.
fn bind_params(names: &mut NameSet, params: &[PyText]) -> Result<(), NoMemory>
    requires none { names.old ≡ [] }
    requires differ { AllPairs (λ x y. x ≢ y) params.now }
    ensures { OnOk result (names.new ≡ params.now) }
{
    for param in params {
        bind(names, param)?;
    }
    Ok(())
}

/// Puts a name behind the others, unless it is one of them.
fn bind(names: &mut NameSet, name: &PyText) -> Result<(), NoMemory>
    ensures { OnOk result (names.new ≡ bound names.old name.now) }
{
    names.insert(name)?;
    Ok(())
}

/// Puts the names that a suite binds behind the others.
#[cycle(bind)]
fn bind_suite(names: &mut NameSet, suite: &StmtList) -> Result<(), NoMemory>
    ensures { OnOk result (names.new ≡ bound_by names.old (suite_of suite.now)) }
{
    for stmt in suite.as_slice() {
        bind_form(names, &stmt.form)?;
    }
    Ok(())
}

/// Puts the names that a statement binds behind the others.
#[cycle(bind)]
fn bind_form(names: &mut NameSet, form: &StmtForm) -> Result<(), NoMemory>
    ensures { OnOk result (names.new ≡ bound_in names.old (form_of form.now)) }
{
    match form {
        StmtForm::Assign(name, _expr) => bind(names, name),
        StmtForm::Do(_operator, _operands) => Ok(()),
        StmtForm::Show(_expr) => Ok(()),
        StmtForm::Return(_expr) => Ok(()),
        StmtForm::Raise(_expr) => Ok(()),
        StmtForm::Reraise => Ok(()),
        StmtForm::Break => Ok(()),
        StmtForm::Continue => Ok(()),
        StmtForm::Pass => Ok(()),
        StmtForm::If(_expr, suite) => bind_suite(names, suite),
        StmtForm::IfElse(_expr, suite, other) => bind_both(names, suite, other),
        StmtForm::While(_expr, suite) => bind_suite(names, suite),
        StmtForm::TryExcept(suite, clauses) => bind_tried(names, suite, clauses),
        StmtForm::TryFinally(suite, last) => bind_both(names, suite, last),
        StmtForm::With(_expr, target, suite) => bind_managed(names, target, suite),
    }
}

/// Puts the names that two suites bind behind the others.
#[cycle(bind)]
fn bind_both(names: &mut NameSet, suite: &StmtList, other: &StmtList) -> Result<(), NoMemory>
    ensures { OnOk result (names.new ≡ bound_suite (bound_suite names.old suite.now) other.now) }
{
    bind_suite(names, suite)?;
    bind_suite(names, other)
}

/// Puts the names that a suite and clauses bind behind the others.
#[cycle(bind)]
fn bind_tried(names: &mut NameSet, suite: &StmtList, clauses: &ClauseList) -> Result<(), NoMemory>
    ensures { OnOk result (names.new ≡ bound_tried names.old suite.now clauses.now) }
{
    bind_suite(names, suite)?;
    for clause in clauses.as_slice() {
        bind_target(names, &clause.target)?;
        bind_suite(names, &clause.suite)?;
    }
    Ok(())
}

/// Puts a name that there may be, and those that a suite binds, behind the others.
#[cycle(bind)]
fn bind_managed(
    names: &mut NameSet,
    target: &Option<PyText>,
    suite: &StmtList,
) -> Result<(), NoMemory>
    ensures { OnOk result (names.new ≡ bound_suite (bound_if names.old target.now) suite.now) }
{
    bind_target(names, target)?;
    bind_suite(names, suite)
}

/// Puts a name that there may be behind the others, unless it is one of them.
fn bind_target(names: &mut NameSet, target: &Option<PyText>) -> Result<(), NoMemory>
    ensures { OnOk result (names.new ≡ bound_if names.old target.now) }
{
    match target {
        None => Ok(()),
        Some(name) => bind(names, name),
    }
}
