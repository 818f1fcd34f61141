//! The code of statements with suites.

ghost use Rattle.std.specs.Prelude.{◌≡◌, ◌+◌, ◌≤◌, false, true, OnOk};
ghost use Rattle.py_code.specs.Units.{is_prefix};
ghost use Rattle.py_tree.specs.ExprViews.{expr_of};
ghost use Rattle.py_tree.specs.Views.{form_of, suite_of};
ghost use Rattle.py_tree.specs.Compilable.{ExprFits, FormNests, SuiteFits, parts, SuiteNests, statements, statements_in};
ghost use Rattle.py_body.specs.Emitting.{scope_of, FormIn, SuiteIn};
ghost use Rattle.py_body.specs.Puts.{scope_at, label_behind, stop_label, failed_label, loop_at, PutsForm, PutsIfElse, PutsWhile, PutsSuite, PutsBranch};

use crate::emitter::Emitter;
use crate::scope::{Labels, Scope, Site, in_loop};
use crate::sizes::{size_of_expr, size_of_suite};
use py_code::{Instruction, NoMemory, RaiseKind};
use py_tree::{Expr, StmtForm, StmtList};

/// What belongs to a loop.
#[derive(Drop)]
struct Rounds {
    /// The scope inside.
    inner: Scope,
    labels: Labels,
    /// The label where it goes on when its test has failed.
    end: u32,
}

impl Emitter {
    /// Adds statements in order.
    #[cycle(compile)]
    pub fn compile_suite(&mut self, suite: &StmtList, scope: &Scope) -> Result<(), NoMemory>
        requires few { statements (suite_of suite.now) ≤ 1048576 }
        requires fits { SuiteIn (scope_of scope.now) (suite_of suite.now) }
        requires nests { SuiteNests scope.now.depth (suite_of suite.now) }
        requires low { (self.old.labels ≤ 3) × (self.old.others ≤ 3) }
        requires depth { scope.now.depth ≤ 1000 }
        ensures code { OnOk result (PutsSuite self.old self.new scope.now suite.now) }
        ensures widths { (self.new.labels ≡ self.old.labels) × (self.new.others ≡ self.old.others) }
    {
        for stmt in suite.as_slice() {
            let at = Site {
                scope,
                line: stmt.line,
            };
            self.compile_form(&stmt.form, &at)?;
        }
        Ok(())
    }

    /// Adds a statement of a line.
    #[cycle(compile)]
    fn compile_form(&mut self, form: &StmtForm, at: &Site<'_>) -> Result<(), NoMemory>
        requires few { statements_in (form_of form.now) ≤ 1048576 }
        requires fits { FormIn (scope_at at.now) (form_of form.now) }
        requires nests { FormNests at.now.scope.now.depth (form_of form.now) }
        requires low { (self.old.labels ≤ 3) × (self.old.others ≤ 3) }
        requires depth { at.now.scope.now.depth ≤ 1000 }
        ensures code { OnOk result (PutsForm self.old self.new at.now (form_of form.now)) }
        ensures widths { (self.new.labels ≡ self.old.labels) × (self.new.others ≡ self.old.others) }
    {
        match form {
            StmtForm::Assign(name, expr) => self.compile_assign(name, expr, at),
            StmtForm::Do(operator, operands) => self.compile_do(*operator, operands, at),
            StmtForm::Show(expr) => { self.compile_taken(expr, Instruction::PrintExpr, 0, at) }
            StmtForm::Return(expr) => { self.compile_taken(expr, Instruction::ReturnValue, 0, at) }
            StmtForm::Raise(expr) => {
                self.compile_taken(expr, Instruction::Raise, RaiseKind::Raise.into(), at)
            }
            StmtForm::Reraise => self.compile_reraise(at),
            StmtForm::Break => self.compile_break(at),
            StmtForm::Continue => self.compile_continue(at),
            StmtForm::Pass => Ok(()),
            StmtForm::If(expr, suite) => {
                self.compile_branch(expr, Instruction::JumpIfFalse, suite, at)
            }
            StmtForm::IfElse(expr, suite, other) => { self.compile_if_else(expr, suite, other, at) }
            StmtForm::While(expr, suite) => self.compile_while(expr, suite, at),
            StmtForm::TryExcept(suite, clauses) => { self.compile_try_except(suite, clauses, at) }
            StmtForm::TryFinally(suite, last) => { self.compile_try_finally(suite, last, at) }
            StmtForm::With(expr, target, suite) => { self.compile_with(expr, target, suite, at) }
        }
    }

    /// Adds an expression, the instruction that jumps by its value, and the suite over which that leads.
    #[cycle(compile)]
    fn compile_branch(
        &mut self,
        expr: &Expr,
        op: Instruction,
        suite: &StmtList,
        at: &Site<'_>,
    ) -> Result<(), NoMemory>
        requires plain { is_prefix op ≡ false }
        requires few { parts (expr_of expr.now) + statements (suite_of suite.now) ≤ 1048575 }
        requires fits_value { ExprFits at.now.scope.now.kind (expr_of expr.now) }
        requires fits { SuiteIn (scope_at at.now) (suite_of suite.now) }
        requires nests { SuiteNests at.now.scope.now.depth (suite_of suite.now) }
        requires low { (self.old.labels ≤ 3) × (self.old.others ≤ 3) }
        requires depth { at.now.scope.now.depth ≤ 1000 }
        ensures code { OnOk result (PutsBranch self.old self.new at.now (expr_of expr.now) op suite.now) }
        ensures widths { (self.new.labels ≡ self.old.labels) × (self.new.others ≡ self.old.others) }
    {
        let weights = self.weights();
        let size = size_of_suite(weights, suite);
        let value = size_of_expr(weights, expr);
        let behind = self.label(value + weights.jump + size);
        self.compile_expr(expr, at, 0)?;
        self.put_jump(op, behind, at, 1)?;
        self.compile_suite(suite, at.scope)
    }

    /// Adds `if a` and two suites: the second is jumped to where its value is false, and jumped over behind the first.
    #[cycle(compile)]
    fn compile_if_else(
        &mut self,
        expr: &Expr,
        suite: &StmtList,
        other: &StmtList,
        at: &Site<'_>,
    ) -> Result<(), NoMemory>
        requires few { parts (expr_of expr.now) + statements (suite_of suite.now) + statements (suite_of other.now) ≤ 1048575 }
        requires fits_value { ExprFits at.now.scope.now.kind (expr_of expr.now) }
        requires fits { SuiteIn (scope_at at.now) (suite_of suite.now) }
        requires nests { SuiteNests at.now.scope.now.depth (suite_of suite.now) }
        requires fits_other { SuiteIn (scope_at at.now) (suite_of other.now) }
        requires nests_other { SuiteNests at.now.scope.now.depth (suite_of other.now) }
        requires low { (self.old.labels ≤ 3) × (self.old.others ≤ 3) }
        requires depth { at.now.scope.now.depth ≤ 1000 }
        ensures code { OnOk result (PutsIfElse self.old self.new at.now (expr_of expr.now) suite.now other.now) }
        ensures widths { (self.new.labels ≡ self.old.labels) × (self.new.others ≡ self.old.others) }
    {
        let weights = self.weights();
        let size = size_of_suite(weights, suite);
        let size_other = size_of_suite(weights, other);
        let value = size_of_expr(weights, expr);
        let before = value + weights.jump + size + weights.jump;
        let second = self.label(before);
        let behind = self.label(before + size_other);
        self.compile_expr(expr, at, 0)?;
        self.put_jump(Instruction::JumpIfFalse, second, at, 1)?;
        self.compile_suite(suite, at.scope)?;
        self.put_jump(Instruction::Jump, behind, at, 0)?;
        self.compile_suite(other, at.scope)
    }

    /// Adds `while a` and its suite.
    #[cycle(compile)]
    fn compile_while(
        &mut self,
        expr: &Expr,
        suite: &StmtList,
        at: &Site<'_>,
    ) -> Result<(), NoMemory>
        requires few { parts (expr_of expr.now) + statements (suite_of suite.now) ≤ 1048575 }
        requires fits_value { ExprFits at.now.scope.now.kind (expr_of expr.now) }
        requires fits { SuiteFits at.now.scope.now.kind true (suite_of suite.now) }
        requires nests { SuiteNests at.now.scope.now.depth (suite_of suite.now) }
        requires low { (self.old.labels ≤ 3) × (self.old.others ≤ 3) }
        requires depth { at.now.scope.now.depth ≤ 1000 }
        ensures code { OnOk result (PutsWhile self.old self.new at.now (expr_of expr.now) suite.now) }
        ensures widths { (self.new.labels ≡ self.old.labels) × (self.new.others ≡ self.old.others) }
    {
        let weights = self.weights();
        let size = size_of_suite(weights, suite);
        let value = size_of_expr(weights, expr);
        let before = weights.plain + value + weights.jump + size + weights.jump;
        let labels = Labels {
            stop: self.label(before + weights.plain),
            again: self.label(weights.plain),
        };
        let end = self.label(before);
        let inner = in_loop(self.alloc, at.scope, labels)?;
        let rounds = Rounds { inner, labels, end };
        self.compile_rounds(expr, suite, at, &rounds)
    }

    /// Adds the same, where what belongs to the loop is given: the test stands after the set-up, and is jumped back to from the
    /// end of the suite.
    #[cycle(compile)]
    fn compile_rounds(
        &mut self,
        expr: &Expr,
        suite: &StmtList,
        at: &Site<'_>,
        rounds: &Rounds,
    ) -> Result<(), NoMemory>
        requires few { parts (expr_of expr.now) + statements (suite_of suite.now) ≤ 1048575 }
        requires fits_value { ExprFits at.now.scope.now.kind (expr_of expr.now) }
        requires fits { SuiteFits at.now.scope.now.kind true (suite_of suite.now) }
        requires nests { SuiteNests at.now.scope.now.depth (suite_of suite.now) }
        requires low { (self.old.labels ≤ 3) × (self.old.others ≤ 3) }
        requires depth { at.now.scope.now.depth ≤ 1000 }
        requires inner { scope_of rounds.now.inner ≡ loop_at at.now rounds.now.labels }
        requires again { rounds.now.labels.again ≡ label_behind self.old (λ w. w.plain) }
        requires stop { rounds.now.labels.stop ≡ stop_label self.old (expr_of expr.now) suite.now }
        requires end { rounds.now.end ≡ failed_label self.old (expr_of expr.now) suite.now }
        ensures code { OnOk result (PutsWhile self.old self.new at.now (expr_of expr.now) suite.now) }
        ensures widths { (self.new.labels ≡ self.old.labels) × (self.new.others ≡ self.old.others) }
    {
        self.put_plain(Instruction::SetupLoop, 0, at, 0)?;
        let inside = Site {
            scope: &rounds.inner,
            line: at.line,
        };
        self.compile_expr(expr, &inside, 0)?;
        self.put_jump(Instruction::JumpIfFalse, rounds.end, &inside, 1)?;
        self.compile_suite(suite, &rounds.inner)?;
        self.put_jump(Instruction::Jump, rounds.labels.again, &inside, 0)?;
        self.put_plain(Instruction::PopBlock, 0, &inside, 0)
    }
}
