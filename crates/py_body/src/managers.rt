//! The code of managers: of `with`.

ghost use Rattle.std.specs.Prelude.{◌≡◌, ◌+◌, ◌≤◌, ◌<◌, suc, OnOk};
ghost use Rattle.py_laid.specs.Code.{on};
ghost use Rattle.py_tree.specs.ExprViews.{expr_of};
ghost use Rattle.py_tree.specs.Views.{suite_of};
ghost use Rattle.py_tree.specs.Compilable.{ExprFits, parts, SuiteNests, statements};
ghost use Rattle.py_body.specs.Emitting.{scope_of, SuiteIn};
ghost use Rattle.py_body.specs.Puts.{scope_at, exit_label, FitsSomewhere, PutsWith, PutsManaged};

use crate::emitter::Emitter;
use crate::scope::{Scope, Site, before_finally, in_finally, with_value};
use crate::sizes::{size_of_expr, size_of_suite, size_of_target};
use py_code::{Instruction, NoMemory, PyText};
use py_tree::{Expr, StmtList};

/// What belongs to a manager.
#[derive(Clone, Copy)]
pub struct Managed<'a> {
    /// The expression that gives it.
    expr: &'a Expr,
    /// The name that its entry is bound to, if there is one.
    target: &'a Option<PyText>,
    /// The scope with the manager on the stack.
    inner: &'a Scope,
    /// The label of its exit.
    handler: u32,
}

impl Emitter {
    /// Adds `with a` or `with a as x`, and its suite.
    #[cycle(compile)]
    pub fn compile_with(
        &mut self,
        expr: &Expr,
        target: &Option<PyText>,
        suite: &StmtList,
        at: &Site<'_>,
    ) -> Result<(), NoMemory>
        requires few { parts (expr_of expr.now) + statements (suite_of suite.now) ≤ 1048575 }
        requires fits_value { ExprFits at.now.scope.now.kind (expr_of expr.now) }
        requires fits { SuiteIn (scope_at at.now) (suite_of suite.now) }
        requires room { at.now.scope.now.depth < 64 }
        requires nests { SuiteNests (suc at.now.scope.now.depth) (suite_of suite.now) }
        requires low { (self.old.labels ≤ 3) × (self.old.others ≤ 3) }
        ensures code { OnOk result (PutsWith self.old self.new at.now (expr_of expr.now) target.now suite.now) }
        ensures widths { (self.new.labels ≡ self.old.labels) × (self.new.others ≡ self.old.others) }
    {
        let handler = self.exit_label(expr, target, suite);
        let inner = with_value(at.scope)?;
        let managed = Managed {
            expr,
            target,
            inner: &inner,
            handler,
        };
        self.compile_managed(suite, at, &managed)?;
        let within = in_finally(self.alloc, &inner)?;
        let inside = Site {
            scope: &within,
            line: at.line,
        };
        self.put_plain(Instruction::WithCleanupStart, 0, &inside, 0)?;
        self.put_plain(Instruction::WithCleanupFinish, 0, &inside, 1)
    }

    /// The label of the exit of a with of this suite, which begins here.
    fn exit_label(&self, expr: &Expr, target: &Option<PyText>, suite: &StmtList) -> u32
        requires few { parts (expr_of expr.now) + statements (suite_of suite.now) ≤ 1048575 }
        requires fits { FitsSomewhere suite.now }
        requires low { (self.now.labels ≤ 3) × (self.now.others ≤ 3) }
        ensures { result ≡ exit_label self.now (expr_of expr.now) target.now suite.now }
    {
        let weights = self.weights();
        let size = size_of_suite(weights, suite);
        let binds = size_of_target(weights, target);
        let value = size_of_expr(weights, expr);
        self.label(value + weights.jump + binds + size + weights.plain + weights.plain)
    }

    /// Adds a with up to its exit, where what belongs to its manager is given.
    #[cycle(compile)]
    fn compile_managed(
        &mut self,
        suite: &StmtList,
        at: &Site<'_>,
        managed: &Managed<'_>,
    ) -> Result<(), NoMemory>
        requires few { parts (expr_of managed.now.expr.now) + statements (suite_of suite.now) ≤ 1048575 }
        requires fits_value { ExprFits at.now.scope.now.kind (expr_of managed.now.expr.now) }
        requires fits { SuiteIn (scope_at at.now) (suite_of suite.now) }
        requires room { at.now.scope.now.depth < 64 }
        requires nests { SuiteNests (suc at.now.scope.now.depth) (suite_of suite.now) }
        requires inner { scope_of managed.now.inner.now ≡ on (scope_at at.now) }
        requires low { (self.old.labels ≤ 3) × (self.old.others ≤ 3) }
        ensures code { OnOk result (PutsManaged self.old self.new at.now managed.now suite.now) }
        ensures widths { (self.new.labels ≡ self.old.labels) × (self.new.others ≡ self.old.others) }
    {
        self.compile_expr(managed.expr, at, 0)?;
        self.put_jump(Instruction::SetupWith, managed.handler, at, 1)?;
        let before = before_finally(self.alloc, managed.inner, managed.handler)?;
        let inside = Site {
            scope: &before,
            line: at.line,
        };
        self.put_target(managed.target, &inside)?;
        self.compile_suite(suite, &before)?;
        self.put_plain(Instruction::PopBlock, 0, &inside, 0)?;
        self.put_plain(Instruction::EnterFinally, 0, at, 1)
    }
}
