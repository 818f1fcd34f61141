//! The code of tries: with a finally, and with clauses.

ghost use Rattle.std.specs.Prelude.{◌≡◌, ◌+◌, ◌≤◌, OnOk};
ghost use Rattle.py_laid.specs.Code.{in_clauses};
ghost use Rattle.py_tree.specs.Views.{clauses_of, suite_of};
ghost use Rattle.py_tree.specs.Compilable.{ClausesNest, SuiteNests, statements, statements_under};
ghost use Rattle.py_body.specs.Emitting.{scope_of, ClausesIn, SuiteIn};
ghost use Rattle.py_body.specs.Puts.{scope_at, statements_tried, finally_label, clause_label, FitsSomewhere, PutsTryFinally, PutsTryExcept, PutsOpening, PutsTried, PutsMatch, PutsTarget, PutsForget, PutsForgetting, PutsHandler, PutsClauses};

use crate::emitter::Emitter;
use crate::scope::{Scope, Site, before_finally, in_clauses, in_finally, in_try};
use crate::sizes::{size_of_clause, size_of_clauses, size_of_suite};
use py_code::{Instruction, Literal, NoMemory, PyText, RaiseKind, TestOperator};
use py_tree::{ClauseList, StmtList};

impl Emitter {
    /// Adds a try with a finally.
    #[cycle(compile)]
    pub fn compile_try_finally(
        &mut self,
        suite: &StmtList,
        last: &StmtList,
        at: &Site<'_>,
    ) -> Result<(), NoMemory>
        requires few { statements (suite_of suite.now) + statements (suite_of last.now) ≤ 1048575 }
        requires fits { SuiteIn (scope_at at.now) (suite_of suite.now) }
        requires nests { SuiteNests at.now.scope.now.depth (suite_of suite.now) }
        requires fits_last { SuiteIn (scope_at at.now) (suite_of last.now) }
        requires nests_last { SuiteNests at.now.scope.now.depth (suite_of last.now) }
        requires low { (self.old.labels ≤ 3) × (self.old.others ≤ 3) }
        requires depth { at.now.scope.now.depth ≤ 1000 }
        ensures code { OnOk result (PutsTryFinally self.old self.new at.now suite.now last.now) }
        ensures widths { (self.new.labels ≡ self.old.labels) × (self.new.others ≡ self.old.others) }
    {
        let handler = self.handler_label(suite);
        self.compile_opening(suite, at, handler)?;
        let within = in_finally(self.alloc, at.scope)?;
        let inside = Site {
            scope: &within,
            line: at.line,
        };
        self.compile_suite(last, &within)?;
        self.put_plain(Instruction::EndFinally, 0, &inside, 0)
    }

    /// The label of the finally of a try with this suite, which begins here.
    fn handler_label(&self, suite: &StmtList) -> u32
        requires few { statements (suite_of suite.now) ≤ 1048575 }
        requires fits { FitsSomewhere suite.now }
        requires low { (self.now.labels ≤ 3) × (self.now.others ≤ 3) }
        ensures { result ≡ finally_label self.now suite.now }
    {
        let weights = self.weights();
        let size = size_of_suite(weights, suite);
        self.label(weights.jump + size + weights.plain + weights.plain)
    }

    /// Adds a try with a finally, up to the finally, whose label is given.
    #[cycle(compile)]
    fn compile_opening(
        &mut self,
        suite: &StmtList,
        at: &Site<'_>,
        handler: u32,
    ) -> Result<(), NoMemory>
        requires few { statements (suite_of suite.now) ≤ 1048575 }
        requires fits { SuiteIn (scope_at at.now) (suite_of suite.now) }
        requires nests { SuiteNests at.now.scope.now.depth (suite_of suite.now) }
        requires low { (self.old.labels ≤ 3) × (self.old.others ≤ 3) }
        requires depth { at.now.scope.now.depth ≤ 1000 }
        ensures code { OnOk result (PutsOpening self.old self.new at.now suite.now handler) }
        ensures widths { (self.new.labels ≡ self.old.labels) × (self.new.others ≡ self.old.others) }
    {
        self.put_jump(Instruction::SetupFinally, handler, at, 0)?;
        let before = before_finally(self.alloc, at.scope, handler)?;
        let inside = Site {
            scope: &before,
            line: at.line,
        };
        self.compile_suite(suite, &before)?;
        self.put_plain(Instruction::PopBlock, 0, &inside, 0)?;
        self.put_plain(Instruction::EnterFinally, 0, at, 0)
    }

    /// Adds what unsets a local, whether it was set or not.
    fn put_forget(&mut self, name: &PyText, at: &Site<'_>) -> Result<(), NoMemory>
        requires low { (self.old.labels ≤ 3) × (self.old.others ≤ 3) }
        requires depth { at.now.scope.now.depth ≤ 1000 }
        ensures code { OnOk result (PutsForget self.old self.new at.now name.now) }
        ensures widths { (self.new.labels ≡ self.old.labels) × (self.new.others ≡ self.old.others) }
    {
        self.put_const(Instruction::LoadConst, Literal::None, at, 0)?;
        self.put_local(Instruction::StoreFast, name, at, 1)?;
        self.put_local(Instruction::DeleteFast, name, at, 0)?;
        Ok(())
    }

    /// Adds a try with clauses.
    #[cycle(compile)]
    pub fn compile_try_except(
        &mut self,
        suite: &StmtList,
        clauses: &ClauseList,
        at: &Site<'_>,
    ) -> Result<(), NoMemory>
        requires few { statements_tried suite.now clauses.now ≤ 1048575 }
        requires fits { SuiteIn (scope_at at.now) (suite_of suite.now) }
        requires nests { SuiteNests at.now.scope.now.depth (suite_of suite.now) }
        requires fits_clauses { ClausesIn (scope_at at.now) (clauses_of clauses.now) }
        requires nests_clauses { ClausesNest at.now.scope.now.depth (clauses_of clauses.now) }
        requires low { (self.old.labels ≤ 3) × (self.old.others ≤ 3) }
        requires depth { at.now.scope.now.depth ≤ 1000 }
        ensures code { OnOk result (PutsTryExcept self.old self.new at.now suite.now clauses.now) }
        ensures widths { (self.new.labels ≡ self.old.labels) × (self.new.others ≡ self.old.others) }
    {
        let weights = self.weights();
        let size = size_of_suite(weights, suite);
        let size_clauses = size_of_clauses(weights, clauses);
        let before = weights.jump + size + weights.plain + weights.jump;
        let handler = self.label(before);
        let end = self.label(before + size_clauses + weights.plain);
        self.compile_tried(suite, at, handler, end)?;
        let within = in_clauses(self.alloc, at.scope)?;
        let inside = Site {
            scope: &within,
            line: at.line,
        };
        self.compile_clauses(clauses, at.scope, &within, end)?;
        self.put_raise(RaiseKind::Reraise, &inside, 1)
    }

    /// Adds the body of a try with clauses, which are jumped over from its end.
    #[cycle(compile)]
    fn compile_tried(
        &mut self,
        suite: &StmtList,
        at: &Site<'_>,
        handler: u32,
        end: u32,
    ) -> Result<(), NoMemory>
        requires few { statements (suite_of suite.now) ≤ 1048575 }
        requires fits { SuiteIn (scope_at at.now) (suite_of suite.now) }
        requires nests { SuiteNests at.now.scope.now.depth (suite_of suite.now) }
        requires low { (self.old.labels ≤ 3) × (self.old.others ≤ 3) }
        requires depth { at.now.scope.now.depth ≤ 1000 }
        ensures code { OnOk result (PutsTried self.old self.new at.now suite.now handler end) }
        ensures widths { (self.new.labels ≡ self.old.labels) × (self.new.others ≡ self.old.others) }
    {
        self.put_jump(Instruction::SetupExcept, handler, at, 0)?;
        let inner = in_try(self.alloc, at.scope, handler)?;
        let inside = Site {
            scope: &inner,
            line: at.line,
        };
        self.compile_suite(suite, &inner)?;
        self.put_plain(Instruction::PopBlock, 0, &inside, 0)?;
        self.put_jump(Instruction::Jump, end, at, 0)
    }

    /// Adds clauses, whose suites are left for a label.
    #[cycle(compile)]
    fn compile_clauses(
        &mut self,
        clauses: &ClauseList,
        scope: &Scope,
        within: &Scope,
        end: u32,
    ) -> Result<(), NoMemory>
        requires few { statements_under (clauses_of clauses.now) ≤ 1048575 }
        requires fits { ClausesIn (scope_of scope.now) (clauses_of clauses.now) }
        requires nests { ClausesNest scope.now.depth (clauses_of clauses.now) }
        requires within { scope_of within.now ≡ in_clauses (scope_of scope.now) }
        requires low { (self.old.labels ≤ 3) × (self.old.others ≤ 3) }
        requires depth { scope.now.depth ≤ 1000 }
        ensures code { OnOk result (PutsClauses self.old self.new scope.now end clauses.now) }
        ensures widths { (self.new.labels ≡ self.old.labels) × (self.new.others ≡ self.old.others) }
    {
        for clause in clauses.as_slice() {
            let line = clause.line;
            let at = Site { scope, line };
            let inside = Site {
                scope: within,
                line,
            };
            let other = self.clause_label(&clause.target, &clause.suite);
            self.put_match(&clause.class, &clause.target, &inside, other)?;
            self.compile_handler(&clause.target, &clause.suite, &inside)?;
            self.put_plain(Instruction::PopException, 0, &inside, 0)?;
            self.put_jump(Instruction::Jump, end, &at, 0)?;
        }
        Ok(())
    }

    /// The label behind a clause with this target and suite, which begins here.
    fn clause_label(&self, target: &Option<PyText>, suite: &StmtList) -> u32
        requires few { statements (suite_of suite.now) ≤ 1048574 }
        requires fits { FitsSomewhere suite.now }
        requires low { (self.now.labels ≤ 3) × (self.now.others ≤ 3) }
        ensures { result ≡ clause_label self.now target.now suite.now }
    {
        let weights = self.weights();
        let body = size_of_suite(weights, suite);
        self.label(size_of_clause(weights, target, body))
    }

    /// Adds the test whether a clause matches, from which another label is jumped to where it doesn't, and what binds its name.
    fn put_match(
        &mut self,
        class: &PyText,
        target: &Option<PyText>,
        at: &Site<'_>,
        other: u32,
    ) -> Result<(), NoMemory>
        requires low { (self.old.labels ≤ 3) × (self.old.others ≤ 3) }
        requires depth { at.now.scope.now.depth ≤ 1000 }
        ensures code { OnOk result (PutsMatch self.old self.new at.now class.now target.now other) }
        ensures widths { (self.new.labels ≡ self.old.labels) × (self.new.others ≡ self.old.others) }
    {
        let test = TestOperator::ExceptionMatch;
        self.put_plain(Instruction::Duplicate, 0, at, 1)?;
        self.put_load(class, at, 2)?;
        self.put_plain(Instruction::TestOperation, test.into(), at, 3)?;
        self.put_jump(Instruction::JumpIfFalse, other, at, 2)?;
        self.put_target(target, at)?;
        Ok(())
    }

    /// Adds what binds a value to a name, or drops it.
    pub fn put_target(&mut self, target: &Option<PyText>, at: &Site<'_>) -> Result<(), NoMemory>
        requires low { (self.old.labels ≤ 3) × (self.old.others ≤ 3) }
        requires depth { at.now.scope.now.depth ≤ 1000 }
        ensures code { OnOk result (PutsTarget self.old self.new at.now target.now) }
        ensures widths { (self.new.labels ≡ self.old.labels) × (self.new.others ≡ self.old.others) }
    {
        match target {
            None => self.put_plain(Instruction::Pop, 0, at, 1),
            Some(name) => self.put_local(Instruction::StoreFast, name, at, 1),
        }
    }

    /// Adds the suite of a clause, behind which a name that the clause binds is forgotten.
    #[cycle(compile)]
    fn compile_handler(
        &mut self,
        target: &Option<PyText>,
        suite: &StmtList,
        at: &Site<'_>,
    ) -> Result<(), NoMemory>
        requires few { statements (suite_of suite.now) ≤ 1048574 }
        requires fits { SuiteIn (scope_at at.now) (suite_of suite.now) }
        requires nests { SuiteNests at.now.scope.now.depth (suite_of suite.now) }
        requires low { (self.old.labels ≤ 3) × (self.old.others ≤ 3) }
        requires depth { at.now.scope.now.depth ≤ 1000 }
        ensures code { OnOk result (PutsHandler self.old self.new at.now target.now suite.now) }
        ensures widths { (self.new.labels ≡ self.old.labels) × (self.new.others ≡ self.old.others) }
    {
        match target {
            None => self.compile_suite(suite, at.scope),
            Some(name) => self.compile_forgetting(name, suite, at),
        }
    }

    /// Adds the suite of a clause that binds a name.
    #[cycle(compile)]
    fn compile_forgetting(
        &mut self,
        name: &PyText,
        suite: &StmtList,
        at: &Site<'_>,
    ) -> Result<(), NoMemory>
        requires few { statements (suite_of suite.now) ≤ 1048574 }
        requires fits { SuiteIn (scope_at at.now) (suite_of suite.now) }
        requires nests { SuiteNests at.now.scope.now.depth (suite_of suite.now) }
        requires low { (self.old.labels ≤ 3) × (self.old.others ≤ 3) }
        requires depth { at.now.scope.now.depth ≤ 1000 }
        ensures code { OnOk result (PutsForgetting self.old self.new at.now name.now suite.now) }
        ensures widths { (self.new.labels ≡ self.old.labels) × (self.new.others ≡ self.old.others) }
    {
        let handler = self.handler_label(suite);
        self.compile_opening(suite, at, handler)?;
        let within = in_finally(self.alloc, at.scope)?;
        let inside = Site {
            scope: &within,
            line: at.line,
        };
        self.put_forget(name, &inside)?;
        self.put_plain(Instruction::EndFinally, 0, &inside, 0)
    }
}
