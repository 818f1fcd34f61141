//! Statements, each with the line that it stands in.

ghost use Rattle.std.specs.Prelude.{◌≡◌, OnOk, OnErr, option_copied, option_map};
ghost use Rattle.py_tree.specs.Tree.{no_more, nothing};
ghost use Rattle.py_tree.specs.Views.{clauses_of, suite_of};
ghost use Rattle.py_tree.specs.Suites.{clauses_item, clauses_length, handler_of, line_of, list_clauses, list_suite, suite_item, suite_length, clauses_with, suite_with};

use crate::expr::{Expr, ExprList, Operator};
use py_code::{NoMemory, PyText};
use std::alloc::Global;

/// A statement with its line, from 1.
#[derive(Drop)]
#[cycle(tree)]
pub struct Stmt {
    pub line: u32,
    pub form: StmtForm,
}

/// What a statement says, a variant a line of the grammar.
#[derive(Drop)]
#[cycle(tree)]
pub enum StmtForm {
    /// `x = e`: a value is bound to a name.
    Assign(PyText, Expr),
    /// `do (op e ..)`: the operator's value is dropped.
    Do(Operator, ExprList),
    /// `show e`.
    Show(Expr),
    /// `return e`.
    Return(Expr),
    /// `raise e`.
    Raise(Expr),
    /// `reraise`: the exception that is handled is raised again.
    Reraise,
    /// `break`: the innermost loop ends.
    Break,
    /// `continue`: the innermost loop goes on with its test.
    Continue,
    /// `pass`, which does nothing.
    Pass,
    /// `if e`, its suite, `end`.
    If(Expr, StmtList),
    /// `if e`, its suite, `else`, the other suite, `end`.
    IfElse(Expr, StmtList, StmtList),
    /// `while e`, its suite, `end`.
    While(Expr, StmtList),
    /// `try`, its suite, the clauses, `end`.
    TryExcept(StmtList, ClauseList),
    /// `try`, its suite, `finally`, the other suite, `end`.
    TryFinally(StmtList, StmtList),
    /// `with e` or `with e as x`, its suite, `end`: the name is what the manager's entry gives, if it has one.
    With(Expr, Option<PyText>, StmtList),
}

/// `except C` or `except C as x`, and its suite: what a `try` does with an exception of the class.
#[derive(Drop)]
#[cycle(tree)]
pub struct Clause {
    pub line: u32,
    pub class: PyText,
    /// The name that the exception is bound to inside of the clause.
    pub target: Option<PyText>,
    pub suite: StmtList,
}

/// Statements in order.
#[derive(Drop)]
#[cycle(tree)]
pub struct StmtList {
    items: Vec<Stmt>,
}

/// Clauses in order.
#[derive(Drop)]
#[cycle(tree)]
pub struct ClauseList {
    items: Vec<Clause>,
}

impl StmtList {
    /// No statements, which takes no memory.
    #[tactic(auto, using(crate::proofs::Trees::suite_roll))]
    pub fn new(alloc: Global) -> StmtList
        ensures { suite_of result ≡ nothing }
    {
        StmtList {
            items: Vec::new(alloc),
        }
    }

    /// The statements.
    #[tactic(auto, using(crate::proofs::Trees::suite_out))]
    pub fn as_slice(&self) -> &[Stmt]
        ensures { suite_of self.now ≡ list_suite result.now }
    {
        self.items.as_slice()
    }

    /// How many statements there are, apart from those inside of others.
    #[tactic(auto, using(crate::proofs::Trees::suite_out, crate::proofs::Trees::length_of_suite))]
    pub fn len(&self) -> usize
        ensures { result ≡ suite_length (suite_of self.now) }
    {
        self.items.len()
    }

    /// The statement at a place, from 0.
    #[tactic(auto, using(crate::proofs::Trees::suite_out, crate::proofs::Trees::item_of_suite))]
    pub fn get(&self, at: usize) -> Option<&Stmt>
        ensures { option_map line_of (option_copied result) ≡ suite_item (suite_of self.now) at }
    {
        self.items.get(at)
    }

    /// Puts a statement behind the others.
    #[tactic(auto, using(crate::proofs::Trees::suite_roll, crate::proofs::Trees::suite_out, crate::proofs::Trees::list_suite_append))]
    pub fn push(&mut self, stmt: Stmt) -> Result<(), NoMemory>
        ensures added { OnOk result (suite_of self.new ≡ suite_with (suite_of self.old) stmt) }
        ensures err { OnErr result (suite_of self.new ≡ suite_of self.old) }
    {
        self.items.push(stmt)?;
        Ok(())
    }
}

impl ClauseList {
    /// No clauses, which takes no memory.
    #[tactic(auto, using(crate::proofs::Trees::clauses_roll))]
    pub fn new(alloc: Global) -> ClauseList
        ensures { clauses_of result ≡ no_more }
    {
        ClauseList {
            items: Vec::new(alloc),
        }
    }

    /// The clauses.
    #[tactic(auto, using(crate::proofs::Trees::clauses_out))]
    pub fn as_slice(&self) -> &[Clause]
        ensures { clauses_of self.now ≡ list_clauses result.now }
    {
        self.items.as_slice()
    }

    /// How many clauses there are.
    #[tactic(auto, using(crate::proofs::Trees::clauses_out, crate::proofs::Trees::length_of_clauses))]
    pub fn len(&self) -> usize
        ensures { result ≡ clauses_length (clauses_of self.now) }
    {
        self.items.len()
    }

    /// The clause at a place, from 0.
    #[tactic(auto, using(crate::proofs::Trees::clauses_out, crate::proofs::Trees::item_of_clauses))]
    pub fn get(&self, at: usize) -> Option<&Clause>
        ensures { option_map handler_of (option_copied result) ≡ clauses_item (clauses_of self.now) at }
    {
        self.items.get(at)
    }

    /// Puts a clause behind the others.
    #[tactic(auto, using(crate::proofs::Trees::clauses_roll, crate::proofs::Trees::clauses_out, crate::proofs::Trees::list_clauses_append))]
    pub fn push(&mut self, clause: Clause) -> Result<(), NoMemory>
        ensures added { OnOk result (clauses_of self.new ≡ clauses_with (clauses_of self.old) clause) }
        ensures err { OnErr result (clauses_of self.new ≡ clauses_of self.old) }
    {
        self.items.push(clause)?;
        Ok(())
    }
}
