//! Expressions: what a line computes a value with.

ghost use Rattle.std.specs.Prelude.{◌≡◌, IfOk, OnOk, OnErr};
ghost use Rattle.py_tree.specs.Tree.{no_operands, operand};
ghost use Rattle.py_tree.specs.ExprViews.{expr_of, exprs_of, list_exprs, with_operand};

use py_code::{NoMemory, PyText};
use std::alloc::Global;

/// A value that a line names without computing it.
#[derive(Drop)]
pub enum Atom {
    /// `None`.
    None,
    /// `True` or `False`.
    Bool(bool),
    /// A whole number.
    Int(i128),
    /// A text.
    Str(PyText),
    /// A name, read as a local or a global.
    Name(PyText),
}

/// An operator (Python Language Reference, 6.2.9, 6.3.4, 6.7 and 6.10).
#[derive(Clone, Copy, Debug, PartialEq, Eq)]
pub enum Operator {
    /// `add a b`: the sum of two numbers, or two texts as one.
    Add,
    /// `sub a b`: the difference of two numbers.
    Sub,
    /// `lt a b`: whether a number is less than another, or a text before another.
    Lt,
    /// `eq a b`: whether two values are equal.
    Eq,
    /// `send a b`: a generator goes on with a value.
    Send,
    /// `throw a b`: an exception is thrown into a generator.
    Throw,
    /// `close a`: a generator is closed.
    Close,
    /// `yield a`: a generator is suspended with a value, and goes on with the one that it is sent.
    Yield,
    /// `call f a ..`: the call of a callee with arguments.
    Call,
}

/// What a value is computed with.
#[derive(Drop)]
#[cycle(expr)]
pub enum Expr {
    /// An atom.
    Atom(Atom),
    /// `(op e ..)`: an operator with its operands, which are evaluated from the left (Python Language Reference, 6.16).
    Operation(Operator, ExprList),
}

/// Expressions in order.
#[derive(Drop)]
#[cycle(expr)]
pub struct ExprList {
    items: Vec<Expr>,
}

impl ExprList {
    /// No expressions, which takes no memory.
    #[tactic(auto, using(crate::proofs::Exprs::exprs_roll))]
    pub fn new(alloc: Global) -> ExprList
        ensures { exprs_of result ≡ no_operands }
    {
        ExprList {
            items: Vec::new(alloc),
        }
    }

    /// One expression.
    pub fn one(alloc: Global, expr: Expr) -> Result<ExprList, NoMemory>
        ensures { IfOk result (λ list. exprs_of list ≡ operand (expr_of expr) no_operands) }
    {
        let mut list = ExprList::new(alloc);
        list.push(expr)?;
        Ok(list)
    }

    /// Two expressions in order.
    pub fn two(alloc: Global, left: Expr, right: Expr) -> Result<ExprList, NoMemory>
        ensures { IfOk result (λ list. exprs_of list ≡ operand (expr_of left) (operand (expr_of right) no_operands)) }
    {
        let mut list = ExprList::new(alloc);
        list.push(left)?;
        list.push(right)?;
        Ok(list)
    }

    /// The expressions.
    #[tactic(auto, using(crate::proofs::Exprs::exprs_out))]
    pub fn as_slice(&self) -> &[Expr]
        ensures { exprs_of self.now ≡ list_exprs result.now }
    {
        self.items.as_slice()
    }

    /// Puts an expression behind the others.
    #[tactic(auto, using(crate::proofs::Exprs::exprs_roll, crate::proofs::Exprs::exprs_out, crate::proofs::Exprs::list_exprs_append))]
    pub fn push(&mut self, expr: Expr) -> Result<(), NoMemory>
        ensures added { OnOk result (exprs_of self.new ≡ with_operand (exprs_of self.old) (expr_of expr)) }
        ensures err { OnErr result (exprs_of self.new ≡ exprs_of self.old) }
    {
        self.items.push(expr)?;
        Ok(())
    }
}
