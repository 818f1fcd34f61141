//! The code of expressions.

ghost use Rattle.std.specs.Prelude.{◌≡◌, ◌+◌, ◌≤◌, true, IfOk, OnOk};
ghost use Rattle.py_check.specs.Constants.{is_earlier};
ghost use Rattle.py_code.specs.declared.instruction.Instruction.TheVariants.{LoadConst};
ghost use Rattle.py_tree.specs.Tree.{Operate};
ghost use Rattle.py_tree.specs.ExprViews.{expr_of, exprs_of};
ghost use Rattle.py_tree.specs.Compilable.{AllFit, EachFits};
ghost use Rattle.py_body.specs.Puts.{CountsCallee, HoldsExpr, HoldsOperands, PutsAtom, PutsCallee, PutsConst, PutsExpr, PutsExprs};

use crate::emitter::Emitter;
use crate::scope::Site;
use py_code::{BuiltinFn, Instruction, Literal, NoMemory};
use py_laid::{argument_of, callee_of, coding_of, instruction_of};
use py_tree::{Atom, Expr, ExprList, Operator};

impl Emitter {
    /// Adds the load of an atom.
    pub fn compile_atom(&mut self, atom: &Atom, at: &Site<'_>, above: u32) -> Result<(), NoMemory>
        requires low { self.old.others ≤ 3 }
        requires depth { at.now.scope.now.depth + above ≤ 65535 }
        ensures code { OnOk result (PutsAtom self.old self.new at.now above atom.now) }
        ensures widths { (self.new.labels ≡ self.old.labels) × (self.new.others ≡ self.old.others) }
    {
        match atom {
            Atom::None => self.load_literal(Literal::None, at, above),
            Atom::Bool(truth) => self.load_literal(Literal::Bool(*truth), at, above),
            Atom::Int(number) => self.load_literal(Literal::Int(*number), at, above),
            Atom::Str(text) => {
                let text = text.copy(self.alloc)?;
                self.load_literal(Literal::Str(text), at, above)
            }
            Atom::Name(name) => self.put_load(name, at, above),
        }
    }

    /// Adds the load of a constant.
    fn load_literal(&mut self, literal: Literal, at: &Site<'_>, above: u32) -> Result<(), NoMemory>
        requires no_code { is_earlier 0 literal ≡ true }
        requires low { self.old.others ≤ 3 }
        requires depth { at.now.scope.now.depth + above ≤ 65535 }
        ensures code { OnOk result (PutsConst self.old self.new at.now above LoadConst literal) }
        ensures widths { (self.new.labels ≡ self.old.labels) × (self.new.others ≡ self.old.others) }
    {
        self.put_const(Instruction::LoadConst, literal, at, above)
    }

    /// Adds the load of the function of the machine's own that an operator may call, and says how many values lie above then.
    fn put_callee(
        &mut self,
        callee: Option<BuiltinFn>,
        at: &Site<'_>,
        above: u32,
    ) -> Result<u32, NoMemory>
        requires low { self.old.others ≤ 3 }
        requires depth { at.now.scope.now.depth + above ≤ 65535 }
        ensures code { OnOk result (PutsCallee self.old self.new at.now above callee) }
        ensures above { IfOk result (CountsCallee at.now above callee) }
        ensures widths { (self.new.labels ≡ self.old.labels) × (self.new.others ≡ self.old.others) }
    {
        match callee {
            None => Ok(above),
            Some(function) => {
                self.load_literal(Literal::Builtin(function), at, above)?;
                Ok(above + 1)
            }
        }
    }

    /// Adds operands in order, above so many values.
    #[cycle(express)]
    fn compile_operands(
        &mut self,
        operands: &ExprList,
        at: &Site<'_>,
        above: u32,
    ) -> Result<(), NoMemory>
        requires fits { AllFit at.now.scope.now.kind (exprs_of operands.now) }
        requires low { self.old.others ≤ 3 }
        requires depth { HoldsOperands at.now above (exprs_of operands.now) }
        ensures code { OnOk result (PutsExprs self.old self.new at.now above (exprs_of operands.now)) }
        ensures widths { (self.new.labels ≡ self.old.labels) × (self.new.others ≡ self.old.others) }
    {
        let mut now = above;
        for operand in operands.as_slice() {
            self.compile_expr(operand, at, now)?;
            now += 1;
        }
        Ok(())
    }

    /// Adds an operator with its operands, above so many values.
    #[cycle(express)]
    pub fn compile_operation(
        &mut self,
        operator: Operator,
        operands: &ExprList,
        at: &Site<'_>,
        above: u32,
    ) -> Result<(), NoMemory>
        requires fits { EachFits at.now.scope.now.kind (Operate operator (exprs_of operands.now)) }
        requires low { self.old.others ≤ 3 }
        requires depth { HoldsExpr at.now above (Operate operator (exprs_of operands.now)) }
        ensures code { OnOk result (PutsExpr self.old self.new at.now above (Operate operator (exprs_of operands.now))) }
        ensures widths { (self.new.labels ≡ self.old.labels) × (self.new.others ≡ self.old.others) }
    {
        let coding = coding_of(operator);
        let under = self.put_callee(callee_of(coding), at, above)?;
        self.compile_operands(operands, at, under)?;
        let count = operands.as_slice().len() as u32;
        let arg = argument_of(coding, count);
        self.put_plain(instruction_of(coding), arg, at, under + count)
    }

    /// Adds an expression, above so many values.
    #[cycle(express)]
    pub fn compile_expr(&mut self, expr: &Expr, at: &Site<'_>, above: u32) -> Result<(), NoMemory>
        requires fits { EachFits at.now.scope.now.kind (expr_of expr.now) }
        requires low { self.old.others ≤ 3 }
        requires depth { HoldsExpr at.now above (expr_of expr.now) }
        ensures code { OnOk result (PutsExpr self.old self.new at.now above (expr_of expr.now)) }
        ensures widths { (self.new.labels ≡ self.old.labels) × (self.new.others ≡ self.old.others) }
    {
        match expr {
            Expr::Atom(atom) => self.compile_atom(atom, at, above),
            Expr::Operation(operator, operands) => {
                self.compile_operation(*operator, operands, at, above)
            }
        }
    }
}
