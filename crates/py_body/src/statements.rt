//! The code of statements without suites.

ghost use Rattle.std.specs.Prelude.{◌≡◌, ◌+◌, ◌≤◌, ◌<◌, false, true, OnOk};
ghost use Rattle.py_code.specs.Units.{is_prefix};
ghost use Rattle.py_tree.specs.Tree.{Assign, Break, Continue, Do, Operate, Reraise};
ghost use Rattle.py_tree.specs.ExprViews.{expr_of, exprs_of};
ghost use Rattle.py_tree.specs.Compilable.{ExprFits};
ghost use Rattle.py_body.specs.Emitting.{is_inside};
ghost use Rattle.py_body.specs.Puts.{scope_at, PutsTaken, PutsRaise, PutsForm};

use crate::emitter::Emitter;
use crate::scope::Site;
use py_code::{Instruction, NoMemory, PyText, RaiseKind};
use py_tree::{Expr, ExprList, Operator};

impl Emitter {
    /// Adds `x = e`.
    pub fn compile_assign(
        &mut self,
        name: &PyText,
        expr: &Expr,
        at: &Site<'_>,
    ) -> Result<(), NoMemory>
        requires fits { ExprFits at.now.scope.now.kind (expr_of expr.now) }
        requires low { (self.old.labels ≤ 3) × (self.old.others ≤ 3) }
        requires depth { at.now.scope.now.depth ≤ 1000 }
        ensures code { OnOk result (PutsForm self.old self.new at.now (Assign name.now (expr_of expr.now))) }
        ensures widths { (self.new.labels ≡ self.old.labels) × (self.new.others ≡ self.old.others) }
    {
        self.compile_expr(expr, at, 0)?;
        self.put_local(Instruction::StoreFast, name, at, 1)?;
        Ok(())
    }

    /// Adds `do (op e ..)`.
    pub fn compile_do(
        &mut self,
        operator: Operator,
        operands: &ExprList,
        at: &Site<'_>,
    ) -> Result<(), NoMemory>
        requires fits { ExprFits at.now.scope.now.kind (Operate operator (exprs_of operands.now)) }
        requires low { (self.old.labels ≤ 3) × (self.old.others ≤ 3) }
        requires depth { at.now.scope.now.depth ≤ 1000 }
        ensures code { OnOk result (PutsForm self.old self.new at.now (Do operator (exprs_of operands.now))) }
        ensures widths { (self.new.labels ≡ self.old.labels) × (self.new.others ≡ self.old.others) }
    {
        self.compile_operation(operator, operands, at, 0)?;
        self.put_plain(Instruction::Pop, 0, at, 1)?;
        Ok(())
    }

    /// Adds an expression, and the instruction that takes it.
    pub fn compile_taken(
        &mut self,
        expr: &Expr,
        op: Instruction,
        arg: u32,
        at: &Site<'_>,
    ) -> Result<(), NoMemory>
        requires plain { is_prefix op ≡ false }
        requires small { arg < 256 }
        requires fits { ExprFits at.now.scope.now.kind (expr_of expr.now) }
        requires low { self.old.others ≤ 3 }
        requires depth { at.now.scope.now.depth ≤ 1000 }
        ensures code { OnOk result (PutsTaken self.old self.new at.now (expr_of expr.now) op arg) }
        ensures widths { (self.new.labels ≡ self.old.labels) × (self.new.others ≡ self.old.others) }
    {
        self.compile_expr(expr, at, 0)?;
        self.put_plain(op, arg, at, 1)?;
        Ok(())
    }

    /// Adds `reraise`.
    pub fn compile_reraise(&mut self, at: &Site<'_>) -> Result<(), NoMemory>
        requires low { (self.old.labels ≤ 3) × (self.old.others ≤ 3) }
        requires depth { at.now.scope.now.depth ≤ 1000 }
        ensures code { OnOk result (PutsForm self.old self.new at.now Reraise) }
        ensures widths { (self.new.labels ≡ self.old.labels) × (self.new.others ≡ self.old.others) }
    {
        self.put_raise(RaiseKind::Reraise, at, 0)?;
        Ok(())
    }

    /// Adds what raises an exception that lies on the stack, or the one that is handled.
    pub fn put_raise(&mut self, kind: RaiseKind, at: &Site<'_>, above: u32) -> Result<(), NoMemory>
        requires depth { at.now.scope.now.depth + above ≤ 65535 }
        ensures code { OnOk result (PutsRaise self.old self.new at.now above kind) }
        ensures widths { (self.new.labels ≡ self.old.labels) × (self.new.others ≡ self.old.others) }
    {
        self.put_plain(Instruction::Raise, kind.into(), at, above)
    }

    /// Adds `break`, which stands inside of a loop.
    pub fn compile_break(&mut self, at: &Site<'_>) -> Result<(), NoMemory>
        requires inside { is_inside (scope_at at.now).around ≡ true }
        requires low { (self.old.labels ≤ 3) × (self.old.others ≤ 3) }
        requires depth { at.now.scope.now.depth ≤ 1000 }
        ensures code { OnOk result (PutsForm self.old self.new at.now Break) }
        ensures widths { (self.new.labels ≡ self.old.labels) × (self.new.others ≡ self.old.others) }
    {
        match at.scope.around {
            Some(labels) => self.put_jump(Instruction::Break, labels.stop, at, 0),
            None => unreachable!(),
        }
    }

    /// Adds `continue`, which stands inside of a loop.
    pub fn compile_continue(&mut self, at: &Site<'_>) -> Result<(), NoMemory>
        requires inside { is_inside (scope_at at.now).around ≡ true }
        requires low { (self.old.labels ≤ 3) × (self.old.others ≤ 3) }
        requires depth { at.now.scope.now.depth ≤ 1000 }
        ensures code { OnOk result (PutsForm self.old self.new at.now Continue) }
        ensures widths { (self.new.labels ≡ self.old.labels) × (self.new.others ≡ self.old.others) }
    {
        match at.scope.around {
            Some(labels) => self.put_jump(Instruction::Continue, labels.again, at, 0),
            None => unreachable!(),
        }
    }
}
