//! The body that is open while its lines are read, with the blocks that are open in it.
//! A block lies on a stack until its `end`, so that no line walks over what was read before it.

ghost use Rattle.std.specs.Prelude.{◌≡◌, IfOk, option_map};
ghost use Rattle.std.specs.List.{list_any};
ghost use Rattle.py_tree.specs.Views.{form_of, suite_of, tree_of};
ghost use Rattle.py_lines.specs.Views.{head_of, plain_of};
ghost use Rattle.py_lines.specs.Line.{Plain as PlainLine, Opens as OpensLine, Turns as TurnsLine};
ghost use Rattle.py_grammar.specs.Rules.{is_loop as is_loop_head};
ghost use Rattle.py_grammar.specs.Reader.{began, else_behind, ended, finally_behind, function_of, inside as is_inside, opened, opener, plain_form};
ghost use Rattle.py_grammar.specs.Reading.{began_of, open_of, AddsClause, Closes, EndsAs, GoesOn, TurnsAs, TurnsToExcept};

use crate::rules::{Inside, may_hold, may_open};
use py_code::{NoMemory, PyText};
use py_lines::{Head, Plain, Turn};
use py_tree::{Body, BodyKind, Clause, ClauseList, Expr, ParamList, Stmt, StmtForm, StmtList};
use std::alloc::Global;
use std::mem;

/// How an open block began.
#[derive(Drop)]
pub enum BlockHead {
    /// `if e`, without an `else` so far.
    If(Expr),
    /// `if e`, its suite and `else`.
    Else(Expr, StmtList),
    /// `while e`.
    While(Expr),
    /// `try`, without a clause or a `finally` so far.
    Try,
    /// `try`, its suite, the clauses before the last one, and how that began.
    Except(StmtList, ClauseList, ClauseHead),
    /// `try`, its suite and `finally`.
    Finally(StmtList),
    /// `with e` or `with e as x`.
    With(Expr, Option<PyText>),
}

/// `except C` or `except C as x`, with its line.
#[derive(Drop)]
pub struct ClauseHead {
    line: u32,
    class: PyText,
    target: Option<PyText>,
}

/// A block that is open, with the line of its head and the statements before it in the block around it.
#[derive(Drop)]
pub struct OpenBlock {
    before: StmtList,
    line: u32,
    head: BlockHead,
}

/// What the header of a function says: its kind, its name and its parameters.
#[derive(Drop)]
pub struct FunctionHeader {
    pub kind: BodyKind,
    pub name: PyText,
    pub params: ParamList,
}

/// The header of a function, with the line it stands in, the blocks that are open in it, the innermost last,
/// and the statements of the innermost read so far.
#[derive(Drop)]
pub struct OpenBody {
    line: u32,
    kind: BodyKind,
    name: PyText,
    params: ParamList,
    blocks: Vec<OpenBlock>,
    done: StmtList,
}

/// What comes of an `end`.
#[derive(Clone, Copy)]
pub enum Ended {
    /// No block is open: the body is whole.
    Body,
    /// The innermost block is a statement of the body now.
    Block,
    /// The innermost block may not end there.
    Nothing,
}

/// The statement that a plain line is.
fn statement_of(plain: Plain) -> StmtForm
    ensures { form_of result ≡ plain_form (plain_of plain) }
{
    match plain {
        Plain::Assign(target, value) => StmtForm::Assign(target, value),
        Plain::Do(operator, operands) => StmtForm::Do(operator, operands),
        Plain::Show(expr) => StmtForm::Show(expr),
        Plain::Return(expr) => StmtForm::Return(expr),
        Plain::Raise(expr) => StmtForm::Raise(expr),
        Plain::Reraise => StmtForm::Reraise,
        Plain::Break => StmtForm::Break,
        Plain::Continue => StmtForm::Continue,
        Plain::Pass => StmtForm::Pass,
    }
}

/// Clauses with one more behind them, which began so and has this suite.
fn with_clause(
    clauses: ClauseList,
    last: ClauseHead,
    suite: StmtList,
) -> Result<ClauseList, NoMemory>
    ensures { IfOk result (AddsClause clauses last suite) }
{
    let ClauseHead {
        line,
        class,
        target,
    } = last;
    let mut clauses = clauses;
    clauses.push(Clause {
        line,
        class,
        target,
        suite,
    })?;
    Ok(clauses)
}

impl BlockHead {
    /// How a block begins with the line that opens it.
    fn of(head: Head) -> BlockHead
        ensures { began_of result ≡ began (head_of head) }
    {
        match head {
            Head::If(expr) => BlockHead::If(expr),
            Head::While(expr) => BlockHead::While(expr),
            Head::Try => BlockHead::Try,
            Head::With(manager, target) => BlockHead::With(manager, target),
        }
    }

    /// Whether the block is a loop.
    fn is_loop(&self) -> bool
        ensures { result ≡ is_loop_head (opener (began_of self.now)) }
    {
        match self {
            BlockHead::If(_) => false,
            BlockHead::Else(_, _) => false,
            BlockHead::While(_) => true,
            BlockHead::Try => false,
            BlockHead::Except(_, _, _) => false,
            BlockHead::Finally(_) => false,
            BlockHead::With(_, _) => false,
        }
    }

    /// How the block goes on behind an `else` and its last suite: an `if` without an `else`.
    fn at_else(self, suite: StmtList) -> Option<BlockHead>
        ensures { option_map began_of result ≡ else_behind (began_of self) (suite_of suite) }
    {
        match self {
            BlockHead::If(expr) => Some(BlockHead::Else(expr, suite)),
            _ => {
                mem::drop(self);
                None
            }
        }
    }

    /// The same behind an `except`: a `try` without a `finally`.
    fn at_except(
        self,
        alloc: Global,
        next: ClauseHead,
        suite: StmtList,
    ) -> Result<Option<BlockHead>, NoMemory>
        ensures { IfOk result (TurnsToExcept self next suite) }
    {
        match self {
            BlockHead::Try => Ok(Some(BlockHead::Except(suite, ClauseList::new(alloc), next))),
            BlockHead::Except(first, clauses, last) => {
                let clauses = with_clause(clauses, last, suite)?;
                Ok(Some(BlockHead::Except(first, clauses, next)))
            }
            _ => {
                mem::drop(self);
                Ok(None)
            }
        }
    }

    /// The same behind a `finally`: a `try` without a clause or a `finally`.
    fn at_finally(self, suite: StmtList) -> Option<BlockHead>
        ensures { option_map began_of result ≡ finally_behind (began_of self) (suite_of suite) }
    {
        match self {
            BlockHead::Try => Some(BlockHead::Finally(suite)),
            _ => {
                mem::drop(self);
                None
            }
        }
    }

    /// How the block goes on behind this turn, which is the line of this number, and its last suite, where it may turn so.
    fn turned(
        self,
        alloc: Global,
        number: u32,
        turn: Turn,
        suite: StmtList,
    ) -> Result<Option<BlockHead>, NoMemory>
        ensures { IfOk result (TurnsAs self number turn suite) }
    {
        match turn {
            Turn::Else => Ok(self.at_else(suite)),
            Turn::Except(class, target) => {
                let line = number;
                self.at_except(
                    alloc,
                    ClauseHead {
                        line,
                        class,
                        target,
                    },
                    suite,
                )
            }
            Turn::Finally => Ok(self.at_finally(suite)),
        }
    }

    /// The statement that the block is at its end with this last suite, where it may end.
    fn ended(self, suite: StmtList) -> Result<Option<StmtForm>, NoMemory>
        ensures { IfOk result (EndsAs self suite) }
    {
        match self {
            BlockHead::If(expr) => Ok(Some(StmtForm::If(expr, suite))),
            BlockHead::Else(expr, first) => Ok(Some(StmtForm::IfElse(expr, first, suite))),
            BlockHead::While(expr) => Ok(Some(StmtForm::While(expr, suite))),
            BlockHead::Try => Ok(None),
            BlockHead::Except(first, clauses, last) => {
                let clauses = with_clause(clauses, last, suite)?;
                Ok(Some(StmtForm::TryExcept(first, clauses)))
            }
            BlockHead::Finally(first) => Ok(Some(StmtForm::TryFinally(first, suite))),
            BlockHead::With(manager, target) => Ok(Some(StmtForm::With(manager, target, suite))),
        }
    }
}

/// Whether one of these blocks is a loop.
fn have_loop(blocks: &[OpenBlock]) -> bool
    ensures { result ≡ list_any (λ block. is_loop_head (opener (began_of block.head))) blocks.now }
{
    blocks.iter().any(|block| block.head.is_loop())
}

impl OpenBody {
    /// The body of a function of which the header alone was read.
    pub fn new(alloc: Global, line: u32, header: FunctionHeader) -> OpenBody
        ensures { open_of result ≡ opened line header.kind header.name header.params }
    {
        let FunctionHeader { kind, name, params } = header;
        OpenBody {
            line,
            kind,
            name,
            params,
            blocks: Vec::new(alloc),
            done: StmtList::new(alloc),
        }
    }

    /// Where the next statement stands.
    #[tactic(auto, using(crate::proofs::Stacks::stack_inside))]
    fn inside(&self) -> Inside
        ensures { result ≡ is_inside (open_of self.now) }
    {
        Inside {
            kind: self.kind,
            blocks: self.blocks.len() + 1,
            in_loop: have_loop(&self.blocks),
        }
    }

    /// Takes one more plain statement, where it is allowed.
    pub fn hold(&mut self, number: u32, plain: Plain) -> Result<bool, NoMemory>
        ensures taken { IfOk result (GoesOn self.old self.new number (PlainLine (plain_of plain))) }
        ensures name { self.new.name ≡ self.old.name }
    {
        if !may_hold(self.inside(), &plain) {
            mem::drop(plain);
            return Ok(false);
        }
        let form = statement_of(plain);
        self.done.push(Stmt { line: number, form })?;
        Ok(true)
    }

    /// Opens one more block, where it is allowed.
    #[tactic(auto, using(crate::proofs::Stacks::stack_push))]
    pub fn open(&mut self, alloc: Global, number: u32, head: Head) -> Result<bool, NoMemory>
        ensures taken { IfOk result (GoesOn self.old self.new number (OpensLine (head_of head))) }
        ensures name { self.new.name ≡ self.old.name }
    {
        if !may_open(self.inside(), &head) {
            mem::drop(head);
            return Ok(false);
        }
        let before = mem::replace(&mut self.done, StmtList::new(alloc));
        self.blocks.push(OpenBlock {
            before,
            line: number,
            head: BlockHead::of(head),
        })?;
        Ok(true)
    }

    /// Turns the innermost block to its next suite, where it may turn so; else the block is lost.
    #[tactic(auto, using(crate::proofs::Stacks::stack_push))]
    pub fn turn(&mut self, alloc: Global, number: u32, turn: Turn) -> Result<bool, NoMemory>
        ensures taken { IfOk result (GoesOn self.old self.new number (TurnsLine turn)) }
        ensures name { self.new.name ≡ self.old.name }
    {
        let Some(block) = self.blocks.pop() else {
            mem::drop(turn);
            return Ok(false);
        };
        let OpenBlock { before, line, head } = block;
        let suite = mem::replace(&mut self.done, StmtList::new(alloc));
        let Some(head) = head.turned(alloc, number, turn, suite)? else {
            return Ok(false);
        };
        self.blocks.push(OpenBlock { before, line, head })?;
        Ok(true)
    }

    /// Ends the innermost block, where it may end; else the block is lost.
    #[tactic(auto, using(crate::proofs::Stacks::stack_push))]
    pub fn end(&mut self) -> Result<Ended, NoMemory>
        ensures ended { IfOk result (Closes self.old self.new) }
        ensures name { self.new.name ≡ self.old.name }
    {
        let Some(block) = self.blocks.pop() else {
            return Ok(Ended::Body);
        };
        let OpenBlock { before, line, head } = block;
        let suite = mem::replace(&mut self.done, before);
        let Some(form) = head.ended(suite)? else {
            return Ok(Ended::Nothing);
        };
        self.done.push(Stmt { line, form })?;
        Ok(Ended::Block)
    }

    /// The function that the body is at its end; a block that is still open is let go.
    pub fn function(self) -> Body
        ensures { tree_of result ≡ function_of (open_of self) }
    {
        let OpenBody {
            line,
            kind,
            name,
            params,
            blocks: _,
            done,
        } = self;
        Body {
            kind,
            name,
            params,
            suite: done,
            line,
        }
    }
}
