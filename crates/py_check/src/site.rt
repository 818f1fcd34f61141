//! What the rules ask of a unit, by its instruction and what lies on the stack before it.

ghost use Rattle.std.specs.Prelude.{◌≡◌, ◌≤◌, ◌+◌, ◌++◌, [], true, replicate};
ghost use Rattle.py_code.specs.declared.instruction.Instruction.TheVariants as op;
ghost use Rattle.py_check.specs.Sites.{IsBelow, calls_named, comes, delegates_at, enters, gives, goes, keeps_own_at, opens, puts_in, takes_at, takes_some, walks_at};
ghost use Rattle.py_check.specs.Typing.{may_yield};

use crate::annotated::Annotated;
use crate::blocks::BlockList;
use crate::landing::{Stack, goes_on, lands};
use crate::leaving::{
    ends_async, ends_cleanup, ends_finally, leaves_block, leaves_handler, starts_cleanup, walks,
};
use crate::making::below_function;
use crate::note::{Kind, Pending};
use crate::opened::Opened;
use crate::operands::{may_begin_after, op_before, prefixes};
use crate::taking::{below, below_named, reads, tuple_of};
use crate::whole::kind_of;
use bitflags::Flags;
use py_code::{CodeFlags, Instruction};

/// A unit of a code, and what holds before it.
#[derive(Clone, Copy)]
pub(crate) struct Site<'a> {
    pub(crate) code: &'a Annotated,
    /// The place of the unit.
    pub(crate) at: u32,
    /// What lies on the stack, the top first.
    pub(crate) kinds: &'a [Kind],
    /// Which blocks are open, the innermost first.
    pub(crate) blocks: &'a BlockList,
}

/// Whether the frame of a code with these flags may be suspended.
fn may_yield(flags: CodeFlags) -> bool
    ensures { result ≡ may_yield flags }
{
    flags.intersects(CodeFlags::IS_GENERATOR) || flags.intersects(CodeFlags::IS_COROUTINE)
}

impl<'a> Site<'a> {
    /// The place after the unit.
    pub(crate) fn next(&self) -> usize
        ensures { result ≡ self.now.at + 1 }
    {
        self.at as usize + 1
    }

    /// Whether control may come to a place with these entries, the first ones before the rest.
    fn lands(&self, to: usize, front: &[Kind], rest: &[Kind]) -> bool
        ensures { result ≡ comes self.now to (front.now ++ rest.now) }
    {
        let stack = Stack {
            front,
            rest,
            opened: Opened::Nothing,
            blocks: self.blocks,
        };
        lands(self.code, to, &stack)
    }

    /// Whether control may go on after the unit with these entries.
    pub(crate) fn goes_on(&self, front: &[Kind], rest: &[Kind]) -> bool
        ensures { result ≡ goes self.now (front.now ++ rest.now) }
    {
        self.opens(Opened::Nothing, front, rest)
    }

    /// The same where the unit opens a block.
    fn opens(&self, opened: Opened, front: &[Kind], rest: &[Kind]) -> bool
        ensures { result ≡ opens self.now opened (front.now ++ rest.now) }
    {
        let stack = Stack {
            front,
            rest,
            opened,
            blocks: self.blocks,
        };
        goes_on(self.code, self.next(), &stack)
    }

    /// The same with the stack as it is, over which the block is opened.
    fn sets_up(&self, opened: Opened) -> bool
        ensures { result ≡ opens self.now opened self.now.kinds.now }
    {
        self.opens(opened, &[], self.kinds)
    }

    /// Whether a break or a continue finds its loop, or a finally whose handler lets it wait.
    fn leaves_by(&self, pending: Pending) -> bool
        ensures { result ≡ walks_at self.now pending }
    {
        walks(self.code, pending, self.kinds, self.blocks)
    }

    /// What lies below so many entries of a kind, where they are there and above the innermost block.
    pub(crate) fn below(&self, count: usize, of: Kind) -> Option<&'a [Kind]>
        ensures { IsBelow (takes_at self.now (replicate count of)) result }
    {
        below(count, of, self.kinds, self.blocks)
    }

    /// Whether so many entries of a kind are there, and control goes on with these in their place.
    pub(crate) fn gives(&self, count: usize, of: Kind, pushed: &[Kind]) -> bool
        ensures { result ≡ gives self.now count of pushed.now }
    {
        match self.below(count, of) {
            Some(rest) => self.goes_on(pushed, rest),
            None => false,
        }
    }

    /// Whether so many entries are there, above the innermost block's level.
    fn has_entries(&self, count: usize) -> bool
        ensures { result ≡ takes_some self.now count (λ rest. true) }
    {
        self.below(count, Kind::Any).is_some()
    }

    /// Whether a jump that takes the top may be made, and control may go on after it.
    fn branches(&self, to: usize) -> bool
        ensures { result ≡ keeps_own_at self.now [] op.JumpIfTrue to }
    {
        match self.below(1, Kind::Any) {
            Some(rest) => self.lands(to, &[], rest) && self.goes_on(&[], rest),
            None => false,
        }
    }

    /// Whether control may both come to a label with the stack as it is and go on without the top.
    fn branches_or_pops(&self, to: usize) -> bool
        ensures { result ≡ keeps_own_at self.now [] op.JumpIfTrueOrPop to }
    {
        match self.below(1, Kind::Any) {
            Some(rest) => self.lands(to, &[], self.kinds) && self.goes_on(&[], rest),
            None => false,
        }
    }

    /// Whether control may both come to a label without the top and go on with a value above it.
    fn iterates(&self, to: usize) -> bool
        ensures { result ≡ keeps_own_at self.now [] op.ForIter to }
    {
        match self.below(1, Kind::Any) {
            Some(rest) => self.lands(to, &[], rest) && self.goes_on(&[Kind::Any], self.kinds),
            None => false,
        }
    }

    /// Whether so many entries are there, one of a kind is so far below them, and control goes on with what is left.
    fn puts_in(&self, count: usize, place: usize, of: Kind) -> bool
        ensures { result ≡ puts_in self.now count place of }
    {
        match self.below(count, Kind::Any) {
            Some(rest) => reads(place, of, rest) && self.goes_on(&[], rest),
            None => false,
        }
    }

    /// Whether there is an entry, and control goes on with one more above it.
    fn reads_top(&self) -> bool
        ensures { result ≡ keeps_own_at self.now [] op.GetANext 0 }
    {
        reads(0, Kind::Any, self.kinds) && self.goes_on(&[Kind::Any], self.kinds)
    }

    /// Whether a constant may be loaded.
    fn loads(&self, place: usize) -> bool
        ensures { result ≡ keeps_own_at self.now [] op.LoadConst place }
    {
        match self.code.code.code.constants.get(place) {
            Some(literal) => self.goes_on(&[kind_of(literal)], self.kinds),
            None => false,
        }
    }

    /// Whether a tuple may be built of so many entries.
    fn builds_tuple(&self, count: usize) -> bool
        ensures { result ≡ keeps_own_at self.now [] op.BuildTuple count }
    {
        let tuple = tuple_of(count, &self.kinds[..count.min(self.kinds.len())]);
        self.gives(count, Kind::Any, &[tuple])
    }

    /// Whether a call by name finds its names, and so many entries below them.
    fn calls_named(&self, named: usize, count: usize) -> bool
        ensures { result ≡ calls_named self.now named count }
    {
        match below_named(named, count, self.kinds, self.blocks) {
            Some(rest) => self.goes_on(&[Kind::Any], rest),
            None => false,
        }
    }

    /// Whether a new function finds its parts.
    fn makes_function(&self, shapes: &[usize], flags: u32) -> bool
        ensures { result ≡ keeps_own_at self.now shapes.now op.MakeFunction flags }
    {
        match below_function(shapes, flags, self.kinds, self.blocks) {
            Some(rest) => self.goes_on(&[Kind::Any], rest),
            None => false,
        }
    }

    /// Whether a manager may be taken and a finally begin, with so many of the pushed entries under its level.
    fn enters(&self, handler: u32, pushed: &[Kind], under: usize) -> bool
        requires { under ≤ 1 }
        ensures { result ≡ enters self.now handler pushed.now under }
    {
        match self.below(1, Kind::Any) {
            Some(rest) => {
                let level = under + rest.len();
                self.opens(Opened::Finally { level, handler }, pushed, rest)
            }
            None => false,
        }
    }

    /// Whether a value may be yielded, and another come in its place.
    fn yields(&self) -> bool
        ensures { result ≡ keeps_own_at self.now [] op.YieldValue 0 }
    {
        may_yield(self.code.code.code.flags) && self.gives(1, Kind::Any, &[Kind::Any])
    }

    /// Whether a value and a delegate are there, and control may come back here with what is sent and go on with what is returned.
    fn delegates(&self) -> bool
        ensures { result ≡ delegates_at self.now }
    {
        match self.below(2, Kind::Any) {
            Some(rest) => {
                let sent = &self.kinds[self.kinds.len().min(1)..];
                self.lands(self.at as usize, &[Kind::Any], sent) && self.goes_on(&[Kind::Any], rest)
            }
            None => false,
        }
    }

    /// Whether a delegation may begin or go on.
    fn yields_from(&self) -> bool
        ensures { result ≡ keeps_own_at self.now [] op.YieldFrom 0 }
    {
        let units = self.code.code.code.instructions.as_slice();
        may_yield(self.code.code.code.flags)
            && (may_begin_after(op_before(units, self.at as usize)) && self.delegates())
    }

    /// Whether a prefix has at most two before it, and control goes on.
    fn goes_on_as_prefix(&self) -> bool
        ensures { result ≡ keeps_own_at self.now [] op.ExtendedArg 0 }
    {
        let units = self.code.code.code.instructions.as_slice();
        prefixes(units, self.at as usize) < 3 && self.goes_on(&[], self.kinds)
    }

    /// Whether an instruction that isn't in the table of effects keeps the rules.
    pub(crate) fn keeps_own(&self, shapes: &[usize], op: Instruction, arg: u32) -> bool
        ensures { result ≡ keeps_own_at self.now shapes.now op arg }
    {
        let n = arg as usize;
        let handler = arg;
        let level = self.kinds.len();
        match op {
            Instruction::LoadConst => self.loads(n),
            Instruction::LoadFast => self.goes_on(&[Kind::Any], self.kinds),
            Instruction::StoreFast => self.gives(1, Kind::Any, &[]),
            Instruction::DeleteFast => self.goes_on(&[], self.kinds),
            Instruction::BuildTuple => self.builds_tuple(n),
            Instruction::DictUpdate => self.puts_in(1, 0, Kind::Dict),
            Instruction::ListAppend => self.puts_in(1, n, Kind::List),
            Instruction::SetAdd => self.puts_in(1, n, Kind::Set),
            Instruction::MapAdd => self.puts_in(2, n, Kind::Dict),
            Instruction::ReturnValue => self.has_entries(1),
            Instruction::ReturnConst => true,
            Instruction::YieldValue => self.yields(),
            Instruction::YieldFrom => self.yields_from(),
            Instruction::SetupLoop => self.sets_up(Opened::Loop { level }),
            Instruction::SetupExcept => self.sets_up(Opened::TryExcept { level, handler }),
            Instruction::SetupFinally => self.sets_up(Opened::Finally { level, handler }),
            Instruction::EnterFinally => self.sets_up(Opened::FinallyHandler { level }),
            Instruction::EndFinally => ends_finally(self),
            Instruction::SetupWith => self.enters(handler, &[Kind::Any, Kind::Any], 1),
            Instruction::SetupAsyncWith => self.enters(handler, &[Kind::Any], 0),
            Instruction::WithCleanupStart => starts_cleanup(self),
            Instruction::WithCleanupFinish => ends_cleanup(self),
            Instruction::PopBlock => leaves_block(self),
            Instruction::PopException => leaves_handler(self),
            Instruction::GetANext | Instruction::ImportFrom => self.reads_top(),
            Instruction::EndAsyncFor => ends_async(self),
            Instruction::ForIter => self.iterates(n),
            Instruction::MakeFunction => self.makes_function(shapes, arg),
            Instruction::CallFunctionPositional => self.gives(n + 1, Kind::Any, &[Kind::Any]),
            Instruction::CallFunctionKeyword => self.calls_named(n, n + 1),
            Instruction::CallMethodKeyword => self.calls_named(n, n + 3),
            Instruction::Jump => self.lands(n, &[], self.kinds),
            Instruction::JumpIfTrue | Instruction::JumpIfFalse => self.branches(n),
            Instruction::JumpIfTrueOrPop | Instruction::JumpIfFalseOrPop => {
                self.branches_or_pops(n)
            }
            Instruction::Raise => self.has_entries(n),
            Instruction::Break => self.leaves_by(Pending::Break(arg)),
            Instruction::Continue => self.leaves_by(Pending::Continue(arg)),
            Instruction::ExtendedArg => self.goes_on_as_prefix(),
            _ => false,
        }
    }
}
