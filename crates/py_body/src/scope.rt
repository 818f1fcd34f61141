//! Scopes: where a statement stands, from which the notes of its units are made.

ghost use Rattle.std.specs.Prelude.{◌≡◌, ◌+◌, ◌≤◌, IfOk};
ghost use Rattle.py_laid.specs.Code.{before_finally, entry, in_clauses, in_finally, in_loop, in_try, leaving, on};
ghost use Rattle.py_body.specs.Emitting.{around_of, labels_of, scope_of};
ghost use Rattle.py_body.specs.Puts.{with_block, note_over};

use py_check::{BlockList, BlockNote, Kind, KindList, Note, Pending, PendingSet};
use py_code::NoMemory;
use py_tree::BodyKind;
use std::alloc::Global;

/// The labels of a loop: the place behind its end, and that of its test.
#[derive(Clone, Copy, Debug, PartialEq, Eq)]
pub struct Labels {
    pub stop: u32,
    pub again: u32,
}

/// The kind of the body, the innermost loop around a statement, how many values lie on the stack under it, and which blocks are open.
#[derive(Drop)]
pub struct Scope {
    pub kind: BodyKind,
    pub around: Option<Labels>,
    pub depth: u32,
    pub blocks: BlockList,
}

/// Where an instruction stands: in a scope, and at a line.
#[derive(Clone, Copy)]
pub struct Site<'a> {
    pub scope: &'a Scope,
    pub line: u32,
}

/// The note of a unit in a scope with so many values more. Of the values nothing is known.
pub fn note_of(alloc: Global, scope: &Scope, above: u32) -> Result<Note, NoMemory>
    requires { scope.now.depth + above ≤ 65535 }
    ensures { IfOk result (λ note. note ≡ note_over above scope.now) }
{
    let depth = (scope.depth + above) as usize;
    let kinds = KindList::repeated(alloc, Kind::Any, depth)?;
    let blocks = scope.blocks.share()?;
    Ok(Note::Live { kinds, blocks })
}

/// A scope with one more block, in a loop with these labels.
fn with_block(
    alloc: Global,
    scope: &Scope,
    around: Option<Labels>,
    block: BlockNote,
) -> Result<Scope, NoMemory>
    ensures { IfOk result (λ inner. scope_of inner ≡ with_block around block scope.now) }
{
    let blocks = scope.blocks.with(alloc, block)?;
    Ok(Scope {
        kind: scope.kind,
        around,
        depth: scope.depth,
        blocks,
    })
}

/// A scope with one more value on the stack.
pub fn with_value(scope: &Scope) -> Result<Scope, NoMemory>
    requires { scope.now.depth ≤ 1000 }
    ensures { IfOk result (λ inner. scope_of inner ≡ on (scope_of scope.now)) }
{
    let blocks = scope.blocks.share()?;
    Ok(Scope {
        kind: scope.kind,
        around: scope.around,
        depth: scope.depth + 1,
        blocks,
    })
}

/// Where a body of a kind is entered.
pub fn entry(kind: BodyKind) -> Scope
    ensures { scope_of result ≡ entry kind }
{
    Scope {
        kind,
        around: None,
        depth: 0,
        blocks: BlockList::new(),
    }
}

/// Inside of a loop with these labels.
pub fn in_loop(alloc: Global, scope: &Scope, labels: Labels) -> Result<Scope, NoMemory>
    ensures { IfOk result (λ inner. scope_of inner ≡ in_loop (labels_of labels) (scope_of scope.now)) }
{
    let level = scope.depth as usize;
    with_block(alloc, scope, Some(labels), BlockNote::Loop { level })
}

/// Inside of a try whose handler is at a label.
pub fn in_try(alloc: Global, scope: &Scope, handler: u32) -> Result<Scope, NoMemory>
    ensures { IfOk result (λ inner. scope_of inner ≡ in_try handler (scope_of scope.now)) }
{
    let level = scope.depth as usize;
    with_block(
        alloc,
        scope,
        scope.around,
        BlockNote::TryExcept { level, handler },
    )
}

/// Inside of the clauses of a try.
pub fn in_clauses(alloc: Global, scope: &Scope) -> Result<Scope, NoMemory>
    ensures { IfOk result (λ inner. scope_of inner ≡ in_clauses (scope_of scope.now)) }
{
    let level = scope.depth as usize;
    with_block(
        alloc,
        scope,
        scope.around,
        BlockNote::ExceptHandler { level },
    )
}

/// Inside of the body of a finally whose handler is at a label.
pub fn before_finally(alloc: Global, scope: &Scope, handler: u32) -> Result<Scope, NoMemory>
    ensures { IfOk result (λ inner. scope_of inner ≡ before_finally handler (scope_of scope.now)) }
{
    let level = scope.depth as usize;
    with_block(
        alloc,
        scope,
        scope.around,
        BlockNote::Finally { level, handler },
    )
}

/// Inside of a finally, while which each jump out of the loop around may wait.
pub fn in_finally(alloc: Global, scope: &Scope) -> Result<Scope, NoMemory>
    ensures { IfOk result (λ inner. scope_of inner ≡ in_finally (scope_of scope.now)) }
{
    let level = scope.depth as usize;
    let pending = leaving(alloc, scope.around)?;
    with_block(
        alloc,
        scope,
        scope.around,
        BlockNote::FinallyHandler { level, pending },
    )
}

/// The jumps that a statement may make out of its loop.
fn leaving(alloc: Global, around: Option<Labels>) -> Result<PendingSet, NoMemory>
    ensures { IfOk result (λ jumps. jumps ≡ leaving (around_of around)) }
{
    let mut jumps = PendingSet::new(alloc);
    if let Some(labels) = around {
        jumps.push(Pending::Break(labels.stop))?;
        jumps.push(Pending::Continue(labels.again))?;
    }
    Ok(jumps)
}
