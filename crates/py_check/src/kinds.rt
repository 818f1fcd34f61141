//! Kinds of the entries of a stack, as runs of equal ones.

ghost use Rattle.std.specs.Prelude.{◌≡◌, ◌+◌, ◌<◌, ◌^◌, [], ◌∷◌, ◌++◌, length, replicate, slice_get, IfOk, OnErr, OnOk};
ghost use Rattle.py_check.specs.KindRuns.{kinds_of};
ghost use Rattle.py_check.specs.Notes.{kinds_fit};
ghost use Rattle.py_check.specs.Sites.{IsBehindRun};

use crate::fits::kinds_are;
use crate::note::Kind;
use py_code::NoMemory;
use std::alloc::Global;
use std::marker::Model;

/// As many entries of one kind, one after another.
#[derive(Clone, Copy)]
struct KindRun {
    kind: Kind,
    count: usize,
}

/// Kinds of the entries of a stack, the top first, seen as their list.
#[derive(Drop)]
pub struct KindList {
    runs: Vec<KindRun>,
    len: usize,
}

impl Model for KindList {
    ghost use Rattle.std.specs.Prelude.{◌≡◌, List, length};
    ghost use Rattle.py_check.specs.declared.note.Kind.{Kind};

    ghost Value = { List Kind };

    ghost use Rattle.py_check.specs.KindRuns.{kinds_of};

    ghost view = { λ l. kinds_of l.runs.items };

    ghost invariant = { λ l. l.len ≡ length (kinds_of l.runs.items) };
}

impl KindList {
    /// No kinds, which takes no memory.
    pub fn new(alloc: Global) -> KindList
        ensures { result ≡ [] }
    {
        KindList {
            runs: Vec::new(alloc),
            len: 0,
        }
    }

    /// The same kind so many times.
    pub fn repeated(alloc: Global, kind: Kind, count: usize) -> Result<KindList, NoMemory>
        ensures { IfOk result (λ list. list ≡ replicate count kind) }
    {
        if count == 0 {
            return Ok(KindList::new(alloc));
        }
        Ok(KindList {
            runs: vec![in alloc; KindRun { kind, count }]?,
            len: count,
        })
    }

    /// How many kinds there are.
    pub fn len(&self) -> usize
        ensures { result ≡ length self.now }
    {
        self.len
    }

    /// The kind at a place, from 0.
    pub fn get(&self, at: usize) -> Option<Kind>
        ensures { result ≡ slice_get self.now at }
    {
        kind_at(self.runs.as_slice(), at)
    }

    /// The kinds in a list of their own.
    pub(crate) fn expanded(&self, alloc: Global) -> Result<Vec<Kind>, NoMemory>
        ensures { IfOk result (λ kinds. kinds.items ≡ self.now) }
    {
        expanded(alloc, self.runs.as_slice())
    }

    /// Whether kinds, the first ones before the others, fit these.
    pub(crate) fn are_fit(&self, front: &[Kind], rest: &[Kind]) -> bool
        ensures { result ≡ kinds_fit (front.now ++ rest.now) self.now }
    {
        runs_fit(front, rest, self.runs.as_slice())
    }

    /// Puts a kind after the others.
    pub fn push(&mut self, kind: Kind) -> Result<(), NoMemory>
        ensures added { OnOk result (self.new ≡ self.old ++ kind ∷ []) }
        ensures err { OnErr result (self.new ≡ self.old) }
    {
        let Some(len) = self.len.checked_add(1) else {
            return Err(NoMemory);
        };
        push_kind(&mut self.runs, kind)?;
        self.len = len;
        Ok(())
    }
}

/// The kind at a place of runs.
fn kind_at(runs: &[KindRun], at: usize) -> Option<Kind>
    ensures { result ≡ slice_get (kinds_of runs.now) at }
{
    let mut left = runs;
    let mut place = at;
    'runs_left: while let [run, more @ ..] = left {
        if place < run.count {
            return Some(run.kind);
        }
        place -= run.count;
        left = more;
    }
    None
}

/// The kinds of runs.
fn expanded(alloc: Global, runs: &[KindRun]) -> Result<Vec<Kind>, NoMemory>
    ensures { IfOk result (λ kinds. kinds.items ≡ kinds_of runs.now) }
{
    let mut kinds = Vec::new(alloc);
    let mut left = runs;
    'runs_left: while let [run, more @ ..] = left {
        push_all(&mut kinds, run.kind, run.count)?;
        left = more;
    }
    Ok(kinds)
}

/// Puts a kind after others so many times.
fn push_all(kinds: &mut Vec<Kind>, kind: Kind, count: usize) -> Result<(), NoMemory>
    ensures { OnOk result (kinds.new.items ≡ kinds.old.items ++ replicate count kind) }
{
    for place in 0..count {
        kinds.push(kind)?;
    }
    Ok(())
}

/// What is left of kinds, the first ones before the others, after those that a run stands for, where these fit it.
fn behind_run<'a>(
    front: &'a [Kind],
    rest: &'a [Kind],
    run: KindRun,
) -> Option<(&'a [Kind], &'a [Kind])>
    ensures { IsBehindRun (front.now ++ rest.now) run result }
{
    let first = run.count.min(front.len());
    let others = run.count - first;
    if others > rest.len() {
        return None;
    }
    let (front_now, front_left) = front.split_at(first);
    let (rest_now, rest_left) = rest.split_at(others);
    if !kinds_are(front_now, run.kind) {
        return None;
    }
    if !kinds_are(rest_now, run.kind) {
        return None;
    }
    Some((front_left, rest_left))
}

/// Whether there are no kinds, neither first ones nor others.
#[tactic(auto, using(crate::proofs::FittingLemmas::nothing_fits))]
fn are_none(front: &[Kind], rest: &[Kind]) -> bool
    ensures { result ≡ kinds_fit (front.now ++ rest.now) [] }
{
    front.len() == 0 && rest.len() == 0
}

/// Whether kinds, the first ones before the others, fit those of runs.
fn runs_fit(front: &[Kind], rest: &[Kind], runs: &[KindRun]) -> bool
    ensures { result ≡ kinds_fit (front.now ++ rest.now) (kinds_of runs.now) }
{
    let mut ks = front;
    let mut ls = rest;
    let mut left = runs;
    'fit: while let [run, more @ ..] = left {
        let Some((ks_left, ls_left)) = behind_run(ks, ls, *run) else {
            return false;
        };
        ks = ks_left;
        ls = ls_left;
        left = more;
    }
    are_none(ks, ls)
}

/// Puts a kind after those of runs. The last run goes on where it is of this kind.
fn push_kind(runs: &mut Vec<KindRun>, kind: Kind) -> Result<(), NoMemory>
    requires { length (kinds_of runs.old.items) + 1 < 2 ^ 64 }
    ensures added { OnOk result (kinds_of runs.new.items ≡ kinds_of runs.old.items ++ kind ∷ []) }
    ensures err { OnErr result (runs.new.items ≡ runs.old.items) }
{
    if let Some(at) = runs.len().checked_sub(1) {
        let last = runs[at];
        if last.kind == kind {
            runs[at] = KindRun {
                kind,
                count: last.count + 1,
            };
            return Ok(());
        }
    }
    runs.push(KindRun { kind, count: 1 })?;
    Ok(())
}
