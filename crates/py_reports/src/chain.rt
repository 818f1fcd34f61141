//! The exceptions of a report in order, each with the sentence before it.

ghost use Rattle.std.specs.Prelude.{◌≡◌, [], ◌∷◌, ◌++◌, IfOk, IfSome, IfNone, OnOk, OnErr};
ghost use Rattle.py_reports.specs.Chains.{chained, sentence_at, IsChain, IsLast};

use crate::order::{Way, order};
use py_code::NoMemory;
use py_exceptions::link_at;
use py_objects::{LinkField, Payload, PyObjectRef};
use std::alloc::Global;
use std::marker::Model;

/// The sentence before what is printed of an exception.
#[derive(Clone, Copy, Debug, PartialEq, Eq)]
pub enum Sentence {
    /// Nothing stands before it.
    Nothing,
    /// That the one above is its cause.
    Cause,
    /// That it came while the one above was handled.
    Context,
}

/// An exception of a report.
#[derive(Clone, Copy, Debug, PartialEq, Eq)]
pub struct Chained {
    pub exception: PyObjectRef,
    pub sentence: Sentence,
}

/// Exceptions that are still to come in a report. The next one stands last. Seen as their list.
#[derive(Drop)]
pub struct Chain {
    items: Vec<Chained>,
}

impl Model for Chain {
    ghost use Rattle.std.specs.Prelude.{List};
    ghost use Rattle.py_reports.specs.declared.chain.Chained.{Chained};

    ghost Value = { List Chained };

    ghost view = { λ c. c.items.items };
}

impl Chain {
    pub(crate) fn new(alloc: Global) -> Chain
        ensures { result ≡ [] }
    {
        Chain {
            items: Vec::new(alloc),
        }
    }

    pub(crate) fn push(&mut self, item: Chained) -> Result<(), NoMemory>
        ensures added { OnOk result (self.new ≡ self.old ++ item ∷ []) }
        ensures err { OnErr result (self.new ≡ self.old) }
    {
        self.items.push(item)?;
        Ok(())
    }

    /// The next one.
    pub(crate) fn last(&self) -> Option<Chained>
        ensures some { IfSome result (IsLast self.now) }
        ensures none { IfNone result (self.now ≡ []) }
    {
        match self.items.split_last() {
            Some((next, _rest)) => Some(*next),
            None => None,
        }
    }

    /// Takes the next one off.
    pub(crate) fn pop(&mut self) -> Option<Chained>
        ensures some { IfSome result (λ next. self.old ≡ self.new ++ next ∷ []) }
        ensures none { IfNone result (self.old ≡ []) }
    {
        self.items.pop()
    }
}

/// The exceptions of a report, by the links as they are.
pub(crate) fn chain_of(
    alloc: Global,
    objects: &[Payload],
    exc: PyObjectRef,
) -> Result<Chain, NoMemory>
    ensures { IfOk result (IsChain objects.now exc) }
{
    let met = order(alloc, objects, Way::Before, exc)?;
    chain_up(alloc, objects, met.as_slice())
}

/// Exceptions in the order of the walk, each with its sentence.
fn chain_up(alloc: Global, objects: &[Payload], met: &[PyObjectRef]) -> Result<Chain, NoMemory>
    ensures { IfOk result (λ chain. chain ≡ chained objects.now met.now) }
{
    let mut chain = Chain::new(alloc);
    let mut rest = met;
    'each: while let Some((first, more)) = rest.split_first() {
        chain.push(Chained {
            exception: *first,
            sentence: sentence_before(objects, *first, more),
        })?;
        rest = more;
    }
    Ok(chain)
}

/// The sentence before an exception, above which these are printed.
fn sentence_before(objects: &[Payload], exception: PyObjectRef, above: &[PyObjectRef]) -> Sentence
    ensures { result ≡ sentence_at objects.now exception above.now }
{
    if above.is_empty() {
        return Sentence::Nothing;
    }
    if link_at(objects, LinkField::Cause, exception).is_some() {
        Sentence::Cause
    } else {
        Sentence::Context
    }
}
