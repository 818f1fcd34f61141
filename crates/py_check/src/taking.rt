//! Entries that are taken off a stack.

ghost use Rattle.std.specs.Prelude.{◌≡◌, [], ◌∷◌, replicate};
ghost use Rattle.std.specs.List.{list_all};
ghost use Rattle.py_check.specs.Notes.{same_kind};
ghost use Rattle.py_check.specs.declared.note.Kind.TheVariants as kind;
ghost use Rattle.py_check.specs.Sites.{IsBelow};
ghost use Rattle.py_check.specs.Taking.{names_at_most, reads, takes, takes_named, tuple_of};

use crate::blocks::BlockList;
use crate::fits::{kind_fits, kinds_are};
use crate::landing::top_level;
use crate::note::Kind;

/// What lies below so many entries of a kind, where they are there and above the innermost block.
pub(crate) fn below<'a>(
    count: usize,
    of: Kind,
    kinds: &'a [Kind],
    blocks: &BlockList,
) -> Option<&'a [Kind]>
    ensures { IsBelow (takes (replicate count of) kinds.now blocks.now) result }
{
    if count > kinds.len() {
        return None;
    }
    let (taken, rest) = kinds.split_at(count);
    if !kinds_are(taken, of) {
        return None;
    }
    if rest.len() < top_level(blocks) {
        return None;
    }
    Some(rest)
}

/// What is left where a value lies on top and, under it, a text that says how to format it.
pub(crate) fn below_formatted<'a>(kinds: &'a [Kind], blocks: &BlockList) -> Option<&'a [Kind]>
    ensures { IsBelow (takes (kind.Any ∷ kind.Str ∷ []) kinds.now blocks.now) result }
{
    match kinds {
        [_, below @ ..] => match below {
            [spec, rest @ ..] => {
                if kind_fits(*spec, Kind::Str) && top_level(blocks) <= rest.len() {
                    Some(rest)
                } else {
                    None
                }
            }
            [] => None,
        },
        [] => None,
    }
}

fn names_at_most(count: usize, kind: Kind) -> bool
    ensures { result ≡ names_at_most count kind }
{
    match kind {
        Kind::Names(n) => n <= count,
        _ => false,
    }
}

/// What lies below names of at most so many arguments and so many entries.
pub(crate) fn below_named<'a>(
    named: usize,
    count: usize,
    kinds: &'a [Kind],
    blocks: &BlockList,
) -> Option<&'a [Kind]>
    ensures { IsBelow (takes_named named count kinds.now blocks.now) result }
{
    match kinds {
        [] => None,
        [first, others @ ..] => {
            if !names_at_most(named, *first) {
                return None;
            }
            below(count, Kind::Any, others, blocks)
        }
    }
}

/// Whether an entry of a kind is so far below the top.
pub(crate) fn reads(place: usize, wanted: Kind, kinds: &[Kind]) -> bool
    ensures { result ≡ reads place wanted kinds.now }
{
    match kinds.get(place) {
        None => false,
        Some(kind) => kind_fits(*kind, wanted),
    }
}

fn are_cells(kinds: &[Kind]) -> bool
    ensures { result ≡ list_all (λ k. same_kind k kind.Cell) kinds.now }
{
    kinds.iter().all(|kind| *kind == Kind::Cell)
}

/// The kind of a tuple of so many entries of these kinds.
pub(crate) fn tuple_of(count: usize, kinds: &[Kind]) -> Kind
    ensures { result ≡ tuple_of count kinds.now }
{
    if are_cells(kinds) {
        Kind::Cells(count)
    } else {
        Kind::Tuple
    }
}
