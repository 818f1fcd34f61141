//! What a new function is made of.

ghost use Rattle.std.specs.Prelude.{◌≡◌};
ghost use Rattle.py_check.specs.Sites.{IsBelow, IsBelowPart};
ghost use Rattle.py_check.specs.Taking.{takes};
ghost use Rattle.py_check.specs.Making.{closure_fits, has_part, makes_function, parts_of, takes_code};

use crate::blocks::BlockList;
use crate::fits::kind_fits;
use crate::landing::top_level;
use crate::note::Kind;
use bitflags::Flags;
use py_code::MakeFunctionFlags;

/// Whether the flags say that a part is there.
fn has_part(flags: u32, flag: MakeFunctionFlags) -> bool
    ensures { result ≡ has_part flags flag }
{
    flags & u32::from(flag.bits()) != 0
}

/// What lies below a part that the flags say is there.
fn below_part<'a>(
    flags: u32,
    flag: MakeFunctionFlags,
    wanted: Kind,
    kinds: &'a [Kind],
) -> Option<&'a [Kind]>
    ensures { IsBelowPart flags flag wanted kinds.now result }
{
    if !has_part(flags, flag) {
        return Some(kinds);
    }
    match kinds {
        [] => None,
        [kind, rest @ ..] => {
            if kind_fits(*kind, wanted) {
                Some(rest)
            } else {
                None
            }
        }
    }
}

/// What lies below the parts below a code with so many free names.
fn below_parts<'a>(
    free: usize,
    flags: u32,
    kinds: &'a [Kind],
    blocks: &BlockList,
) -> Option<&'a [Kind]>
    ensures { IsBelow (takes (parts_of flags free) kinds.now blocks.now) result }
{
    let kinds = below_part(flags, MakeFunctionFlags::CLOSURE, Kind::Cells(free), kinds)?;
    let kinds = below_part(flags, MakeFunctionFlags::ANNOTATIONS, Kind::Any, kinds)?;
    let kinds = below_part(
        flags,
        MakeFunctionFlags::KW_ONLY_DEFAULTS,
        Kind::Dict,
        kinds,
    )?;
    let kinds = below_part(flags, MakeFunctionFlags::DEFAULTS, Kind::Tuple, kinds)?;
    if kinds.len() < top_level(blocks) {
        return None;
    }
    Some(kinds)
}

/// Whether a code with free names gets its closure.
fn closure_fits(free: usize, flags: u32) -> bool
    ensures { result ≡ closure_fits flags free }
{
    has_part(flags, MakeFunctionFlags::CLOSURE) || free == 0
}

/// What lies below a code, which is an earlier one, and below its parts.
fn below_code<'a>(
    shapes: &[usize],
    flags: u32,
    kinds: &'a [Kind],
    blocks: &BlockList,
) -> Option<&'a [Kind]>
    ensures { IsBelow (takes_code shapes.now flags kinds.now blocks.now) result }
{
    match kinds {
        [Kind::Code(number), below @ ..] => match shapes.get(*number) {
            None => None,
            Some(free) => {
                if !closure_fits(*free, flags) {
                    return None;
                }
                below_parts(*free, flags, below, blocks)
            }
        },
        _ => None,
    }
}

/// What lies below the parts of a new function.
pub(crate) fn below_function<'a>(
    shapes: &[usize],
    flags: u32,
    kinds: &'a [Kind],
    blocks: &BlockList,
) -> Option<&'a [Kind]>
    ensures { IsBelow (makes_function shapes.now flags kinds.now blocks.now) result }
{
    match kinds {
        [] => None,
        [name, below @ ..] => {
            if !kind_fits(*name, Kind::Str) {
                return None;
            }
            below_code(shapes, flags, below, blocks)
        }
    }
}
