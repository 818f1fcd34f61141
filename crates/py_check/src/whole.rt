//! The rules on a whole code.

ghost use Rattle.std.specs.Prelude.{◌≡◌, ◌<◌, slice_get};
ghost use Rattle.std.specs.List.{list_all};
ghost use Rattle.py_code.specs.Literals.{literals_of};
ghost use Rattle.py_check.specs.Constants.{is_earlier, kind_of};
ghost use Rattle.py_check.specs.Sheet.{sheet_of};
ghost use Rattle.py_check.specs.WholeCode.{cells_fit, counts_if, counts_match, is_start, keeps_whole, names_parameter, parameters, parameters_fit};

use crate::annotated::Annotated;
use crate::note::{Kind, Note};
use bitflags::Flags;
use py_code::{CodeFlags, Literal, LiteralList};

/// Whether each code that a constant is or holds is one of so many earlier ones.
#[cycle(earlier)]
fn is_earlier(count: usize, literal: &Literal) -> bool
    ensures { result ≡ is_earlier count literal.now }
{
    match literal {
        Literal::Code(number) => *number < count,
        Literal::Tuple(items) => are_earlier(count, items),
        Literal::None => true,
        Literal::Bool(_) => true,
        Literal::Int(_) => true,
        Literal::Str(_) => true,
        Literal::Builtin(_) => true,
    }
}

/// The same of constants.
#[cycle(earlier)]
fn are_earlier(count: usize, constants: &LiteralList) -> bool
    ensures { result ≡ list_all (is_earlier count) (literals_of constants.now) }
{
    for place in 0..constants.len() {
        let Some(literal) = constants.get(place) else {
            return true;
        };
        if !is_earlier(count, literal) {
            return false;
        }
    }
    true
}

fn is_start(code: &Annotated) -> bool
    ensures { result ≡ is_start (slice_get code.now.notes 0) }
{
    match code.notes.get(0) {
        Some(Note::Live { kinds, blocks }) => kinds.len() == 0 && blocks.len() == 0,
        Some(Note::Dead) => false,
        None => false,
    }
}

fn counts_match(code: &Annotated) -> bool
    ensures { result ≡ counts_match (sheet_of code.now) }
{
    let count = code.code.code.instructions.len();
    0 < count
        && (count < (1 << 32)
            && (code.code.code.locations.len() == count && code.notes.len() == count))
}

fn counts_if(flags: CodeFlags, flag: CodeFlags) -> u64
    ensures is { result ≡ counts_if flags flag }
    ensures small { result < 2 }
{
    if flags.intersects(flag) { 1 } else { 0 }
}

fn parameters(code: &Annotated) -> u64
    ensures { result ≡ parameters (sheet_of code.now) }
{
    let flags = code.code.code.flags;
    u64::from(code.code.code.arg_count)
        + u64::from(code.code.code.kwonlyarg_count)
        + counts_if(flags, CodeFlags::HAS_VARARGS)
        + counts_if(flags, CodeFlags::HAS_VARKEYWORDS)
}

fn parameters_fit(code: &Annotated) -> bool
    ensures { result ≡ parameters_fit (sheet_of code.now) }
{
    code.code.code.posonlyarg_count <= code.code.code.arg_count
        && parameters(code) <= code.code.code.varnames.len() as u64
}

fn names_parameter(count: u64, place: i32) -> bool
    ensures { result ≡ names_parameter count place }
{
    place == -1 || (place >= 0 && (place as u64) < count)
}

fn all_name_parameters(count: u64, places: &[i32]) -> bool
    ensures { result ≡ list_all (names_parameter count) places.now }
{
    places.iter().all(|place| names_parameter(count, *place))
}

fn cells_fit(code: &Annotated) -> bool
    ensures { result ≡ cells_fit (sheet_of code.now) (sheet_of code.now).cell2arg }
{
    let places = code.code.code.cell2arg.as_slice();
    match places {
        [] => true,
        [_, ..] => {
            places.len() == code.code.code.cellvars.len()
                && all_name_parameters(parameters(code), places)
        }
    }
}

/// Whether the rules on the whole code are kept.
pub(crate) fn keeps_whole(code: &Annotated, shapes: &[usize]) -> bool
    ensures { result ≡ keeps_whole shapes.now (sheet_of code.now) }
{
    counts_match(code)
        && (is_start(code)
            && (parameters_fit(code)
                && (cells_fit(code)
                    && (code.code.code.max_stackdepth <= 65_535
                        && are_earlier(shapes.len(), &code.code.code.constants)))))
}

/// What is known of a constant on the stack.
pub(crate) fn kind_of(literal: &Literal) -> Kind
    ensures { result ≡ kind_of literal.now }
{
    match literal {
        Literal::Str(_) => Kind::Str,
        Literal::Tuple(items) => {
            if items.all_text() {
                Kind::Names(items.len())
            } else {
                Kind::Tuple
            }
        }
        Literal::Code(number) => Kind::Code(*number),
        Literal::None => Kind::Any,
        Literal::Bool(_) => Kind::Any,
        Literal::Int(_) => Kind::Any,
        Literal::Builtin(_) => Kind::Any,
    }
}
