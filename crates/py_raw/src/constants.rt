//! The constants of a raw code, as literals.

ghost use Rattle.std.specs.Prelude.{◌≡◌, All, IfOk, map};
ghost use Rattle.py_code.specs.Literals.{constant_of as stands_for, literals_of as items_in};
ghost use Rattle.py_grammar.specs.WellFormed.{IsLoadable};
ghost use Rattle.py_raw.specs.RawSheet.{IsLiteralOf, AreLiteralsOf, plain_constant};

use py_code::{Literal, LiteralList, NameSet, NoMemory};
use py_lines::{RawAtom, RawConst};
use std::alloc::Global;

/// The literal of a constant that holds no others.
fn literal_of(alloc: Global, atom: &RawAtom) -> Result<Literal, NoMemory>
    ensures { IfOk result (λ literal. stands_for literal ≡ plain_constant atom.now) }
{
    match atom {
        RawAtom::None => Ok(Literal::None),
        RawAtom::Bool(truth) => Ok(Literal::Bool(*truth)),
        RawAtom::Int(number) => Ok(Literal::Int(*number)),
        RawAtom::Str(text) => Ok(Literal::Str(text.copy(alloc)?)),
    }
}

/// The literals of the items of a tuple, in order.
fn items_of(alloc: Global, atoms: &[RawAtom]) -> Result<LiteralList, NoMemory>
    ensures { IfOk result
        (λ list. map stands_for (items_in list) ≡ map plain_constant atoms.now) }
{
    let mut items = LiteralList::new(alloc);
    for atom in atoms {
        let item = literal_of(alloc, atom)?;
        items.push(item)?;
    }
    Ok(items)
}

/// The literal of a constant, after codes of these names.
fn constant_of(alloc: Global, earlier: &NameSet, constant: &RawConst) -> Result<Literal, NoMemory>
    requires { IsLoadable earlier.now constant.now }
    ensures { IfOk result (IsLiteralOf earlier.now constant.now) }
{
    match constant {
        RawConst::Atom(atom) => literal_of(alloc, atom),
        RawConst::Code(name) => match earlier.place(name) {
            Some(number) => Ok(Literal::Code(number)),
            // Lines name earlier codes alone (`IsLoadable`).
            None => unreachable!(),
        },
        RawConst::Tuple(atoms) => Ok(Literal::Tuple(items_of(alloc, atoms.as_slice())?)),
    }
}

/// The literals of constants, in order.
pub(crate) fn literals_of(
    alloc: Global,
    earlier: &NameSet,
    constants: &[RawConst],
) -> Result<LiteralList, NoMemory>
    requires { All (IsLoadable earlier.now) constants.now }
    ensures { IfOk result (λ list. AreLiteralsOf earlier.now constants.now (items_in list)) }
{
    let mut literals = LiteralList::new(alloc);
    for constant in constants {
        let literal = constant_of(alloc, earlier, constant)?;
        literals.push(literal)?;
    }
    Ok(literals)
}
