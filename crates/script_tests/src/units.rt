//! The units of a sum and the unit that asks for it, as the worked example of units has them.

use crate::running::journal_of;
use py_code::{Instruction, NoMemory};
use py_objects::Event;
use py_script::Journal;
use std::alloc::Global;
use std::test::Fail;

const SUM: &[u8] = b"def f a b\nx = (add a b)\nreturn x\nend\ncall f 33 12\n";

/// What the units of a journal's codes do, one code after another.
fn operations_of(alloc: Global, journal: &Journal) -> Result<Vec<Instruction>, NoMemory> {
    let mut operations = Vec::new(alloc);
    for code in journal.codes.iter() {
        for unit in code.code.instructions.as_slice() {
            operations.push(unit.op)?;
        }
    }
    Ok(operations)
}

/// The units that a journal's questions name.
fn units_asking(alloc: Global, journal: &Journal) -> Result<Vec<u32>, NoMemory> {
    let mut units = Vec::new(alloc);
    for event in journal.events.as_slice() {
        if let Event::Ask { at, .. } = event {
            units.push(*at)?;
        }
    }
    Ok(units)
}

#[test]
fn the_unit_that_adds_asks_for_the_sum(rt: HostRuntime) -> Result<(), Fail> {
    let journal = journal_of(rt.alloc(), SUM)?;
    let operations = operations_of(rt.alloc(), &journal)?;
    assert_eq!(rt;
        operations.as_slice(),
        [
            Instruction::LoadFast,
            Instruction::LoadFast,
            Instruction::BinaryOperation,
            Instruction::StoreFast,
            Instruction::LoadFast,
            Instruction::ReturnValue,
            Instruction::ReturnConst,
        ]
        .as_slice()
    );
    let units = units_asking(rt.alloc(), &journal)?;
    assert_eq!(rt; units.as_slice(), [2].as_slice());
    Ok(())
}
