//! Lists of kinds and of blocks.

use py_check::{BlockList, BlockNote, Kind, KindList};
use py_code::NoMemory;

#[test]
fn a_kind_is_put_behind_the_others(rt: HostRuntime) -> Result<(), NoMemory> {
    let mut kinds = KindList::new(rt.alloc());
    for kind in &[Kind::Any, Kind::Any, Kind::Exc, Kind::Any] {
        kinds.push(*kind)?;
    }
    assert_eq!(rt; kinds.len(), 4);
    assert_eq!(rt; kinds.get(1), Some(Kind::Any));
    assert_eq!(rt; kinds.get(2), Some(Kind::Exc));
    assert_eq!(rt; kinds.get(4), None);
    Ok(())
}

#[test]
fn a_block_is_put_inside_of_the_others(rt: HostRuntime) -> Result<(), NoMemory> {
    let mut blocks = BlockList::new();
    for level in 0..3 {
        blocks.push(rt.alloc(), BlockNote::Loop { level })?;
    }
    assert_eq!(rt; blocks.len(), 3);
    assert_eq!(rt; blocks.get(0).and_then(|block| level(block)), Some(2));
    assert_eq!(rt; blocks.get(2).and_then(|block| level(block)), Some(0));
    assert!(rt; blocks.get(3).is_none());
    Ok(())
}

/// The level of a loop.
fn level(block: &BlockNote) -> Option<usize> {
    match block {
        BlockNote::Loop { level } => Some(*level),
        _ => None,
    }
}
