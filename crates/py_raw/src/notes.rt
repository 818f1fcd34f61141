//! The notes of a raw code. Its lines name the deepest entry of the stack and the outermost block first, notes the top and the
//! innermost.

ghost use Rattle.std.specs.Prelude.{◌≡◌, IfOk, map, reverse};
ghost use Rattle.py_raw.specs.RawSheet.{note_of, note_at};

use py_check::{BlockList, BlockNote, Kind, KindList, Note, NoteList};
use py_code::NoMemory;
use py_grammar::RawUnit;
use py_lines::RawNote;
use std::alloc::Global;

/// The kinds of a stack, the top first.
fn kinds_of(alloc: Global, kinds: &[Kind]) -> Result<KindList, NoMemory>
    ensures { IfOk result (λ list. list ≡ reverse kinds.now) }
{
    let mut list = KindList::new(alloc);
    let mut rest = kinds;
    while let Some((top, below)) = rest.split_last() {
        list.push(*top)?;
        rest = below;
    }
    Ok(list)
}

/// The same block in memory of its own.
fn copy_of(alloc: Global, block: &BlockNote) -> Result<BlockNote, NoMemory>
    ensures { IfOk result (λ copy. copy ≡ block.now) }
{
    match block {
        BlockNote::Loop { level } => Ok(BlockNote::Loop { level: *level }),
        BlockNote::TryExcept { level, handler } => Ok(BlockNote::TryExcept {
            level: *level,
            handler: *handler,
        }),
        BlockNote::Finally { level, handler } => Ok(BlockNote::Finally {
            level: *level,
            handler: *handler,
        }),
        BlockNote::FinallyHandler { level, pending } => Ok(BlockNote::FinallyHandler {
            level: *level,
            pending: pending.copy(alloc)?,
        }),
        BlockNote::ExceptHandler { level } => Ok(BlockNote::ExceptHandler { level: *level }),
    }
}

/// The open blocks, the innermost first.
fn blocks_of(alloc: Global, blocks: &[BlockNote]) -> Result<BlockList, NoMemory>
    ensures { IfOk result (λ list. list ≡ reverse blocks.now) }
{
    let mut list = BlockList::new();
    for block in blocks {
        let copy = copy_of(alloc, block)?;
        list.push(alloc, copy)?;
    }
    Ok(list)
}

/// The note that a unit has.
fn note_of(alloc: Global, note: &RawNote) -> Result<Note, NoMemory>
    ensures { IfOk result (λ made. made ≡ note_of note.now) }
{
    match note {
        RawNote::Dead => Ok(Note::Dead),
        RawNote::Live { kinds, blocks } => {
            let kinds = kinds_of(alloc, kinds.as_slice())?;
            let blocks = blocks_of(alloc, blocks.as_slice())?;
            Ok(Note::Live { kinds, blocks })
        }
    }
}

/// The notes of units, in order.
pub(crate) fn notes_of(alloc: Global, units: &[RawUnit]) -> Result<NoteList, NoMemory>
    ensures { IfOk result (λ notes. notes ≡ map note_at units.now) }
{
    let mut notes = NoteList::new(alloc);
    for unit in units {
        let note = note_of(alloc, &unit.note)?;
        notes.push(note)?;
    }
    Ok(notes)
}
