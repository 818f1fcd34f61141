//! Open blocks, in lists that share what they have in common.

ghost use Rattle.std.specs.Prelude.{◌≡◌, [], ◌∷◌, length, slice_get, option_copied, IfOk, MatchOption, OnErr, OnOk};

use crate::note::BlockNote;
use py_code::NoMemory;
use std::alloc::Global;
use std::marker::Model;
use std::rc::Rc;

/// Open blocks, the innermost first, seen as their list. A block takes memory once, however many lists have it with those around it.
#[cycle(blocks)]
pub struct BlockList {
    top: Option<Rc<OpenBlock>>,
    len: usize,
}

/// An open block, and those around it.
#[derive(Drop)]
#[cycle(blocks)]
struct OpenBlock {
    block: BlockNote,
    around: BlockList,
}

impl Model for BlockList {
    ghost use Rattle.std.specs.Prelude.{◌≡◌, List, length};
    ghost use Rattle.py_check.specs.declared.note.BlockNote.{BlockNote};

    ghost Value = { List BlockNote };

    ghost use Rattle.py_check.specs.Blocks.{blocks_of};

    ghost view = { λ l. blocks_of l.top };

    ghost invariant = { λ l. l.len ≡ length (blocks_of l.top) };

    ghost size = { length };

    ghost use Rattle.py_check.specs.FewerBlocks.{fewer_around};

    ghost size_decreases = { λ l h. fewer_around l.top l.len };
}

impl Drop for BlockList {
    // A loop, so that a long list takes no stack.
    fn drop(mut self) {
        loop {
            let BlockList { top, len: _ } = self;
            let Some(top) = top else {
                return;
            };
            match Rc::into_inner(top) {
                Some(OpenBlock { block: _, around }) => self = around,
                None => return,
            }
        }
    }
}

impl BlockList {
    /// No blocks, which takes no memory.
    pub fn new() -> BlockList
        ensures { result ≡ [] }
    {
        BlockList { top: None, len: 0 }
    }

    /// How many blocks there are.
    pub fn len(&self) -> usize
        ensures { result ≡ length self.now }
    {
        self.len
    }

    /// The block at a place, the innermost at 0.
    pub fn get(&self, at: usize) -> Option<&BlockNote>
        ensures { option_copied result ≡ slice_get self.now at }
    {
        let mut list = self;
        let mut place = at;
        'blocks_left: while let Some(top) = &list.top {
            if place == 0 {
                return Some(&top.block);
            }
            place -= 1;
            list = &top.around;
        }
        None
    }

    /// Puts a block inside of the others.
    pub fn push(&mut self, alloc: Global, block: BlockNote) -> Result<(), NoMemory>
        ensures added { OnOk result (self.new ≡ block ∷ self.old) }
        ensures err { OnErr result (self.new ≡ self.old) }
    {
        let pushed = self.with(alloc, block)?;
        *self = pushed;
        Ok(())
    }

    /// The innermost block and those around it, where there is one.
    pub fn split(&self) -> Option<(&BlockNote, &BlockList)>
        ensures { MatchOption result (self.now ≡ []) (λ p. self.now ≡ p.0.now ∷ p.1.now) }
    {
        match &self.top {
            Some(cell) => {
                let OpenBlock { block, around } = &**cell;
                Some((block, around))
            }
            None => None,
        }
    }

    /// The same blocks once more, which takes no memory. The count of those who have them may be full.
    pub fn share(&self) -> Result<BlockList, NoMemory>
        ensures { IfOk result (λ list. list ≡ self.now) }
    {
        match &self.top {
            Some(top) => {
                let top = top.clone()?;
                Ok(BlockList {
                    top: Some(top),
                    len: self.len,
                })
            }
            None => Ok(BlockList::new()),
        }
    }

    /// These blocks with one more inside of them.
    pub fn with(&self, alloc: Global, block: BlockNote) -> Result<BlockList, NoMemory>
        ensures { IfOk result (λ list. list ≡ block ∷ self.now) }
    {
        let Some(len) = self.len.checked_add(1) else {
            return Err(NoMemory);
        };
        let around = self.share()?;
        let top = Rc::new(alloc, OpenBlock { block, around })?;
        Ok(BlockList {
            top: Some(top),
            len,
        })
    }
}
