//! An arena of its own.
ghost use Rattle.std.specs.Prelude.{◌≡◌, ◌∷◌, ◌++◌, [], length, MatchResult};
ghost use Rattle.patr_arena.specs.Blocks.{AreBlocks, nothing, with_blocks};
ghost use Rattle.patr_arena.specs.Facts.{AreBlocks-prop, IsShown-prop};
ghost use Rattle.patr_arena.specs.Shown.{IsShown};

use crate::block::Block;
use crate::nodes::Nodes;
use crate::row::BlockRow;
use crate::value::{Addr, Feature, Ref, Value};
use std::alloc::Global;

/// Blocks one behind another.
#[derive(Drop)]
pub struct PlainArena {
    row: BlockRow,
    ghost first_block: { row.first_block ≡ 0 },
    ghost first_node: { row.first_node ≡ 0 },
    ghost blocks: { AreBlocks nothing row.blocks } by { AreBlocks-prop nothing row.blocks },
    ghost lawful: { IsShown (with_blocks nothing row.blocks) } by { IsShown-prop (with_blocks nothing row.blocks) },
}

impl PlainArena {
    ghost use Rattle.patr_arena.specs.Blocks.{OldIsHeld, with_block};
    ghost use Rattle.patr_arena.specs.Arenas.{shown_of};

    /// An arena without blocks. It takes no memory.
    pub fn new(alloc: Global) -> PlainArena
        ensures { shown_of result ≡ nothing }
    {
        PlainArena {
            row: BlockRow::new(alloc),
        }
    }

    /// Puts a block behind the others and answers its number. The block's old addresses are held. Gives the block
    /// back for want of memory alone, and then the arena is as before.
    pub fn push(&mut self, block: Block) -> Result<u32, Block>
        requires { OldIsHeld (shown_of self.old) block }
        ensures { MatchResult result (λ number. (number ≡ length (shown_of self.old).sizes) × (shown_of self.new ≡ with_block (shown_of self.old) block)) (λ back. (back ≡ block) × (self.new ≡ self.old)) }
    {
        // `len` tells the law that each block keeps.
        let _length = block.len();
        self.row.push(block)
    }

    /// A row without blocks, before which this arena's blocks stand.
    pub(crate) fn row_behind(&self, alloc: Global) -> BlockRow
        ensures { result ≡ record { first_block = length (shown_of self.now).sizes; first_node = length (shown_of self.now).structure; blocks = [] } }
    {
        self.row.behind(alloc)
    }
}

impl Nodes for PlainArena {
    ghost use Rattle.patr_arena.specs.Arenas.{shown_of};

    ghost shown = { shown_of };

    fn arcs(&self, at: Addr) -> &[Feature] {
        self.row.arcs(at.block, at.offset)
    }

    fn resolve(&self, block: u32, to: Ref) -> Value {
        to.in_block(block)
    }

    fn number(&self, at: Addr) -> u64 {
        self.row.number(at.block, at.offset)
    }

    fn count(&self) -> u64 {
        self.row.nodes()
    }

    fn blocks(&self) -> u32 {
        self.row.blocks()
    }

    ghost lawful = { λ arena. arena.lawful };
}
