//! A sentence's arena over a base.
ghost use Rattle.std.specs.Prelude.{◌≡◌, ◌∷◌, ◌++◌, [], length, MatchResult};
ghost use Rattle.patr_arena.specs.Arenas.{shown_of};
ghost use Rattle.patr_arena.specs.Blocks.{AreBlocks, with_blocks};
ghost use Rattle.patr_arena.specs.Facts.{AreBlocks-prop, IsShown-prop};
ghost use Rattle.patr_arena.specs.Shown.{IsShown};

use crate::block::Block;
use crate::nodes::Nodes;
use crate::plain::PlainArena;
use crate::row::BlockRow;
use crate::value::{Addr, Feature, Ref, Value};
use std::alloc::Global;

/// The blocks of a base, which stays as it is, and behind them blocks of its own.
#[derive(Drop)]
pub struct SentenceArena<'a> {
    base: &'a PlainArena,
    row: BlockRow,
    ghost first_block: { row.first_block ≡ length (shown_of base.now).sizes },
    ghost first_node: { row.first_node ≡ length (shown_of base.now).structure },
    ghost blocks: { AreBlocks (shown_of base.now) row.blocks } by { AreBlocks-prop (shown_of base.now) row.blocks },
    ghost lawful: { IsShown (with_blocks (shown_of base.now) row.blocks) } by { IsShown-prop (with_blocks (shown_of base.now) row.blocks) },
}

impl<'a> SentenceArena<'a> {
    ghost use Rattle.patr_arena.specs.Blocks.{OldIsHeld, with_block};
    ghost use Rattle.patr_arena.specs.Sentences.{sentence_of};

    /// An arena that shows the blocks of the base. It takes no memory.
    pub fn over(alloc: Global, base: &'a PlainArena) -> SentenceArena<'a>
        ensures { sentence_of result ≡ shown_of base.now }
    {
        SentenceArena {
            base,
            row: base.row_behind(alloc),
        }
    }

    /// Puts a block behind the others and answers its number, those of the base counted. The block's old addresses
    /// are held. Gives the block back for want of memory alone, and then the arena is as before.
    pub fn push(&mut self, block: Block) -> Result<u32, Block>
        requires { OldIsHeld (sentence_of self.old) block }
        ensures { MatchResult result (λ number. (number ≡ length (sentence_of self.old).sizes) × (sentence_of self.new ≡ with_block (sentence_of self.old) block)) (λ back. (back ≡ block) × (self.new ≡ self.old)) }
    {
        // `len` tells the law that each block keeps.
        let _length = block.len();
        self.row.push(block)
    }
}

impl<'a> Nodes for SentenceArena<'a> {
    ghost use Rattle.patr_arena.specs.Sentences.{sentence_of};

    ghost shown = { sentence_of };

    fn arcs(&self, at: Addr) -> &[Feature] {
        let own = self.row.blocks_before();
        if at.block < own {
            self.base.arcs(at)
        } else {
            self.row.arcs(at.block - own, at.offset)
        }
    }

    fn resolve(&self, block: u32, to: Ref) -> Value {
        to.in_block(block)
    }

    fn number(&self, at: Addr) -> u64 {
        let own = self.row.blocks_before();
        if at.block < own {
            self.base.number(at)
        } else {
            self.row.number(at.block - own, at.offset)
        }
    }

    fn count(&self) -> u64 {
        self.row.nodes()
    }

    fn blocks(&self) -> u32 {
        self.row.blocks()
    }

    ghost lawful = { λ arena. arena.lawful };
}
