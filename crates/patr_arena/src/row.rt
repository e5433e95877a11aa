//! Blocks one behind another.
ghost use Rattle.std.specs.Prelude.{◌≡◌, ◌+◌, ◌-◌, ◌*◌, ◌^◌, ◌<◌, ◌≤◌, [], ◌∷◌, ◌++◌, length, slice_index_or, MatchResult};
ghost use Rattle.patr_arena.specs.Rows.{HasNode, Row, appended, blocks_of, node_in, nodes_of, start};

use crate::block::{Block, piece, start_of};
use crate::value::Feature;
use std::alloc::Global;
use std::marker::Model;

/// Blocks one behind another, all in three lists, so that a small block takes little memory. Other blocks may stand
/// before them.
#[derive(Drop)]
pub(crate) struct BlockRow {
    first_block: u32,
    first_node: u64,
    /// The arcs of all nodes, one block's behind the other's.
    features: Vec<Feature>,
    /// Where the arcs of each node end, counted from the first arc of all.
    ends: Vec<u32>,
    /// Where the nodes of each block end.
    node_ends: Vec<u32>,
}

impl Model for BlockRow {
    ghost use Rattle.patr_arena.specs.Rows.{Row, IsRow, blocks_in};

    ghost Value = { Row };

    ghost view = { λ row. record { first_block = row.first_block; first_node = row.first_node; blocks = blocks_in row.features.items row.ends.items row.node_ends.items } };

    ghost invariant = { λ row. IsRow (record { first_block = row.first_block; first_node = row.first_node; blocks = blocks_in row.features.items row.ends.items row.node_ends.items }) row.features.items row.ends.items row.node_ends.items };
}

impl BlockRow {
    /// A row without blocks, before which nothing stands. It takes no memory.
    pub(crate) fn new(alloc: Global) -> BlockRow
        ensures { result ≡ record { first_block = 0; first_node = 0; blocks = [] } }
    {
        BlockRow {
            first_block: 0,
            first_node: 0,
            features: Vec::new(alloc),
            ends: Vec::new(alloc),
            node_ends: Vec::new(alloc),
        }
    }

    /// A row without blocks, before which the blocks of this row stand. It takes no memory.
    pub(crate) fn behind(&self, alloc: Global) -> BlockRow
        ensures { result ≡ record { first_block = blocks_of self.now; first_node = nodes_of self.now; blocks = [] } }
    {
        BlockRow {
            first_block: self.blocks(),
            first_node: self.nodes(),
            features: Vec::new(alloc),
            ends: Vec::new(alloc),
            node_ends: Vec::new(alloc),
        }
    }

    /// Puts a block behind the others and answers its number, those before the row counted. Gives it back for want
    /// of memory, and then the row is as before.
    pub(crate) fn push(&mut self, block: Block) -> Result<u32, Block>
        ensures { MatchResult result (λ number. (number ≡ blocks_of self.old) × (self.new ≡ appended self.old block)) (λ back. (back ≡ block) × (self.new ≡ self.old)) }
    {
        let number = self.blocks();
        if number == u32::MAX || self.node_ends.reserve(1).is_err() {
            return Err(block);
        }
        let Ok(()) = block.append_to(&mut self.features, &mut self.ends) else {
            return Err(block);
        };
        self.node_ends.push_reserved(self.ends.len() as u32);
        Ok(number)
    }

    /// How many blocks stand before the row.
    pub(crate) fn blocks_before(&self) -> u32
        ensures { result ≡ self.now.first_block }
    {
        self.first_block
    }

    /// How many blocks there are, those before the row counted.
    pub(crate) fn blocks(&self) -> u32
        ensures { result ≡ blocks_of self.now }
    {
        self.first_block + self.node_ends.len() as u32
    }

    /// How many nodes there are, those before the row counted.
    pub(crate) fn nodes(&self) -> u64
        ensures count { result ≡ nodes_of self.now }
        ensures few { result ≤ blocks_of self.now * 2 ^ 32 }
    {
        self.first_node + self.ends.len() as u64
    }

    /// The arcs of the node at this offset of the block `k` of the row.
    pub(crate) fn arcs(&self, k: u32, offset: u32) -> &[Feature]
        requires { HasNode self.now k offset }
        ensures { result.now ≡ node_in self.now k offset }
    {
        piece(&self.features, &self.ends, self.place(k, offset))
    }

    /// The place of the node at this offset of the block `k` of the row, those before the row counted.
    pub(crate) fn number(&self, k: u32, offset: u32) -> u64
        requires { HasNode self.now k offset }
        ensures { result ≡ start self.now k + offset }
    {
        self.first_node + self.place(k, offset) as u64
    }

    /// The place of the node at this offset of the block `k` of the row, of the row's own nodes alone.
    fn place(&self, k: u32, offset: u32) -> usize
        requires { HasNode self.now k offset }
        ensures { self.now.first_node + result ≡ start self.now k + offset }
    {
        start_of(&self.node_ends, k as usize) as usize + offset as usize
    }
}
