//! A block of nodes.
ghost use Rattle.std.specs.Prelude.{◌≡◌, ◌<◌, ◌≤◌, ◌-◌, ◌^◌, [], ◌∷◌, ◌++◌, length, slice_index_or, slice_range, take, IfOk, OnErr, OnOk};
ghost use Rattle.std.specs.List.Sorted.{IsStrictlyIncreasing};
ghost use Rattle.patr_arena.specs.Blocks.{AllBelow, IsBlock, attributes};
ghost use Rattle.patr_arena.specs.Cuts.{AreEndsOf, IsAppended, begin, cut};

use crate::value::Feature;
use patr_text::Memory;
use std::alloc::{AllocError, Global};
use std::marker::Model;

/// Nodes, each with its arcs. A node's arcs lead to atoms, to nodes of earlier blocks and to earlier nodes of
/// this block. Once added a node never changes.
#[derive(Drop)]
pub struct Block {
    /// The arcs of all nodes, one node's behind the other's.
    features: Vec<Feature>,
    /// Where the arcs of each node end.
    ends: Vec<u32>,
}

impl Model for Block {
    ghost use Rattle.std.specs.Prelude.{List};
    ghost use Rattle.patr_arena.specs.declared.value.Feature.{Feature};
    ghost use Rattle.patr_arena.specs.Cuts.{cut, IsCut};

    ghost Value = { List (List Feature) };

    ghost view = { λ block. cut block.features.items 0 block.ends.items };

    ghost invariant = { λ block. IsCut block.features.items block.ends.items };
}

impl Block {
    /// A block without nodes. It takes no memory.
    pub fn new(alloc: Global) -> Block
        ensures { result ≡ [] }
    {
        Block {
            features: Vec::new(alloc),
            ends: Vec::new(alloc),
        }
    }

    /// A block without nodes that has room for so many nodes and arcs: until it has them it takes no more memory.
    /// Fails for want of memory alone.
    pub fn with_room(alloc: Global, nodes: usize, arcs: usize) -> Result<Block, Memory>
        ensures { IfOk result (λ block. block ≡ []) }
    {
        Ok(Block {
            features: Vec::with_capacity(alloc, arcs)?,
            ends: Vec::with_capacity(alloc, nodes)?,
        })
    }

    /// Puts a node with these arcs behind the others, and answers its offset. The attributes rise, and each `New`
    /// leads to a node that the block has. Fails for want of memory alone, and then the block is as before.
    pub fn add(&mut self, arcs: &[Feature]) -> Result<u32, Memory>
        requires rising { IsStrictlyIncreasing (attributes arcs.now) }
        requires below { AllBelow (length self.old) arcs.now }
        ensures ok { IfOk result (λ offset. (offset ≡ length self.old) × (self.new ≡ self.old ++ arcs.now ∷ [])) }
        ensures err { OnErr result (self.new ≡ self.old) }
    {
        let offset = self.ends.len();
        let end = self.features.len() + arcs.len();
        if offset >= u32::MAX as usize || end > u32::MAX as usize {
            return Err(AllocError);
        }
        self.ends.reserve(1)?;
        self.features.extend_from_slice(arcs)?;
        self.ends.push_reserved(end as u32);
        Ok(offset as u32)
    }

    /// Keeps the first so many nodes alone; all where there are no more.
    pub fn truncate(&mut self, nodes: u32)
        ensures { self.new ≡ take nodes self.old }
    {
        if nodes as usize >= self.ends.len() {
            return;
        }
        let arcs = start_of(&self.ends, nodes as usize);
        self.features.truncate(arcs as usize);
        self.ends.truncate(nodes as usize);
    }

    /// The number of nodes.
    pub fn len(&self) -> u32
        ensures len { result ≡ length self.now }
        ensures block { IsBlock self.now }
    {
        self.ends.len() as u32
    }

    /// The arcs of the node at this offset, which is below `len`.
    pub fn arcs(&self, offset: u32) -> &[Feature]
        requires { offset < length self.now }
        ensures { result.now ≡ slice_index_or self.now offset [] }
    {
        piece(&self.features, &self.ends, offset as usize)
    }

    /// Puts the block's arcs and its nodes' ends behind others. Fails for want of memory alone, and then these are as
    /// before.
    pub(crate) fn append_to(
        &self,
        features: &mut Vec<Feature>,
        ends: &mut Vec<u32>,
    ) -> Result<(), Memory>
        requires { AreEndsOf features.old.items ends.old.items }
        ensures ok { OnOk result (IsAppended self.now features.old.items ends.old.items features.new.items ends.new.items) }
        ensures arcs { OnErr result (features.new.items ≡ features.old.items) }
        ensures ends { OnErr result (ends.new.items ≡ ends.old.items) }
    {
        let before = features.len();
        if before + self.features.len() > u32::MAX as usize
            || ends.len() + self.ends.len() > u32::MAX as usize
        {
            return Err(AllocError);
        }
        ends.reserve(self.ends.len())?;
        features.extend_from_slice(&self.features)?;
        for end in &self.ends {
            ends.push_reserved(before as u32 + *end);
        }
        Ok(())
    }
}

/// The n-th piece of a list that is cut at these ends.
pub(crate) fn piece<'a, T>(items: &'a [T], ends: &[u32], n: usize) -> &'a [T]
    requires ends { AreEndsOf items.now ends.now }
    requires inside { n < length ends.now }
    ensures { result.now ≡ slice_index_or (cut items.now 0 ends.now) n [] }
{
    between(items, start_of(ends, n) as usize, ends[n] as usize)
}

/// The members from one place on and before another.
fn between<T>(items: &[T], start: usize, end: usize) -> &[T]
    requires { start ≤ end × end ≤ length items.now }
    ensures { result.now ≡ slice_range items.now start end }
{
    &items[start..end]
}

/// Where the n-th piece of a list begins that is cut at these ends.
pub(crate) fn start_of(ends: &[u32], n: usize) -> u32
    requires { n < length ends.now }
    ensures { result ≡ begin 0 ends.now n }
{
    if n == 0 { 0 } else { ends[n - 1] }
}
