//! The copy of a unifier: the ends that `decide` has put in order, each behind those that its arcs lead to.
ghost use Rattle.std.specs.Prelude.{◌≡◌, ◌<◌, ◌∷◌, ◌++◌, [], ℕ, List, IfOk, length};
ghost use Rattle.patr_arena.specs.Shown.{IsHeld, number_of};
ghost use Rattle.patr_unify.specs.Copying.{CopiesFit, HasCopied, HasFinished, IsCopyMarked, IsMade};
ghost use Rattle.patr_unify.specs.Deciding.{IsSettledFor};
ghost use Rattle.patr_unify.specs.Reading.{AreHeld, key};
ghost use Rattle.patr_unify.specs.Walking.{AllEnd, stack_of};
ghost use Rattle.patr_scratch.specs.Contents.{KeepsRoom};

use crate::draft::Draft;
use crate::ends::{address, number};
use crate::keep::{end_ref, may_stay};
use crate::merged_arcs::merged_arcs;
use crate::walk::left_target;
use patr_arena::{Addr, Block, Memory, Nodes, Ref};
use patr_scratch::{Copied, Place, Scratch};
use std::alloc::{AllocError, Global};

/// A unifier.
#[derive(Drop)]
pub struct Made {
    /// Its new nodes.
    pub block: Block,
    /// Its root: `Old` where the whole left side stays as it is.
    pub root: Ref,
    /// How many nodes are reached from the root.
    pub nodes: u64,
    /// How many arcs these nodes have.
    pub arcs: u64,
}

/// Says what the place was copied to.
fn mark_copy<N: Nodes>(nodes: &N, place: Place, made: Copied, scratch: &mut Scratch)
    requires place { IsHeld (N.shown nodes.now) place.block place.offset }
    requires held { AreHeld (N.shown nodes.now) scratch.old }
    ensures { IsCopyMarked (N.shown nodes.now) scratch.old scratch.new (key (N.shown nodes.now) place) made }
{
    scratch.set_copy(place.side, number(nodes, place), made);
}

/// Copies an end all of whose arcs lead to ends that were copied: it stays, or it gets a new node.
fn finish<N: Nodes>(
    nodes: &N,
    top: Place,
    scratch: &mut Scratch,
    draft: &mut Draft,
) -> Result<(), Memory>
    requires top { IsHeld (N.shown nodes.now) top.block top.offset }
    requires held { AreHeld (N.shown nodes.now) scratch.old }
    requires ending { AllEnd (N.shown nodes.now) scratch.old }
    requires copies { CopiesFit (N.shown nodes.now) (length draft.old.block) scratch.old }
    ensures finished { IfOk result (λ _. HasFinished (N.shown nodes.now) scratch.old scratch.new top draft.old draft.new) }
    ensures room { KeepsRoom scratch.old scratch.new }
{
    draft.nodes = draft.nodes.checked_add(1).ok_or(AllocError)?;
    if may_stay(nodes, scratch, top) {
        let count = nodes.arcs(address(top)).len();
        draft.arcs = draft.arcs.checked_add(count as u64).ok_or(AllocError)?;
        let kept = Copied::Old {
            block: top.block,
            offset: top.offset,
        };
        mark_copy(nodes, top, kept, scratch);
        return Ok(());
    }
    merged_arcs(nodes, scratch, top, &mut draft.features)?;
    let count = draft.features.len();
    draft.arcs = draft.arcs.checked_add(count as u64).ok_or(AllocError)?;
    let offset = draft.block.add(&draft.features)?;
    mark_copy(nodes, top, Copied::New(offset), scratch);
    Ok(())
}

/// Copies all ends that arcs of ends lead to from the left side, in the order in which the walk of `decide` has left them.
fn copy_ends<N: Nodes>(alloc: Global, nodes: &N, scratch: &mut Scratch) -> Result<Draft, Memory>
    requires settled { (l : ℕ) × (p : List ℕ) × (r : _) × (l < length (N.shown nodes.now).structure)
        × IsSettledFor (N.shown nodes.now) scratch.old l p r }
    ensures copied { (l : ℕ) (p : List ℕ) (r : _) → l < length (N.shown nodes.now).structure
        → IsSettledFor (N.shown nodes.now) scratch.old l p r → IfOk result (λ draft.
        HasCopied (N.shown nodes.now) scratch.old scratch.new l r draft.block draft.nodes draft.arcs
        (stack_of (N.shown nodes.now) scratch.old.order)) }
    ensures room { KeepsRoom scratch.old scratch.new }
{
    let mut draft = Draft {
        block: Block::new(alloc),
        features: Vec::new(alloc),
        nodes: 0,
        arcs: 0,
    };
    for index in 0..scratch.order_len() {
        let end = scratch.order_at(index);
        finish(nodes, end, scratch, &mut draft)?;
    }
    Ok(draft)
}

/// Makes the unifier that the marks in `scratch` stand for, after a [`crate::decide`] that answered `Solvable` for this
/// `left`. The unifier's nodes are those that were there and, behind them, its block. Fails for want of memory alone.
///
/// An untouched node keeps its place: one that no other node was made one with, below which there is none either, and,
/// on the right side, whose place is no node of the left side. Each node of the block is reached from the root.
///
/// Whatever it answers, no room of the scratch is smaller than before.
pub fn copy<N: Nodes>(
    alloc: Global,
    nodes: &N,
    left: Addr,
    scratch: &mut Scratch,
) -> Result<Made, Memory>
    requires left { IsHeld (N.shown nodes.now) left.block left.offset }
    requires settled { (p : List ℕ) × (r : _) × IsSettledFor (N.shown nodes.now) scratch.old (number_of (N.shown nodes.now) left.block left.offset) p r }
    ensures made { (p : List ℕ) (r : _) → IsSettledFor (N.shown nodes.now) scratch.old (number_of (N.shown nodes.now) left.block left.offset) p r → IfOk result (λ made. IsMade (N.shown nodes.now) (number_of (N.shown nodes.now) left.block left.offset) p r made.block made.root made.nodes made.arcs) }
    ensures room { KeepsRoom scratch.old scratch.new }
{
    let draft = copy_ends(alloc, nodes, scratch)?;
    let root = end_ref(nodes, scratch, left_target(left));
    Ok(Made {
        block: draft.block,
        root,
        nodes: draft.nodes,
        arcs: draft.arcs,
    })
}
