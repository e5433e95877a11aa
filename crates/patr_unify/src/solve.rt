//! Whether two structures have a unifier: all pairs are worked off, then a walk looks for a circle.
ghost use Rattle.std.specs.Prelude.{◌≡◌, ◌≢◌, ◌+◌, None};
ghost use Rattle.patr_model.specs.Structure.{Node, Structure, at};
ghost use Rattle.patr_model.specs.Subsumption.{TakesBoth};
ghost use Rattle.patr_arena.specs.Paths.{ids};
ghost use Rattle.patr_arena.specs.Shown.{IsHeld, ValueIsHeld, number_of, value_of};
ghost use Rattle.patr_scratch.specs.Contents.{KeepsRoom};
ghost use Rattle.patr_unify.specs.declared.solve.Decision.TheVariants as decision;
ghost use Rattle.patr_unify.specs.Deciding.{HasDecisionRoom, IsSettledFor};

use crate::count::Steps;
use crate::lists::target_on;
use crate::unify_pair::unify_pairs;
use crate::walk::is_acyclic;
use patr_arena::{Addr, Id, Nodes, Value, resolve_path};
use patr_scratch::{Scratch, Side};
use std::sync::ledger::Ledger;

/// What a decision finds.
#[derive(Clone, Copy, Debug, PartialEq, Eq)]
pub enum Decision {
    /// There is a unifier.
    Solvable,
    /// No structure takes both sides.
    NoUnifier,
}

/// Whether the value at `path` of the node `left` has a unifier with `right`. Both are held, and the path is defined.
/// The two sides are taken as two, even where they share nodes.
///
/// It begins a new generation of `scratch` and takes no memory. The scratch has the room that `reserve(table, nodes,
/// arcs)` takes: `table` is the number of all nodes, `nodes` that of the nodes that are reached from `left` and of
/// those reached from `right`, and `arcs` the number of arcs of these nodes. A node on both sides counts twice. With
/// `Solvable` the marks in the scratch stand for a unifier, and [`crate::copy`] makes it from them.
///
/// It adds one to `steps`. Whatever it answers, no room of the scratch is smaller than before.
pub fn decide<N: Nodes, L: Ledger>(
    nodes: &N,
    left: Addr,
    path: &[Id],
    right: Value,
    scratch: &mut Scratch,
    steps: &mut Steps<L>,
) -> Decision
    requires left { IsHeld (N.shown nodes.now) left.block left.offset }
    requires right { ValueIsHeld (N.shown nodes.now) right }
    requires path { at (N.shown nodes.now).structure (Node (number_of (N.shown nodes.now) left.block left.offset)) (ids path.now) ≢ None }
    requires room { HasDecisionRoom (N.shown nodes.now) scratch.old (number_of (N.shown nodes.now) left.block left.offset) (value_of (N.shown nodes.now) right) }
    ensures solvable { result ≡ decision.Solvable → IsSettledFor (N.shown nodes.now) scratch.new (number_of (N.shown nodes.now) left.block left.offset) (ids path.now) (value_of (N.shown nodes.now) right) }
    ensures none { result ≡ decision.NoUnifier → (G : Structure) (g : _) → TakesBoth (N.shown nodes.now).structure (Node (number_of (N.shown nodes.now) left.block left.offset)) (ids path.now) (N.shown nodes.now).structure (value_of (N.shown nodes.now) right) G g → ⊥ }
    ensures steps { steps.new ≡ steps.old + 1 }
    ensures room { KeepsRoom scratch.old scratch.new }
{
    scratch.begin();
    steps.tick();
    let Some(target) = resolve_path(nodes, Value::Node(left), path) else {
        return Decision::NoUnifier;
    };
    let left_target = target_on(Side::Left, target);
    let right_target = target_on(Side::Right, right);
    scratch.push_pair(left_target, right_target);
    if !unify_pairs(nodes, scratch) {
        return Decision::NoUnifier;
    }
    if !is_acyclic(nodes, left, scratch) {
        return Decision::NoUnifier;
    }
    Decision::Solvable
}
