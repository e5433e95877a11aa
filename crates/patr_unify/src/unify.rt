//! Deciding and copying in one.
ghost use Rattle.std.specs.Prelude.{◌≡◌, ◌≢◌, ◌+◌, None, IfNone, IfOk, IfSome, OnOk};
ghost use Rattle.patr_model.specs.Structure.{Node, Structure, at};
ghost use Rattle.patr_model.specs.Subsumption.{TakesBoth};
ghost use Rattle.patr_arena.specs.Paths.{ids};
ghost use Rattle.patr_arena.specs.Shown.{IsHeld, ValueIsHeld, number_of, value_of};
ghost use Rattle.patr_scratch.specs.Contents.{KeepsRoom};
ghost use Rattle.patr_unify.specs.Copying.{IsMade};
ghost use Rattle.patr_unify.specs.Deciding.{HasDecisionRoom};

use crate::build::{Made, copy};
use crate::count::Steps;
use crate::reach::reserve_for;
use crate::solve::{Decision, decide};
use patr_arena::{Addr, Id, Memory, Nodes, Value};
use patr_scratch::Scratch;
use std::alloc::Global;
use std::sync::ledger::Ledger;

/// The unifier of the value at `path` of the node `left` with `right`, or `None` exactly where no structure takes both
/// sides. Both are held, and the path is defined. It takes the room that it needs in `scratch`, and fails for want of
/// memory alone. Whatever it answers, no room of the scratch is smaller than before, and where it does not fail the room
/// that it needed is there afterwards.
pub fn unify_at<N: Nodes, L: Ledger>(
    alloc: Global,
    nodes: &N,
    left: Addr,
    path: &[Id],
    right: Value,
    scratch: &mut Scratch,
    steps: &mut Steps<L>,
) -> Result<Option<Made>, Memory>
    requires left { IsHeld (N.shown nodes.now) left.block left.offset }
    requires right { ValueIsHeld (N.shown nodes.now) right }
    requires path { at (N.shown nodes.now).structure (Node (number_of (N.shown nodes.now) left.block left.offset)) (ids path.now) ≢ None }
    ensures some { IfOk result (λ found. IfSome found (λ made. IsMade (N.shown nodes.now) (number_of (N.shown nodes.now) left.block left.offset) (ids path.now) (value_of (N.shown nodes.now) right) made.block made.root made.nodes made.arcs)) }
    ensures none { IfOk result (λ found. IfNone found ((G : Structure) (g : _) → TakesBoth (N.shown nodes.now).structure (Node (number_of (N.shown nodes.now) left.block left.offset)) (ids path.now) (N.shown nodes.now).structure (value_of (N.shown nodes.now) right) G g → ⊥)) }
    ensures steps { IfOk result (λ _. steps.new ≡ steps.old + 1) }
    ensures kept { KeepsRoom scratch.old scratch.new }
    ensures room { OnOk result (HasDecisionRoom (N.shown nodes.now) scratch.new
        (number_of (N.shown nodes.now) left.block left.offset)
        (value_of (N.shown nodes.now) right)) }
{
    reserve_for(alloc, nodes, left, right, scratch)?;
    match decide(nodes, left, path, right, scratch, steps) {
        Decision::NoUnifier => Ok(None),
        Decision::Solvable => {
            let made = copy(alloc, nodes, left, scratch)?;
            Ok(Some(made))
        }
    }
}
