//! How much two sides reach, and the room for it.
ghost use Rattle.std.specs.Prelude.{◌≡◌, ◌++◌, ◌*◌, ◌≤◌, IfOk, OnOk, length};
ghost use Rattle.patr_model.specs.Structure.{Node, arcs_of};
ghost use Rattle.patr_arena.specs.Shown.{IsHeld, ValueIsHeld, number_of, value_of};
ghost use Rattle.patr_scratch.specs.Contents.{IsBlank, KeepsRoom};
ghost use Rattle.patr_unify.specs.Deciding.{Counts, HasDecisionRoom};
ghost use Rattle.patr_unify.specs.Counting.{IsLookedAt, ValuesHeld, seen_in, targets, values};

use crate::walk::same_visit;
use patr_arena::{Addr, Nodes, Value};
use patr_scratch::{Memory, Scratch, Side, Visit};
use std::alloc::{AllocError, Global};

/// How many nodes a value reaches, and how many arcs these nodes have.
#[derive(Clone, Copy)]
pub(crate) struct Reach {
    pub(crate) nodes: u64,
    pub(crate) arcs: u64,
}

/// Takes the room that `decide` needs for these two sides, and drops all marks. `left` and `right` are held. Fails for
/// want of memory alone, and then no room is smaller than before.
///
/// It goes over what each side reaches, in time in proportion to these nodes and their arcs.
pub fn reserve_for<N: Nodes>(
    alloc: Global,
    nodes: &N,
    left: Addr,
    right: Value,
    scratch: &mut Scratch,
) -> Result<(), Memory>
    requires left { IsHeld (N.shown nodes.now) left.block left.offset }
    requires right { ValueIsHeld (N.shown nodes.now) right }
    ensures kept { KeepsRoom scratch.old scratch.new }
    ensures blank { OnOk result (IsBlank scratch.new) }
    ensures room { OnOk result (HasDecisionRoom (N.shown nodes.now) scratch.new (number_of (N.shown nodes.now) left.block left.offset) (value_of (N.shown nodes.now) right)) }
{
    let table = nodes.count();
    scratch.reserve(table, 0, 0)?;
    let left_reach = reachable(alloc, nodes, Value::Node(left), scratch)?;
    let right_reach = reachable(alloc, nodes, right, scratch)?;
    let visits = left_reach
        .nodes
        .checked_add(right_reach.nodes)
        .ok_or(AllocError)?;
    let arcs = left_reach
        .arcs
        .checked_add(right_reach.arcs)
        .ok_or(AllocError)?;
    scratch.reserve(table, visits, arcs)
}

/// How many nodes the value reaches, and how many arcs these have. The value is held, and the scratch has room for each
/// node. It drops all marks, and marks each node that it comes to. Fails for want of memory alone.
pub(crate) fn reachable<N: Nodes>(
    alloc: Global,
    nodes: &N,
    from: Value,
    scratch: &mut Scratch,
) -> Result<Reach, Memory>
    requires from { ValueIsHeld (N.shown nodes.now) from }
    requires table { 2 * length (N.shown nodes.now).structure ≤ length scratch.old.places }
    ensures counts { IfOk result (λ reach. Counts (N.shown nodes.now).structure (value_of (N.shown nodes.now) from) reach.nodes reach.arcs) }
    ensures room { KeepsRoom scratch.old scratch.new }
{
    scratch.begin();
    let mut waiting = Vec::new(alloc);
    waiting.push(from)?;
    let mut reach = Reach { nodes: 0, arcs: 0 };
    while let Some(value) = waiting.pop() {
        reach = look_at(nodes, scratch, &mut waiting, value, reach)?;
    }
    Ok(reach)
}

/// Looks at one value. If it is a node that was not seen, it is counted, and what its arcs lead to waits. Answers what was
/// counted so far. Fails for want of memory alone.
fn look_at<N: Nodes>(
    nodes: &N,
    scratch: &mut Scratch,
    waiting: &mut Vec<Value>,
    value: Value,
    reach: Reach,
) -> Result<Reach, Memory>
    requires value { ValueIsHeld (N.shown nodes.now) value }
    requires waiting { ValuesHeld (N.shown nodes.now) waiting.old.items }
    requires table { 2 * length (N.shown nodes.now).structure ≤ length scratch.old.places }
    ensures looked { IfOk result (λ new. IsLookedAt (N.shown nodes.now) (seen_in scratch.old) (seen_in scratch.new) value waiting.old.items waiting.new.items reach new) }
    ensures room { KeepsRoom scratch.old scratch.new }
{
    let Value::Node(at) = value else {
        return Ok(reach);
    };
    let number = nodes.number(at);
    if !same_visit(scratch.visit(Side::Left, number), Visit::Unseen) {
        return Ok(reach);
    }
    scratch.set_visit(Side::Left, number, Visit::Left);
    let arcs = push_targets(nodes, waiting, at)?;
    Ok(Reach {
        nodes: reach.nodes.checked_add(1).ok_or(AllocError)?,
        arcs: reach.arcs.checked_add(arcs).ok_or(AllocError)?,
    })
}

/// Lets what each arc of the node leads to wait. Answers how many arcs it has. Fails for want of memory alone.
fn push_targets<N: Nodes>(nodes: &N, waiting: &mut Vec<Value>, at: Addr) -> Result<u64, Memory>
    requires at { IsHeld (N.shown nodes.now) at.block at.offset }
    requires waiting { ValuesHeld (N.shown nodes.now) waiting.old.items }
    ensures targets { OnOk result (values (N.shown nodes.now) waiting.new.items ≡ values (N.shown nodes.now) waiting.old.items ++ targets (arcs_of (N.shown nodes.now).structure (Node (number_of (N.shown nodes.now) at.block at.offset)))) }
    ensures held { OnOk result (ValuesHeld (N.shown nodes.now) waiting.new.items) }
    ensures arcs { IfOk result (λ arcs. arcs ≡ length (arcs_of (N.shown nodes.now).structure (Node (number_of (N.shown nodes.now) at.block at.offset)))) }
{
    let arcs = nodes.arcs(at);
    for arc in arcs {
        waiting.push(nodes.resolve(at.block, arc.to))?;
    }
    Ok(arcs.len() as u64)
}
