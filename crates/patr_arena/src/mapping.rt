//! Whether one value maps into another.
ghost use Rattle.std.specs.Prelude.{◌≡◌, ◌↔◌, IfOk, IsTrue};
ghost use Rattle.patr_model.specs.Subsumption.{MapsInto};
ghost use Rattle.patr_arena.specs.Mapping.{HasPushed, ImagesAreHeld, IsSettled, PairsAreHeld};
ghost use Rattle.patr_arena.specs.Shown.{IsHeld, ValueIsHeld, number_of, value_of};

use crate::nodes::Nodes;
use crate::path::follow;
use crate::value::{Addr, Value};
use patr_text::Memory;
use std::alloc::Global;
use std::collections::HashMap;

/// Whether the first value maps into the second (subsumes it). Both are held. Fails for want of memory alone.
///
/// The work stands in a list of pairs and a table of images, and each node gets its image once. So it takes time
/// in proportion to the nodes and arcs that the first value reaches, apart from the search for an arc's attribute.
pub fn maps_into<N: Nodes>(alloc: Global, nodes: &N, from: Value, to: Value) -> Result<bool, Memory>
    requires from { ValueIsHeld (N.shown nodes.now) from }
    requires to { ValueIsHeld (N.shown nodes.now) to }
    ensures { IfOk result (λ answer. IsTrue answer ↔ MapsInto (N.shown nodes.now).structure (value_of (N.shown nodes.now) from) (N.shown nodes.now).structure (value_of (N.shown nodes.now) to)) }
{
    let mut images = HashMap::new(alloc);
    let mut waiting = Vec::new(alloc);
    waiting.push((from, to))?;
    while let Some((left, right)) = waiting.pop() {
        if !settle(nodes, &mut images, &mut waiting, left, right)? {
            return Ok(false);
        }
    }
    Ok(true)
}

/// Looks at one pair: the first value has to map to the second. Answers `false` where it can't. Else the pairs of
/// a node's arcs wait, if the node has no image yet. Fails for want of memory alone.
fn settle<N: Nodes>(
    nodes: &N,
    images: &mut HashMap<u64, Value>,
    waiting: &mut Vec<(Value, Value)>,
    left: Value,
    right: Value,
) -> Result<bool, Memory>
    requires left { ValueIsHeld (N.shown nodes.now) left }
    requires right { ValueIsHeld (N.shown nodes.now) right }
    requires images { ImagesAreHeld (N.shown nodes.now) images.old }
    requires pairs { PairsAreHeld (N.shown nodes.now) waiting.old.items }
    ensures { IfOk result (λ goes_on. IsSettled (N.shown nodes.now) images.old images.new left right waiting.old.items waiting.new.items goes_on) }
{
    match left {
        Value::Atom(_) => Ok(is_same(left, right)),
        Value::Node(at) => match images.insert(nodes.number(at), right)? {
            Some(image) => Ok(is_same(image, right)),
            None => Ok(push_arcs(nodes, waiting, at, right)?),
        },
    }
}

/// Whether the two are one value.
fn is_same(left: Value, right: Value) -> bool
    ensures { IsTrue result ↔ (left ≡ right) }
{
    left == right
}

/// Lets each arc of the node wait with the arc of the same attribute that the value has. Answers `false` where the
/// value lacks one. Fails for want of memory alone.
fn push_arcs<N: Nodes>(
    nodes: &N,
    waiting: &mut Vec<(Value, Value)>,
    at: Addr,
    value: Value,
) -> Result<bool, Memory>
    requires at { IsHeld (N.shown nodes.now) at.block at.offset }
    requires value { ValueIsHeld (N.shown nodes.now) value }
    requires pairs { PairsAreHeld (N.shown nodes.now) waiting.old.items }
    ensures { IfOk result (λ all. HasPushed (N.shown nodes.now) (number_of (N.shown nodes.now) at.block at.offset) value waiting.old.items waiting.new.items all) }
{
    for arc in nodes.arcs(at) {
        let Some(to) = follow(nodes, value, arc.attribute) else {
            return Ok(false);
        };
        waiting.push((nodes.resolve(at.block, arc.to), to))?;
    }
    Ok(true)
}
