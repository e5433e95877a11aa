//! Values at the ends of paths.
ghost use Rattle.std.specs.Prelude.{◌≡◌};
ghost use Rattle.std.specs.List.Sorted.{IsStrictlyIncreasing};
ghost use Rattle.patr_model.specs.Structure.{arc, at};
ghost use Rattle.patr_arena.specs.Blocks.{attributes};
ghost use Rattle.patr_arena.specs.Paths.{FoundIsHeld, feature_to, found_of, ids};
ghost use Rattle.patr_arena.specs.Shown.{ValueIsHeld, value_of};

use crate::nodes::Nodes;
use crate::value::{Feature, Ref, Value};
use patr_text::Id;

/// Where the arc with this attribute leads, of arcs whose attributes rise.
fn find_arc(arcs: &[Feature], attribute: Id) -> Option<Ref>
    requires { IsStrictlyIncreasing (attributes arcs.now) }
    ensures { result ≡ feature_to arcs.now attribute.0 }
{
    // The arcs of a node of slots have the attributes 0, 1, 2, ..
    if let Some(arc) = arcs.get(attribute.0 as usize) {
        if arc.attribute == attribute {
            return Some(arc.to);
        }
    }
    match arcs.binary_search_by_key(&attribute.0, |arc| arc.attribute.0) {
        Ok(place) => Some(arcs[place].to),
        Err(_) => None,
    }
}

/// Where the value's arc with this attribute leads, or `None` exactly where it has none. The value is held.
pub(crate) fn follow<N: Nodes>(nodes: &N, value: Value, attribute: Id) -> Option<Value>
    requires { ValueIsHeld (N.shown nodes.now) value }
    ensures same { found_of (N.shown nodes.now) result ≡ arc (N.shown nodes.now).structure (value_of (N.shown nodes.now) value) attribute.0 }
    ensures held { FoundIsHeld (N.shown nodes.now) result }
{
    match value {
        Value::Atom(_) => None,
        Value::Node(at) => match find_arc(nodes.arcs(at), attribute) {
            Some(to) => Some(nodes.resolve(at.block, to)),
            None => None,
        },
    }
}

/// The value at the end of a path from a value that is held, or `None` exactly where the path is undefined.
pub fn resolve_path<N: Nodes>(nodes: &N, from: Value, path: &[Id]) -> Option<Value>
    requires { ValueIsHeld (N.shown nodes.now) from }
    ensures same { found_of (N.shown nodes.now) result ≡ at (N.shown nodes.now).structure (value_of (N.shown nodes.now) from) (ids path.now) }
    ensures held { FoundIsHeld (N.shown nodes.now) result }
{
    let mut value = from;
    for attribute in path {
        value = follow(nodes, value, *attribute)?;
    }
    Some(value)
}
