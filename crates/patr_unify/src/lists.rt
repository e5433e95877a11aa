//! Reading the arcs of a place: its own, and then the added ones.
ghost use Rattle.std.specs.Prelude.{◌≡◌, [], length, false};
ghost use Rattle.patr_model.specs.Structure.{along};
ghost use Rattle.patr_marks.specs.Machine.{has_attribute, own};
ghost use Rattle.patr_marks.specs.Sides.{sides};
ghost use Rattle.patr_arena.specs.Shown.{IsHeld, RefIsHeld, ref_of};
ghost use Rattle.patr_scratch.specs.Contents.{EndsOrHas, HasPlace, after, marks};
ghost use Rattle.patr_unify.specs.Merging.{IsFoundInOwn, both};
ghost use Rattle.patr_unify.specs.Reading.{AreHeld, OptionIsHeld, TargetIsHeld, added_of, has_link, key, link_to, option_at, target_on, value_at, value_on};

use crate::ends::{address, number};
use patr_arena::{Id, Nodes, Ref, Value, resolve_path};
use patr_scratch::{Place, Scratch, Side, Target};

/// Whether the list from this cell on has an arc with the attribute. The cell is one of the place's list.
pub(crate) fn listed(
    scratch: &Scratch,
    side: Side,
    number: u64,
    cell: Option<u64>,
    attribute: u32,
) -> bool
    requires place { HasPlace scratch.now side number }
    requires cell { EndsOrHas (marks scratch.now side number).added cell }
    ensures { result ≡ has_link (after (marks scratch.now side number).added cell) attribute }
{
    let mut next = cell;
    while let Some(at) = next {
        let arc = scratch.arc_at(at);
        if arc.attribute == attribute {
            return true;
        }
        next = arc.next;
    }
    false
}

/// Where the place's first added arc with the attribute leads.
pub(crate) fn find_added(
    scratch: &Scratch,
    side: Side,
    number: u64,
    attribute: u32,
) -> Option<Target>
    requires { HasPlace scratch.now side number }
    ensures { result ≡ link_to (marks scratch.now side number).added attribute }
{
    let mut next = scratch.first_arc(side, number);
    while let Some(at) = next {
        let arc = scratch.arc_at(at);
        if arc.attribute == attribute {
            return Some(arc.to);
        }
        next = arc.next;
    }
    None
}

/// The target of a value of one side.
pub(crate) fn target_on(side: Side, value: Value) -> Target
    ensures { result ≡ target_on side value }
{
    match value {
        Value::Atom(atom) => Target::Atom(atom.0),
        Value::Node(at) => Target::Place(Place {
            side,
            block: at.block,
            offset: at.offset,
        }),
    }
}

/// Where an own arc of the place leads.
pub(crate) fn own_target<N: Nodes>(nodes: &N, place: Place, to: Ref) -> Target
    requires { RefIsHeld (N.shown nodes.now) place.block to }
    ensures same { value_at (N.shown nodes.now) result ≡ value_on place.side (length (N.shown nodes.now).structure) (ref_of (N.shown nodes.now) place.block to) }
    ensures held { TargetIsHeld (N.shown nodes.now) result }
{
    target_on(place.side, nodes.resolve(place.block, to))
}

/// Where the place's own arc with the attribute leads.
pub(crate) fn find_own<N: Nodes>(nodes: &N, place: Place, attribute: u32) -> Option<Target>
    requires { IsHeld (N.shown nodes.now) place.block place.offset }
    ensures same { option_at (N.shown nodes.now) result ≡ along (own (sides (N.shown nodes.now).structure) (key (N.shown nodes.now) place)) attribute }
    ensures held { OptionIsHeld (N.shown nodes.now) result }
{
    match resolve_path(nodes, Value::Node(address(place)), &[Id(attribute)]) {
        Some(value) => Some(target_on(place.side, value)),
        None => None,
    }
}

/// Whether the place has an added arc.
pub(crate) fn is_extended<N: Nodes>(nodes: &N, scratch: &Scratch, place: Place) -> bool
    requires place { IsHeld (N.shown nodes.now) place.block place.offset }
    requires held { AreHeld (N.shown nodes.now) scratch.now }
    ensures { result ≡ false →
        added_of (N.shown nodes.now) scratch.now (key (N.shown nodes.now) place) ≡ [] }
{
    match scratch.first_arc(place.side, number(nodes, place)) {
        Some(_) => true,
        None => false,
    }
}

/// Where the place's first arc with the attribute leads, of its own arcs and then of the added ones. These are looked
/// through only where the place is said to be extended.
pub(crate) fn find<N: Nodes>(
    nodes: &N,
    scratch: &Scratch,
    place: Place,
    attribute: u32,
    extended: bool,
) -> Option<Target>
    requires place { IsHeld (N.shown nodes.now) place.block place.offset }
    requires held { AreHeld (N.shown nodes.now) scratch.now }
    requires extended { extended ≡ false →
        IsFoundInOwn (N.shown nodes.now) scratch.now (key (N.shown nodes.now) place) attribute }
    ensures same { option_at (N.shown nodes.now) result
        ≡ along (both (N.shown nodes.now) scratch.now (key (N.shown nodes.now) place)) attribute }
    ensures held { OptionIsHeld (N.shown nodes.now) result }
{
    match find_own(nodes, place, attribute) {
        Some(target) => Some(target),
        None => {
            if extended {
                return find_added(scratch, place.side, number(nodes, place), attribute);
            }
            None
        }
    }
}

/// Whether the place has an added arc with the attribute. They are looked through only where the place is said to be
/// extended.
pub(crate) fn has_added<N: Nodes>(
    nodes: &N,
    scratch: &Scratch,
    place: Place,
    attribute: u32,
    extended: bool,
) -> bool
    requires place { IsHeld (N.shown nodes.now) place.block place.offset }
    requires held { AreHeld (N.shown nodes.now) scratch.now }
    requires extended { extended ≡ false →
        added_of (N.shown nodes.now) scratch.now (key (N.shown nodes.now) place) ≡ [] }
    ensures { result ≡ has_attribute
        (added_of (N.shown nodes.now) scratch.now (key (N.shown nodes.now) place)) attribute }
{
    if !extended {
        return false;
    }
    let number = number(nodes, place);
    let first = scratch.first_arc(place.side, number);
    listed(scratch, place.side, number, first, attribute)
}
