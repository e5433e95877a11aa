//! One place becomes another: the forward, and what the arcs of both come to.
ghost use Rattle.std.specs.Prelude.{◌≡◌, ◌+◌, ◌<◌, ◌≤◌, [], false, length};
ghost use Rattle.patr_model.specs.Structure.{along};
ghost use Rattle.patr_marks.specs.Machine.{matches};
ghost use Rattle.patr_arena.specs.Shown.{IsHeld};
ghost use Rattle.patr_unify.specs.Merging.{CanMerge, IsFoundInOwn, IsGiven, IsMerged, IsPushed, IsTaken, both, one_pair};
ghost use Rattle.patr_scratch.specs.Contents.{EndsOrHas, HasPlace, after, marks};
ghost use Rattle.patr_unify.specs.Reading.{AreHeld, PairsHeld, TargetIsHeld, added_of, has_link, key, value_at};

use crate::ends::{address, number};
use crate::lists::{find, has_added, is_extended, listed, own_target};
use patr_arena::Nodes;
use patr_scratch::{Added, Place, Scratch, Side, Target};

/// An arc is given to `to`, unless a later one has its attribute. Where `to` has the attribute, both targets are pushed
/// as a pair. The added arcs of `to` are looked through if it is `extended`.
fn give_arc<N: Nodes>(
    nodes: &N,
    to: Place,
    attribute: u32,
    target: Target,
    later: bool,
    extended: bool,
    scratch: &mut Scratch,
)
    requires to { IsHeld (N.shown nodes.now) to.block to.offset }
    requires target { TargetIsHeld (N.shown nodes.now) target }
    requires held { AreHeld (N.shown nodes.now) scratch.old }
    requires pairs_held { PairsHeld (N.shown nodes.now) scratch.old.pairs }
    requires pair_room { length scratch.old.pairs
        + length (one_pair later
        (along (both (N.shown nodes.now) scratch.old (key (N.shown nodes.now) to)) attribute)
        (value_at (N.shown nodes.now) target))
        ≤ scratch.old.pair_room }
    requires arc_room { scratch.old.arcs < scratch.old.arc_room }
    requires extended { extended ≡ false →
        IsFoundInOwn (N.shown nodes.now) scratch.old (key (N.shown nodes.now) to) attribute }
    ensures { IsGiven (N.shown nodes.now) scratch.old scratch.new later
        (key (N.shown nodes.now) to) attribute (value_at (N.shown nodes.now) target) }
{
    if later {
        return;
    }
    match find(nodes, scratch, to, attribute, extended) {
        Some(other) => scratch.push_pair(target, other),
        None => scratch.add_arc(to.side, number(nodes, to), attribute, target),
    }
}

/// All own arcs of `from` are given to `to`. Their attributes differ, so each can only meet an arc that `to` had before:
/// where it had no added ones, those that it gets are not looked through.
fn give_own<N: Nodes>(nodes: &N, from: Place, to: Place, scratch: &mut Scratch)
    requires { CanMerge (N.shown nodes.now) scratch.old from to }
    ensures { IsTaken (N.shown nodes.now) scratch.old scratch.new
        (key (N.shown nodes.now) from) (key (N.shown nodes.now) to) [] }
{
    let from_extended = is_extended(nodes, scratch, from);
    let to_extended = is_extended(nodes, scratch, to);
    let at = address(from);
    for feature in nodes.arcs(at) {
        let attribute = feature.attribute.0;
        let later = has_added(nodes, scratch, from, attribute, from_extended);
        let target = own_target(nodes, from, feature.to);
        give_arc(nodes, to, attribute, target, later, to_extended, scratch);
    }
}

/// An added arc of a place is paired with the arc of `to` that has its attribute, unless a later one has it too.
fn pair_arc<N: Nodes>(
    nodes: &N,
    side: Side,
    number: u64,
    to: Place,
    arc: Added,
    scratch: &mut Scratch,
)
    requires place { HasPlace scratch.old side number }
    requires cell { EndsOrHas (marks scratch.old side number).added arc.next }
    requires to { IsHeld (N.shown nodes.now) to.block to.offset }
    requires target { TargetIsHeld (N.shown nodes.now) arc.to }
    requires held { AreHeld (N.shown nodes.now) scratch.old }
    requires pairs_held { PairsHeld (N.shown nodes.now) scratch.old.pairs }
    requires room { length scratch.old.pairs + length (one_pair (has_link (after (marks scratch.old side number).added arc.next) arc.attribute) (along (both (N.shown nodes.now) scratch.old (key (N.shown nodes.now) to)) arc.attribute) (value_at (N.shown nodes.now) arc.to)) ≤ scratch.old.pair_room }
    ensures { IsPushed (N.shown nodes.now) scratch.old scratch.new (one_pair (has_link (after (marks scratch.old side number).added arc.next) arc.attribute) (along (both (N.shown nodes.now) scratch.old (key (N.shown nodes.now) to)) arc.attribute) (value_at (N.shown nodes.now) arc.to)) }
{
    if listed(scratch, side, number, arc.next, arc.attribute) {
        return;
    }
    match find(nodes, scratch, to, arc.attribute, true) {
        Some(other) => scratch.push_pair(arc.to, other),
        None => (),
    }
}

/// The added arcs of `from` are paired with the arcs of `to`.
fn pair_added<N: Nodes>(nodes: &N, from: Place, to: Place, scratch: &mut Scratch)
    requires from { IsHeld (N.shown nodes.now) from.block from.offset }
    requires to { IsHeld (N.shown nodes.now) to.block to.offset }
    requires held { AreHeld (N.shown nodes.now) scratch.old }
    requires pairs_held { PairsHeld (N.shown nodes.now) scratch.old.pairs }
    requires room { length scratch.old.pairs + length (matches (added_of (N.shown nodes.now) scratch.old (key (N.shown nodes.now) from)) (both (N.shown nodes.now) scratch.old (key (N.shown nodes.now) to))) ≤ scratch.old.pair_room }
    ensures { IsPushed (N.shown nodes.now) scratch.old scratch.new (matches (added_of (N.shown nodes.now) scratch.old (key (N.shown nodes.now) from)) (both (N.shown nodes.now) scratch.old (key (N.shown nodes.now) to))) }
{
    let number = number(nodes, from);
    let mut next = scratch.first_arc(from.side, number);
    while let Some(cell) = next {
        let arc = scratch.arc_at(cell);
        pair_arc(nodes, from.side, number, to, arc, scratch);
        next = arc.next;
    }
}

/// `from` is forwarded to `to`, which gets the arcs of both. Targets of one attribute are pushed as pairs.
pub(crate) fn merge<N: Nodes>(nodes: &N, from: Place, to: Place, scratch: &mut Scratch)
    requires { CanMerge (N.shown nodes.now) scratch.old from to }
    ensures { IsMerged (N.shown nodes.now) scratch.old scratch.new
        (key (N.shown nodes.now) from) (key (N.shown nodes.now) to) }
{
    give_own(nodes, from, to, scratch);
    pair_added(nodes, from, to, scratch);
    let source = number(nodes, from);
    let destination = number(nodes, to);
    scratch.move_arcs(from.side, source, to.side, destination);
    scratch.set_forward(from.side, source, Target::Place(to));
}
