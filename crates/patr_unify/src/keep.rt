//! Which nodes stay where they are.
ghost use Rattle.std.specs.Prelude.{◌≡◌, ◌≢◌, ℕ, Some, length, true, false};
ghost use Rattle.patr_marks.specs.Machine.{own};
ghost use Rattle.patr_marks.specs.Settled.{covered};
ghost use Rattle.patr_marks.specs.Sides.{sides};
ghost use Rattle.patr_arena.specs.Blocks.{OldRefIsHeld};
ghost use Rattle.patr_arena.specs.Shown.{IsHeld, ValueIsHeld, value_of};
ghost use Rattle.patr_unify.specs.Copying.{AllLead, CopiesFit, Fits, IsEndRef, IsKeptOrNot, IsOld, free_of, ref_to};
ghost use Rattle.patr_unify.specs.Reading.{AreHeld, TargetIsHeld, added_of, key, value_at};
ghost use Rattle.patr_unify.specs.Walking.{AllEnd, end_value};

use crate::ends::{End, address, dereference, number};
use crate::lists::{find_own, target_on};
use crate::walk::same_visit;
use patr_arena::{Addr, Id, Nodes, Ref, Value};
use patr_scratch::{Copied, Place, Scratch, Side, Target, Visit};

/// The arc that leads to the copy of the target's end. Condition: the end is an atom, or it was copied.
pub(crate) fn end_ref<N: Nodes>(nodes: &N, scratch: &Scratch, target: Target) -> Ref
    requires target { TargetIsHeld (N.shown nodes.now) target }
    requires held { AreHeld (N.shown nodes.now) scratch.now }
    requires ending { AllEnd (N.shown nodes.now) scratch.now }
    ensures same { IsEndRef (N.shown nodes.now) scratch.now (end_value (N.shown nodes.now) scratch.now (value_at (N.shown nodes.now) target)) result }
    ensures fits { (size : ℕ) → CopiesFit (N.shown nodes.now) size scratch.now → Fits (N.shown nodes.now) size result }
{
    match dereference(nodes, scratch, target) {
        End::Atom(atom) => Ref::Atom(Id(atom)),
        End::Place(place, number) => match scratch.copy_of(place.side, number) {
            Some(made) => ref_to(made),
            None => Ref::Old(address(place)),
        },
    }
}

/// The arc that leads to a copy.
fn ref_to(made: Copied) -> Ref
    ensures { result ≡ ref_to made }
{
    match made {
        Copied::Old { block, offset } => Ref::Old(Addr { block, offset }),
        Copied::New(offset) => Ref::New(offset),
    }
}

/// Whether the two are the same.
fn same_ref(a: Ref, b: Ref) -> bool
    ensures same { result ≡ true → a ≡ b }
    ensures apart { result ≡ false → a ≢ b }
{
    a == b
}

/// Whether the arc leads to this value of the nodes that were there before.
fn is_old<N: Nodes>(nodes: &N, to: Ref, value: Value) -> bool
    requires to { OldRefIsHeld (N.shown nodes.now) to }
    requires value { ValueIsHeld (N.shown nodes.now) value }
    ensures same { result ≡ true → IsOld (N.shown nodes.now) to (value_of (N.shown nodes.now) value) }
    ensures apart { result ≡ false → IsOld (N.shown nodes.now) to (value_of (N.shown nodes.now) value) → ⊥ }
{
    match value {
        Value::Atom(atom) => same_ref(to, Ref::Atom(atom)),
        Value::Node(at) => same_ref(to, Ref::Old(at)),
    }
}

/// Whether each own arc of the place leads where it led before.
fn leads_as_before<N: Nodes>(nodes: &N, scratch: &Scratch, place: Place) -> bool
    requires place { IsHeld (N.shown nodes.now) place.block place.offset }
    requires held { AreHeld (N.shown nodes.now) scratch.now }
    requires ending { AllEnd (N.shown nodes.now) scratch.now }
    requires copies { (size : ℕ) × CopiesFit (N.shown nodes.now) size scratch.now }
    ensures { AllLead (N.shown nodes.now) scratch.now (own (sides (N.shown nodes.now).structure) (key (N.shown nodes.now) place)) result }
{
    let at = address(place);
    for feature in nodes.arcs(at) {
        let before = nodes.resolve(place.block, feature.to);
        let now = end_ref(nodes, scratch, target_on(place.side, before));
        if !is_old(nodes, now, before) {
            return false;
        }
    }
    true
}

/// Whether each added arc of the place has the attribute of one of its own arcs.
fn adds_nothing<N: Nodes>(nodes: &N, scratch: &Scratch, place: Place) -> bool
    requires place { IsHeld (N.shown nodes.now) place.block place.offset }
    requires held { AreHeld (N.shown nodes.now) scratch.now }
    ensures { result ≡ covered (added_of (N.shown nodes.now) scratch.now (key (N.shown nodes.now) place)) (own (sides (N.shown nodes.now).structure) (key (N.shown nodes.now) place)) }
{
    let number = number(nodes, place);
    let mut next = scratch.first_arc(place.side, number);
    while let Some(cell) = next {
        let arc = scratch.arc_at(cell);
        match find_own(nodes, place, arc.attribute) {
            Some(_) => next = arc.next,
            None => return false,
        }
    }
    true
}

/// Whether nothing else needs the place's address: it is of the left side, or no node of the left side has it.
fn is_free<N: Nodes>(nodes: &N, scratch: &Scratch, place: Place) -> bool
    requires place { IsHeld (N.shown nodes.now) place.block place.offset }
    requires held { AreHeld (N.shown nodes.now) scratch.now }
    ensures { result ≡ free_of (N.shown nodes.now) scratch.now (key (N.shown nodes.now) place) }
{
    match place.side {
        Side::Left => true,
        Side::Right => {
            let number = number(nodes, place);
            match scratch.forward(Side::Left, number) {
                Some(_) => false,
                None => same_visit(scratch.visit(Side::Left, number), Visit::Unseen),
            }
        }
    }
}

/// Whether an end may stay where it is: nothing else needs its address, it gets no new attribute, and its arcs lead
/// where they led before.
pub(crate) fn may_stay<N: Nodes>(nodes: &N, scratch: &Scratch, place: Place) -> bool
    requires place { IsHeld (N.shown nodes.now) place.block place.offset }
    requires held { AreHeld (N.shown nodes.now) scratch.now }
    requires ending { AllEnd (N.shown nodes.now) scratch.now }
    requires copies { (size : ℕ) × CopiesFit (N.shown nodes.now) size scratch.now }
    ensures { IsKeptOrNot (N.shown nodes.now) scratch.now (key (N.shown nodes.now) place) result }
{
    if !is_free(nodes, scratch, place) {
        return false;
    }
    if !adds_nothing(nodes, scratch, place) {
        return false;
    }
    leads_as_before(nodes, scratch, place)
}
