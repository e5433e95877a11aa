//! Unequal atoms at one attribute, which two places can't have in common.
ghost use Rattle.std.specs.Prelude.{◌≡◌, true};
ghost use Rattle.patr_marks.specs.Machine.{HaveTwoAtoms, own};
ghost use Rattle.patr_marks.specs.Sides.{sides};
ghost use Rattle.patr_arena.specs.Shown.{IsHeld};
ghost use Rattle.patr_unify.specs.Reading.{AreTwoAtoms, key};

use crate::ends::address;
use patr_arena::{Feature, Nodes, Ref};
use patr_scratch::Place;

/// Whether the two have one attribute, and lead to unequal atoms.
fn are_two_atoms(first: Feature, second: Feature) -> bool
    ensures { result ≡ true → AreTwoAtoms first second }
{
    let Ref::Atom(one) = first.to else {
        return false;
    };
    let Ref::Atom(other) = second.to else {
        return false;
    };
    first.attribute.0 == second.attribute.0 && one.0 != other.0
}

/// Looks for an attribute by which an own arc of each place leads to an atom, and the atoms are unequal. Attributes rise,
/// so one pass over both lists is enough. A merge would find them only behind all other pairs.
pub(crate) fn atoms_differ<N: Nodes>(nodes: &N, first: Place, second: Place) -> bool
    requires first { IsHeld (N.shown nodes.now) first.block first.offset }
    requires second { IsHeld (N.shown nodes.now) second.block second.offset }
    ensures { result ≡ true → HaveTwoAtoms
        (own (sides (N.shown nodes.now).structure) (key (N.shown nodes.now) first))
        (own (sides (N.shown nodes.now).structure) (key (N.shown nodes.now) second)) }
{
    let ones = nodes.arcs(address(first));
    let others = nodes.arcs(address(second));
    let mut i = 0;
    let mut j = 0;
    while i < ones.len() && j < others.len() {
        let one = ones[i];
        let other = others[j];
        if are_two_atoms(one, other) {
            return true;
        }
        if one.attribute.0 < other.attribute.0 {
            i += 1;
        } else {
            j += 1;
        }
    }
    false
}
