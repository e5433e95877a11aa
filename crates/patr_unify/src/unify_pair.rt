//! Pairs are worked off: two atoms, an atom and a place without arcs, or two places.
ghost use Rattle.std.specs.Prelude.{◌≡◌, ◌<◌, ◌≤◌, ℕ, [], List, Some, length, true, false};
ghost use Rattle.patr_model.specs.Structure.{Node, Structure, Value, IsValue, at};
ghost use Rattle.patr_model.specs.Subsumption.{TakesBoth};
ghost use Rattle.patr_marks.specs.Machine.{Forward};
ghost use Rattle.patr_arena.specs.Shown.{IsHeld};
ghost use Rattle.patr_scratch.specs.Contents.{KeepsRoom};
ghost use Rattle.patr_unify.specs.Reading.{AreHeld, PairsHeld, TargetIsHeld, key};
ghost use Rattle.patr_unify.specs.Stepping.{BareOrNot, BoundOrNot, Covers, HasLog, IsRunning, IsSteady, MergesFit, Outcome};

use crate::clash::atoms_differ;
use crate::ends::{End, address, dereference, number};
use crate::merge::merge;
use patr_arena::Nodes;
use patr_scratch::{Place, Scratch, Side, Target};

/// Whether the two are the same place of the same side.
fn same_place(a: Place, b: Place) -> bool
    ensures yes { result ≡ true → a ≡ b }
    ensures no { a ≡ b → result ≡ true }
{
    a == b
}

/// Whether `first` is the one to be forwarded; no promise rests on it. Of two places at one address the right side's:
/// otherwise the node could not stay where it is. Else the one with fewer own arcs, and of two with equally many that
/// of the side that the scratch names.
fn goes_first<N: Nodes>(nodes: &N, scratch: &Scratch, first: Place, second: Place) -> bool
    requires first { IsHeld (N.shown nodes.now) first.block first.offset }
    requires second { IsHeld (N.shown nodes.now) second.block second.offset }
{
    if address(first) == address(second) {
        return first.side == Side::Right;
    }
    let of_first = nodes.arcs(address(first)).len();
    let of_second = nodes.arcs(address(second)).len();
    of_first < of_second || (of_first == of_second && first.side == scratch.goes_first())
}

/// Whether the place has neither an own nor an added arc.
fn is_bare<N: Nodes>(nodes: &N, scratch: &Scratch, place: Place) -> bool
    requires place { IsHeld (N.shown nodes.now) place.block place.offset }
    requires held { AreHeld (N.shown nodes.now) scratch.now }
    ensures { BareOrNot (N.shown nodes.now) scratch.now (key (N.shown nodes.now) place) result }
{
    let own = nodes.arcs(address(place)).len();
    if own > 0 {
        return false;
    }
    match scratch.first_arc(place.side, number(nodes, place)) {
        Some(_) => false,
        None => true,
    }
}

/// The place becomes the atom, if it has no arc.
fn bind<N: Nodes>(nodes: &N, place: Place, atom: u32, scratch: &mut Scratch) -> bool
    requires place { IsHeld (N.shown nodes.now) place.block place.offset }
    requires held { AreHeld (N.shown nodes.now) scratch.old }
    ensures { BoundOrNot (N.shown nodes.now) scratch.old scratch.new place atom result }
{
    if !is_bare(nodes, scratch, place) {
        return false;
    }
    scratch.set_forward(place.side, number(nodes, place), Target::Atom(atom));
    true
}

/// Works off a pair that was popped: its ends become one. False exactly where no structure takes the pair.
pub(crate) fn unify_pair<N: Nodes>(nodes: &N, a: Target, b: Target, scratch: &mut Scratch) -> bool
    requires a { TargetIsHeld (N.shown nodes.now) a }
    requires b { TargetIsHeld (N.shown nodes.now) b }
    requires held { AreHeld (N.shown nodes.now) scratch.old }
    requires pairs_held { PairsHeld (N.shown nodes.now) scratch.old.pairs }
    requires log { (log : List Forward) × HasLog (N.shown nodes.now) scratch.old log × (length log ≤ scratch.old.pair_room) × MergesFit (N.shown nodes.now) scratch.old log a b }
    ensures steady { IsSteady (N.shown nodes.now) scratch.old scratch.new }
    ensures outcome { (log : List Forward) → HasLog (N.shown nodes.now) scratch.old log → Outcome (N.shown nodes.now) scratch.old scratch.new log a b result }
{
    match dereference(nodes, scratch, a) {
        End::Atom(atom) => match dereference(nodes, scratch, b) {
            End::Atom(other) => atom == other,
            End::Place(place, _) => bind(nodes, place, atom, scratch),
        },
        End::Place(first, _) => match dereference(nodes, scratch, b) {
            End::Atom(atom) => bind(nodes, first, atom, scratch),
            End::Place(second, _) => {
                if same_place(first, second) {
                    return true;
                }
                if atoms_differ(nodes, first, second) {
                    return false;
                }
                if goes_first(nodes, scratch, first, second) {
                    merge(nodes, first, second, scratch);
                } else {
                    merge(nodes, second, first, scratch);
                }
                true
            }
        },
    }
}

/// Works off all pairs. False exactly where nothing takes both sides.
pub(crate) fn unify_pairs<N: Nodes>(nodes: &N, scratch: &mut Scratch) -> bool
    requires { (l : ℕ) × (r : Value) × (target : Value) × (ks : List ℕ) × Covers (N.shown nodes.now) l r ks × IsRunning (N.shown nodes.now) scratch.old l r target ks }
    ensures done { result ≡ true → (l : ℕ) (r target : Value) (ks : List ℕ) → Covers (N.shown nodes.now) l r ks → IsRunning (N.shown nodes.now) scratch.old l r target ks → IsRunning (N.shown nodes.now) scratch.new l r target ks × (scratch.new.pairs ≡ []) }
    ensures clash { result ≡ false → (l : ℕ) (r target : Value) (ks : List ℕ) → Covers (N.shown nodes.now) l r ks → IsRunning (N.shown nodes.now) scratch.old l r target ks → (p : List ℕ) → l < length (N.shown nodes.now).structure → IsValue (N.shown nodes.now).structure target → at (N.shown nodes.now).structure (Node l) p ≡ Some target → (G : Structure) (g : Value) → TakesBoth (N.shown nodes.now).structure (Node l) p (N.shown nodes.now).structure r G g → ⊥ }
    ensures room { KeepsRoom scratch.old scratch.new }
{
    while let Some((a, b)) = scratch.pop_pair() {
        if !unify_pair(nodes, a, b, scratch) {
            return false;
        }
    }
    true
}
