//! How far a walk has looked over the arcs of a place.
ghost use Rattle.std.specs.Prelude.{◌≡◌, ◌<◌, length};
ghost use Rattle.patr_unify.specs.Walking.{IsPutOn, IsTakenFrom, StandsFor, added_at, cursor_of};

use patr_scratch::{Place, Scratch, Target};

/// Where the arcs of a place begin that a walk has not looked over. The added arcs come behind the place's own.
#[derive(Clone, Copy)]
pub(crate) enum Cursor {
    /// At the own arc with this number.
    Own(usize),
    /// At the added arc in this cell.
    Added(u64),
    /// Behind the last arc.
    Behind,
}

/// At the added arc in this cell, or behind the last one.
pub(crate) fn at_added(cell: Option<u64>) -> Cursor
    ensures { result ≡ added_at cell }
{
    match cell {
        Some(cell) => Cursor::Added(cell),
        None => Cursor::Behind,
    }
}

/// At the first arc.
pub(crate) const FIRST: Cursor = Cursor::Own(0);

/// The pair that stands for how far the arcs of `top` were looked over. A place has at most 2^32 own arcs, since their
/// attributes differ, and there are fewer than 2^32 cells: so each number fits. If one did not, the arcs would be looked
/// over once more.
fn to_pair(from: Cursor, top: Place) -> (Target, Target)
    ensures { StandsFor result from }
{
    match from {
        Cursor::Own(index) => match u32::try_from(index) {
            Ok(index) => (Target::Atom(index), Target::Place(top)),
            Err(_) => (Target::Atom(0), Target::Place(top)),
        },
        Cursor::Added(cell) => match u32::try_from(cell) {
            Ok(cell) => (Target::Place(top), Target::Atom(cell)),
            Err(_) => (Target::Atom(0), Target::Place(top)),
        },
        Cursor::Behind => (Target::Place(top), Target::Place(top)),
    }
}

/// What a pair stands for.
fn from_pair(pair: (Target, Target)) -> Cursor
    ensures { result ≡ cursor_of pair }
{
    match pair.0 {
        Target::Atom(index) => Cursor::Own(index as usize),
        Target::Place(_) => match pair.1 {
            Target::Atom(cell) => Cursor::Added(u64::from(cell)),
            Target::Place(_) => Cursor::Behind,
        },
    }
}

/// Puts on the stack of pairs how far the arcs of `top` were looked over.
pub(crate) fn pause(from: Cursor, top: Place, scratch: &mut Scratch)
    requires { length scratch.old.pairs < scratch.old.pair_room }
    ensures rest { scratch.new ≡ record scratch.old { pairs = scratch.new.pairs } }
    ensures put { IsPutOn scratch.old.pairs scratch.new.pairs from }
{
    let pair = to_pair(from, top);
    scratch.push_pair(pair.0, pair.1);
}

/// Takes from the stack of pairs how far the arcs were looked over of the place that the walk comes back to.
pub(crate) fn take_up(scratch: &mut Scratch) -> Cursor
    ensures rest { scratch.new ≡ record scratch.old { pairs = scratch.new.pairs } }
    ensures taken { IsTakenFrom scratch.old.pairs scratch.new.pairs result }
{
    match scratch.pop_pair() {
        Some(pair) => from_pair(pair),
        None => FIRST,
    }
}
