//! The marks of a unification: a table, stacks of arc cells, pairs and visits, and the order in which a walk leaves places.
ghost use Rattle.std.specs.Prelude.{◌≡◌, ◌≢◌, ◌<◌, ◌≤◌, ◌∷◌, ◌++◌, ℕ, [], IfOk, MatchOption, Some, None, get_or, length, true};
ghost use Rattle.patr_scratch.specs.Linked.{first_of, last_or};
ghost use Rattle.patr_scratch.specs.Contents.{HasPlace, HasCell, HasRoom, IsArcOf, IsBlank, IsCell, KeepsRoom, no_room, begun, first_cell, marks, put, with_arc, with_moved};

use crate::arc::ArcCell;
use crate::packed::Ends;
use crate::stack::Stack;
use crate::table::Table;
use crate::{Added, Copied, Memory, Place, Side, Target, Visit};
use std::alloc::{AllocError, Global};
use std::marker::Model;
use std::mem::size_of;

/// The marks of a unification, in room that `reserve` took. A place takes 32 bytes on each side, an added arc 28, a pair
/// 32, a visit 12 and a place that a walk has left 12.
///
/// A call that takes a side and a number speaks of the place with this number on this side. Condition: the number is
/// below the `table` that room was taken for.
#[derive(Drop)]
pub struct Scratch {
    table: Table,
    arcs: Stack<ArcCell>,
    pairs: Stack<(Target, Target)>,
    visits: Stack<Place>,
    order: Stack<Place>,
    goes_first: Side,
}

impl Model for Scratch {
    ghost use Rattle.patr_scratch.specs.Contents.{Contents};

    ghost Value = { Contents };

    ghost use Rattle.patr_scratch.specs.Linked.{IsLinked, contents_of};

    ghost view = { λ scratch. contents_of scratch.table scratch.arcs scratch.pairs scratch.visits
        scratch.order };

    ghost invariant = { λ scratch. IsLinked scratch.table scratch.arcs.list };
}

/// The first cell of a list.
fn first_of(added: Option<Ends>) -> Option<u32>
    ensures { result ≡ first_of added }
{
    match added {
        None => None,
        Some(ends) => Some(ends.first),
    }
}

/// The last cell of a list, or `cell` where there is none.
fn last_or(added: Option<Ends>, cell: u32) -> u32
    ensures { result ≡ last_or added cell }
{
    match added {
        None => cell,
        Some(ends) => ends.last,
    }
}

/// The number of a cell, as callers see it.
fn seen(cell: Option<u32>) -> Option<u64>
    ensures { result ≡ cell }
{
    match cell {
        None => None,
        Some(cell) => Some(u64::from(cell)),
    }
}

/// A count of visits or added arcs, where there can be so many.
fn narrow(count: u64) -> Result<u32, Memory>
    ensures { IfOk result (λ narrow. narrow ≡ count) }
{
    u32::try_from(count).map_err(|_| AllocError)
}

impl Scratch {
    /// A scratch without marks and without room. It takes no memory.
    pub fn new(alloc: Global) -> Scratch
        ensures { result ≡ no_room }
    {
        Scratch::with_stamp(alloc, 1)
    }

    /// The same, whose first generation has the number `stamp`, which is at least 1.
    pub fn with_stamp(alloc: Global, stamp: u32) -> Scratch
        requires { 1 ≤ stamp }
        ensures { result ≡ no_room }
    {
        Scratch {
            table: Table::with_stamp(alloc, stamp),
            arcs: Stack::new(alloc),
            pairs: Stack::new(alloc),
            visits: Stack::new(alloc),
            order: Stack::new(alloc),
            goes_first: Side::Right,
        }
    }

    /// The side whose place is forwarded where either of two places may be: what `set_goes_first` set last, and the
    /// right side at first. No mark depends on it.
    pub fn goes_first(&self) -> Side {
        self.goes_first
    }

    /// Says which side's place is forwarded where either of two places may be. It stays so when a generation begins.
    pub fn set_goes_first(&mut self, side: Side)
        ensures { self.new ≡ self.old }
    {
        self.goes_first = side;
    }

    /// Takes room for places numbered below `table` on each side, for `nodes` visits, as many places that a walk leaves,
    /// `arcs` added arcs and `arcs + 1` pairs. It drops all of these and all marks. Fails for want of memory alone, and
    /// then no room is smaller than before. There is never room for 2^32 visits or pairs.
    pub fn reserve(&mut self, table: u64, nodes: u64, arcs: u64) -> Result<(), Memory>
        ensures blank { IsBlank self.new }
        ensures kept { KeepsRoom self.old self.new }
        ensures room { IfOk result (λ _. HasRoom self.new table nodes arcs) }
    {
        self.begin();
        let slots = table.checked_mul(2).ok_or(AllocError)?;
        let visits = narrow(nodes)?;
        let arcs = narrow(arcs)?;
        let pairs = arcs.checked_add(1).ok_or(AllocError)?;
        self.table.reserve(slots as usize)?;
        self.visits.reserve(visits, NO_PLACE)?;
        self.order.reserve(visits, NO_PLACE)?;
        self.arcs.reserve(arcs, ArcCell::BLANK)?;
        self.pairs.reserve(pairs, (NO_TARGET, NO_TARGET))
    }

    /// Whether there is the room that `reserve` takes.
    fn has_room(&self, table: u64, nodes: u64, arcs: u64) -> bool
        ensures { result ≡ true → HasRoom self.now table nodes arcs }
    {
        table <= (self.table.len() / 2) as u64
            && nodes <= u64::from(self.visits.room())
            && nodes <= u64::from(self.order.room())
            && arcs <= u64::from(self.arcs.room())
            && arcs < u64::from(self.pairs.room())
    }

    /// Takes the room that `reserve` takes, where some of it is missing. Only then marks are dropped. Fails for want of
    /// memory alone. No room is smaller than before.
    pub fn make_room(&mut self, table: u64, nodes: u64, arcs: u64) -> Result<(), Memory>
        ensures kept { KeepsRoom self.old self.new }
        ensures room { IfOk result (λ _. HasRoom self.new table nodes arcs) }
    {
        if self.has_room(table, nodes, arcs) {
            return Ok(());
        }
        self.reserve(table, nodes, arcs)
    }

    /// Goes to the next generation: no place has a mark, and all added arcs, pairs, visits and places that were left are
    /// given up. It keeps the room, and costs nothing but once in each 2^32 - 1 generations, when every place is cleared.
    pub fn begin(&mut self)
        ensures { self.new ≡ begun self.old }
    {
        self.table.begin();
        self.arcs.clear();
        self.pairs.clear();
        self.visits.clear();
        self.order.clear();
    }

    /// Where the place is forwarded to. `None` exactly where this generation set no forward there.
    pub fn forward(&self, side: Side, number: u64) -> Option<Target>
        requires { HasPlace self.now side number }
        ensures { result ≡ (marks self.now side number).forward }
    {
        self.table.get(self.table.slot(side, number)).forward()
    }

    /// Forwards the place to `to`.
    pub fn set_forward(&mut self, side: Side, number: u64, to: Target)
        requires { HasPlace self.old side number }
        ensures { self.new ≡ put self.old side number (record (marks self.old side number) { forward = Some to }) }
    {
        let slot = self.table.slot(side, number);
        self.table.set_forward(slot, to);
    }

    /// The cell of the place's first added arc. `None` exactly where it has none.
    pub fn first_arc(&self, side: Side, number: u64) -> Option<u64>
        requires { HasPlace self.now side number }
        ensures { result ≡ first_cell (marks self.now side number).added }
    {
        seen(first_of(self.table.get(self.table.slot(side, number)).added()))
    }

    /// The arc in a cell, and the cell of the next arc of the same place. Condition: the cell is in the list of some
    /// place, as those are that `first_arc` and the arcs of the list lead to.
    pub fn arc_at(&self, cell: u64) -> Added
        requires { IsCell self.now cell }
        ensures { (s : _) (n : ℕ) → HasPlace self.now s n → HasCell (marks self.now s n).added cell → IsArcOf (marks self.now s n).added cell result }
    {
        let held = self.arcs.get(cell as usize);
        Added {
            attribute: held.attribute,
            to: held.to,
            next: seen(held.next),
        }
    }

    /// Adds an arc to the place, in front of its other added arcs. Condition: there is room for one more arc.
    pub fn add_arc(&mut self, side: Side, number: u64, attribute: u32, to: Target)
        requires place { HasPlace self.old side number }
        requires room { self.old.arcs < self.old.arc_room }
        ensures { self.new ≡ with_arc self.old side number attribute to }
    {
        let slot = self.table.slot(side, number);
        let added = self.table.get(slot).added();
        let cell = self.arcs.len();
        let next = first_of(added);
        let last = last_or(added, cell);
        self.arcs.push(ArcCell {
            attribute,
            to,
            next,
        });
        self.table.set_added(slot, Some(Ends { first: cell, last }));
    }

    /// Puts the first place's added arcs before those of the second. The first place has none then. It takes no room.
    /// Condition: the two places are not one.
    pub fn move_arcs(&mut self, from_side: Side, from: u64, to_side: Side, to: u64)
        requires from { HasPlace self.old from_side from }
        requires to { HasPlace self.old to_side to }
        requires apart { from_side ≡ to_side → from ≢ to }
        ensures { self.new ≡ with_moved self.old from_side from to_side to }
    {
        let from_slot = self.table.slot(from_side, from);
        let to_slot = self.table.slot(to_side, to);
        let source = self.table.get(from_slot).added();
        let Some(moved) = source else {
            return;
        };
        let target = self.table.get(to_slot).added();
        let next = first_of(target);
        let last = last_or(target, moved.last);
        let joint = self.arcs.get(moved.last as usize);
        self.arcs
            .set(moved.last as usize, ArcCell { next, ..joint });
        let first = moved.first;
        self.table.set_added(to_slot, Some(Ends { first, last }));
        self.table.set_added(from_slot, None);
    }

    /// What the place was copied to. `None` exactly where this generation set no copy there.
    pub fn copy_of(&self, side: Side, number: u64) -> Option<Copied>
        requires { HasPlace self.now side number }
        ensures { result ≡ (marks self.now side number).copied }
    {
        self.table.get(self.table.slot(side, number)).copied()
    }

    /// Says what the place was copied to.
    pub fn set_copy(&mut self, side: Side, number: u64, made: Copied)
        requires { HasPlace self.old side number }
        ensures { self.new ≡ put self.old side number (record (marks self.old side number) { copied = Some made }) }
    {
        let slot = self.table.slot(side, number);
        self.table.set_copied(slot, made);
    }

    /// What this generation last set as the place's visit, and `Unseen` where it set none.
    pub fn visit(&self, side: Side, number: u64) -> Visit
        requires { HasPlace self.now side number }
        ensures { result ≡ (marks self.now side number).visit }
    {
        self.table.get(self.table.slot(side, number)).visit()
    }

    /// Says how far a walk is with the place.
    pub fn set_visit(&mut self, side: Side, number: u64, state: Visit)
        requires { HasPlace self.old side number }
        ensures { self.new ≡ put self.old side number (record (marks self.old side number) { visit = state }) }
    {
        let slot = self.table.slot(side, number);
        self.table.set_visit(slot, state);
    }

    /// Puts a pair on the stack of pairs. Condition: there is room for one more.
    pub fn push_pair(&mut self, a: Target, b: Target)
        requires { length self.old.pairs < self.old.pair_room }
        ensures { self.new ≡ record self.old { pairs = self.old.pairs ++ (a, b) ∷ [] } }
    {
        self.pairs.push((a, b));
    }

    /// Takes the pair that was pushed last. `None` exactly where there is none.
    pub fn pop_pair(&mut self) -> Option<(Target, Target)>
        ensures rest { self.new ≡ record self.old { pairs = self.new.pairs } }
        ensures last { MatchOption result ((self.old.pairs ≡ []) × (self.new.pairs ≡ [])) (λ pair. self.old.pairs ≡ self.new.pairs ++ pair ∷ []) }
    {
        self.pairs.pop()
    }

    /// Puts a place on the stack of visits. Condition: there is room for one more.
    pub fn push_visit(&mut self, at: Place)
        requires { length self.old.visits < self.old.visit_room }
        ensures { self.new ≡ record self.old { visits = self.old.visits ++ at ∷ [] } }
    {
        self.visits.push(at);
    }

    /// Takes the place that was pushed last. `None` exactly where there is none.
    pub fn pop_visit(&mut self) -> Option<Place>
        ensures rest { self.new ≡ record self.old { visits = self.new.visits } }
        ensures last { MatchOption result ((self.old.visits ≡ []) × (self.new.visits ≡ [])) (λ at. self.old.visits ≡ self.new.visits ++ at ∷ []) }
    {
        self.visits.pop()
    }

    /// Puts a place behind those that a walk has left. Condition: there is room for one more.
    pub fn push_order(&mut self, at: Place)
        requires { length self.old.order < self.old.order_room }
        ensures { self.new ≡ record self.old { order = self.old.order ++ at ∷ [] } }
    {
        self.order.push(at);
    }

    /// How many places a walk has left.
    pub fn order_len(&self) -> u32
        ensures { result ≡ length self.now.order }
    {
        self.order.len()
    }

    /// The place that a walk has left behind so many others.
    pub fn order_at(&self, index: u32) -> Place
        requires { index < length self.now.order }
        ensures { result ≡ get_or self.now.order index result }
    {
        self.order.get(index as usize)
    }
}

// What fills room that is not used yet.
const NO_TARGET: Target = Target::Atom(0);

const NO_PLACE: Place = Place {
    side: Side::Left,
    block: 0,
    offset: 0,
};

// A visit takes 12 bytes, and a pair 32.
const _: () = prove!(size_of::<Place>() == 12);

const _: () = prove!(size_of::<(Target, Target)>() == 32);
