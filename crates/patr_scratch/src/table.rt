//! A cell of marks for each place, the two sides' places taking turns; a mark stands only in the generation that set it.
ghost use Rattle.std.specs.Prelude.{◌≡◌, ◌<◌, ◌≤◌, ◌-◌, ◌++◌, [], IfOk, Some, length, set};
ghost use Rattle.patr_scratch.specs.Marks.{mark_at, no_marks, unpacked};
ghost use Rattle.patr_scratch.specs.Stamps.{mark_of};
ghost use Rattle.patr_scratch.specs.Contents.{slot};

use crate::packed::{Ends, PackedMark};
use crate::{Copied, Memory, Side, Target, Visit};
use std::alloc::Global;
use std::marker::Model;
use std::mem::size_of;

/// A mark, and the generation that set it: generation 0 set none.
#[derive(Clone, Copy)]
struct Cell {
    stamp: u32,
    mark: PackedMark,
}

// A place takes 32 bytes.
const _: () = prove!(size_of::<Cell>() == 32);

impl Cell {
    /// A cell that no generation has written.
    const BLANK: Cell = Cell {
        stamp: 0,
        mark: PackedMark::BLANK,
    };

    /// Makes it a cell of this generation, which has what the generation set there.
    fn renew(&mut self, stamp: u32)
        ensures stamp { self.new.stamp ≡ stamp }
        ensures mark { unpacked self.new.mark ≡ mark_of stamp self.old }
    {
        if self.stamp != stamp {
            *self = Cell {
                stamp,
                mark: PackedMark::BLANK,
            };
        }
    }
}

/// Marks for the places of both sides, which take turns.
#[derive(Drop)]
pub(crate) struct Table {
    cells: Vec<Cell>,
    stamp: u32,
}

impl Model for Table {
    ghost use Rattle.std.specs.Prelude.{ℕ, List};
    ghost use Rattle.patr_scratch.specs.Marks.{Mark};

    ghost Value = { List Mark };

    ghost use Rattle.patr_scratch.specs.Stamps.{marks_of, IsStamped};

    ghost view = { λ table. marks_of table.stamp table.cells.items };

    ghost invariant = { λ table. IsStamped table.stamp table.cells.items };
}

impl Table {
    /// A table without room, in the generation `stamp`.
    pub(crate) fn with_stamp(alloc: Global, stamp: u32) -> Table
        requires { 1 ≤ stamp }
        ensures { result ≡ [] }
    {
        Table {
            cells: Vec::new(alloc),
            stamp,
        }
    }

    /// Goes to the next generation, in which no mark is set. After the last one their numbers begin anew, and then
    /// every cell is cleared.
    pub(crate) fn begin(&mut self)
        ensures { self.new ≡ no_marks (length self.old) }
    {
        self.stamp = self.stamp.checked_add(1).unwrap_or(1);
        let begins_anew = self.stamp == 1;
        if begins_anew {
            self.cells.fill(Cell::BLANK);
        }
    }

    /// The index of a place.
    pub(crate) fn slot(&self, side: Side, number: u64) -> usize
        requires { slot side number < length self.now }
        ensures { result ≡ slot side number }
    {
        // The table's length is a `usize`, and so is every index below it.
        let _length = self.cells.len();
        match side {
            Side::Left => 2 * number as usize,
            Side::Right => 2 * number as usize + 1,
        }
    }

    /// For how many places of both sides there is room.
    pub(crate) fn len(&self) -> usize
        ensures { result ≡ length self.now }
    {
        self.cells.len()
    }

    /// What this generation set there.
    pub(crate) fn get(&self, slot: usize) -> &PackedMark
        requires { slot < length self.now }
        ensures { unpacked result.now ≡ mark_at self.now slot }
    {
        let cell = &self.cells[slot];
        if cell.stamp == self.stamp {
            &cell.mark
        } else {
            &PackedMark::BLANK
        }
    }

    /// Sets the ends of a list of added arcs in this generation, and keeps what else it set there.
    pub(crate) fn set_added(&mut self, slot: usize, added: Option<Ends>)
        requires { slot < length self.old }
        ensures { self.new ≡ set self.old slot
            (record (mark_at self.old slot) { added = added }) }
    {
        let cell = &mut self.cells[slot];
        cell.renew(self.stamp);
        cell.mark.set_added(added);
    }

    /// Sets a forward in this generation, and keeps what else it set there.
    pub(crate) fn set_forward(&mut self, slot: usize, to: Target)
        requires { slot < length self.old }
        ensures { self.new ≡ set self.old slot
            (record (mark_at self.old slot) { forward = Some to }) }
    {
        let cell = &mut self.cells[slot];
        cell.renew(self.stamp);
        cell.mark.set_forward(to);
    }

    /// Sets a copy in this generation, and keeps what else it set there.
    pub(crate) fn set_copied(&mut self, slot: usize, made: Copied)
        requires { slot < length self.old }
        ensures { self.new ≡ set self.old slot
            (record (mark_at self.old slot) { copied = Some made }) }
    {
        let cell = &mut self.cells[slot];
        cell.renew(self.stamp);
        cell.mark.set_copied(made);
    }

    /// Sets a visit in this generation, and keeps what else it set there.
    pub(crate) fn set_visit(&mut self, slot: usize, state: Visit)
        requires { slot < length self.old }
        ensures { self.new ≡ set self.old slot
            (record (mark_at self.old slot) { visit = state }) }
    {
        let cell = &mut self.cells[slot];
        cell.renew(self.stamp);
        cell.mark.set_visit(state);
    }

    /// Takes room for at least so many places. The new ones have no mark. Fails for want of memory alone, and then the
    /// table is as before.
    pub(crate) fn reserve(&mut self, room: usize) -> Result<(), Memory>
        ensures marks { self.new ≡ self.old ++ no_marks (length self.new - length self.old) }
        ensures room { IfOk result (λ _. room ≤ length self.new) }
    {
        if self.cells.len() < room {
            self.cells.resize(room, Cell::BLANK)?;
        }
        Ok(())
    }
}
