//! Lists of numbers, each found by its place.
ghost use Rattle.std.specs.Prelude.{◌≡◌, ◌<◌, [], ℕ, get_or, if◌then◌else◌, length, replicate, IfOk, OnOk};
ghost use Rattle.patr_lists.specs.Tables.{with_number};

use crate::Memory;
use std::alloc::Global;
use std::marker::Model;

/// Lists of numbers, each found by its place. Contracts see the list of these lists.
#[derive(Drop)]
pub struct NumberLists {
    lists: Vec<Vec<u32>>,
}

impl Model for NumberLists {
    ghost use Rattle.patr_lists.specs.Tables.{Table, numbers};

    ghost Value = { Table };

    ghost view = { λ table. numbers table.lists.items };
}

impl NumberLists {
    /// As many empty lists.
    pub fn empty(alloc: Global, count: usize) -> Result<NumberLists, Memory>
        ensures { IfOk result (λ table. table ≡ replicate count []) }
    {
        let mut lists = Vec::with_capacity(alloc, count)?;
        for _ in 0..count {
            lists.push_reserved(Vec::new(alloc));
        }
        Ok(NumberLists { lists })
    }

    /// The list at a place; an empty one where there is none.
    pub fn list(&self, place: usize) -> &[u32]
        ensures { result.now ≡ get_or self.now place [] }
    {
        match self.lists.get(place) {
            Some(list) => list,
            None => &[],
        }
    }

    /// Puts empty lists behind the others, up to that of a place. Fails for want of memory alone.
    pub fn grow(&mut self, alloc: Global, place: usize) -> Result<(), Memory>
        ensures long { OnOk result (place < length self.new) }
        ensures same { (k : ℕ) → get_or self.new k [] ≡ get_or self.old k [] }
    {
        while self.lists.len() <= place {
            self.lists.push(Vec::new(alloc))?;
        }
        Ok(())
    }

    /// Puts a number behind the list at a place, or changes nothing where there is no room.
    pub fn put(&mut self, place: usize, number: u32) -> bool
        requires { place < length self.old }
        ensures { self.new ≡ (if result then with_number self.old place number else self.old) }
    {
        let list = &mut self.lists[place];
        if list.reserve(1).is_err() {
            return false;
        }
        list.push_reserved(number);
        true
    }
}
