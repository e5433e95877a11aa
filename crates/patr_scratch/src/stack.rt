//! A stack in a vector of full length with a count of its items, so that a push takes no memory.
ghost use Rattle.std.specs.Prelude.{◌≡◌, ◌<◌, ◌≤◌, ◌∷◌, ◌++◌, [], IfOk, MatchOption, get_or, length, set};
ghost use Rattle.patr_scratch.specs.WithRoom.{WithRoom};

use crate::Memory;
use std::alloc::Global;
use std::marker::Model;

/// Items in room that was taken before, so that a push takes no memory. It has room for fewer than 2^32 items.
#[derive(Drop)]
pub(crate) struct Stack<T: Copy + Drop> {
    /// As many as there is room for. Those that are not used hold anything.
    items: Vec<T>,
    used: u32,
}

impl<T: Copy + Drop> Model for Stack<T> {
    ghost use Rattle.std.specs.Prelude.{◌≤◌, ◌<◌, ◌^◌, length, take};
    ghost use Rattle.patr_scratch.specs.WithRoom.{WithRoom};

    ghost Value = { WithRoom T };

    ghost view = { λ stack. record { list = take stack.used stack.items.items; room = length stack.items.items } };

    ghost invariant = { λ stack. (stack.used ≤ length stack.items.items) × (length stack.items.items < 2 ^ 32) };
}

impl<T: Copy + Drop> Stack<T> {
    /// A stack without items and without room.
    pub(crate) fn new(alloc: Global) -> Stack<T>
        ensures { result ≡ record { list = []; room = 0 } }
    {
        Stack {
            items: Vec::new(alloc),
            used: 0,
        }
    }

    /// How many items there are.
    pub(crate) fn len(&self) -> u32
        ensures { result ≡ length self.now.list }
    {
        self.used
    }

    /// For how many items there is room.
    pub(crate) fn room(&self) -> u32
        ensures { result ≡ self.now.room }
    {
        self.items.len() as u32
    }

    /// Drops all items and keeps the room.
    pub(crate) fn clear(&mut self)
        ensures { self.new ≡ record { list = []; room = self.old.room } }
    {
        self.used = 0;
    }

    /// One more item, at the end.
    pub(crate) fn push(&mut self, item: T)
        requires { length self.old.list < self.old.room }
        ensures { self.new ≡ record { list = self.old.list ++ item ∷ []; room = self.old.room } }
    {
        self.items[self.used as usize] = item;
        self.used += 1;
    }

    /// Takes the last item. `None` exactly where there is none.
    pub(crate) fn pop(&mut self) -> Option<T>
        ensures room { self.new.room ≡ self.old.room }
        ensures last { MatchOption result ((self.old.list ≡ []) × (self.new.list ≡ [])) (λ item. self.old.list ≡ self.new.list ++ item ∷ []) }
    {
        if self.used == 0 {
            return None;
        }
        self.used -= 1;
        Some(self.items[self.used as usize])
    }

    /// The item at this place of the list, counted from 0.
    pub(crate) fn get(&self, at: usize) -> T
        requires { at < length self.now.list }
        ensures { result ≡ get_or self.now.list at result }
    {
        self.items[at]
    }

    /// Puts another item at this place of the list.
    pub(crate) fn set(&mut self, at: usize, item: T)
        requires { at < length self.old.list }
        ensures { self.new ≡ record { list = set self.old.list at item; room = self.old.room } }
    {
        self.items[at] = item;
    }

    /// Takes room for at least so many items; `filler` fills what is not used. Fails for want of memory alone, and
    /// then nothing changed.
    pub(crate) fn reserve(&mut self, room: u32, filler: T) -> Result<(), Memory>
        ensures list { self.new.list ≡ self.old.list }
        ensures kept { self.old.room ≤ self.new.room }
        ensures room { IfOk result (λ _. room ≤ self.new.room) }
    {
        if self.items.len() < room as usize {
            self.items.resize(room as usize, filler)?;
        }
        Ok(())
    }
}
