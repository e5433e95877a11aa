//! A desk whose tasks are drawn from one counter.
ghost use Rattle.std.specs.Prelude.{◌≡◌, ◌≢◌, ℕ, ◌<◌, ◌≤◌, ◌^◌, Bool, true, false, cond, List, [], ◌∷◌, ◌++◌, All, length, map, IfOk, IfSome, IfNone, MatchOption, vec_capacity};
ghost use Rattle.patr_claims.specs.Counting.{IsDraw};
ghost use Rattle.patr_claims.specs.Passes.{pass_view};
ghost use Rattle.patr_claims.specs.Tasks.{all_of, IsTaken, NoneTwice, EachBelow, NoneFrom};

use crate::Memory;
use crate::counting::{DeskRule, DeskSize, DrawTask};
use crate::desk::Desk;
use crate::passes::{JoinSeats, PassView, SplitSeat};
use atomic_table::{Seat, Table};
use std::alloc::Global;

type DeskTable = Table<(), PassView, DeskSize, DeskRule, Global>;

/// A desk whose tasks are drawn in rising order from one word, whoever draws.
#[derive(Drop)]
pub struct CounterDesk {
    table: DeskTable,
    tasks: u64,
    seats: u32,
    lists: Vec<Vec<u64>>,
    ghost key: { table.shared.key ≡ record { tasks = tasks; seats = seats } },
    ghost words: { table.shared.table_id.words ≡ 1 },
    ghost slots: { table.shared.table_id.slots ≡ 0 },
    ghost room: { (lists.items ≡ []) × (seats ≤ vec_capacity lists) × (0 < seats) },
}

/// A worker's place at a [`CounterDesk`]. Its list has room for each task.
#[derive(Drop)]
pub struct CounterSeat {
    pass: Seat<(), PassView>,
    tasks: u64,
    taken: Vec<u64>,
    seen_none: bool,
    ghost knows: { pass.me ≡ (pass_view tasks 1 taken.items (cond seen_none 1 0), []) },
    ghost room: { tasks ≤ vec_capacity taken },
}

impl CounterSeat {
    fn of(pass: Seat<(), PassView>, tasks: u64, taken: Vec<u64>) -> CounterSeat
        requires pass { pass.me ≡ (pass_view tasks 1 [] 0, []) }
        requires taken { (taken.items ≡ []) × (tasks ≤ vec_capacity taken) }
        ensures { (result.pass.table_id ≡ pass.table_id) × (result.tasks ≡ tasks) × (result.taken.items ≡ []) × (result.seen_none ≡ false) }
    {
        CounterSeat {
            pass,
            tasks,
            taken,
            seen_none: false,
        }
    }

    // Draws the next number, and puts it on the list if it is a task.
    fn draw(&mut self, table: &DeskTable) -> Option<u64>
        requires here { self.old.pass.table_id ≡ table.now.shared.table_id }
        requires word { table.now.shared.table_id.words ≡ 1 }
        requires before_none { self.old.seen_none ≡ false }
        ensures here { (self.new.pass.table_id ≡ self.old.pass.table_id) × (self.new.tasks ≡ self.old.tasks) }
        ensures task { IfSome result (λ n. IsTaken self.old.tasks n self.old.taken.items self.new.taken.items) }
        ensures going_on { IfSome result (λ _. self.new.seen_none ≡ false) }
        ensures end { IfNone result ((self.new.taken.items ≡ self.old.taken.items) × (self.new.seen_none ≡ true)) }
        ensures word { IsDraw self.old.pass.me.0 self.new.pass.me.0 result }
    {
        let task = table.shared.fetch_add::<DrawTask>(&mut self.pass, 0, 1);
        if task < self.tasks {
            self.taken.push_reserved(task);
            Some(task)
        } else {
            self.seen_none = true;
            None
        }
    }
}

// The seats that have come back: one pass that stands for them all, and their lists.
#[derive(Drop)]
struct Gathered {
    pass: Seat<(), PassView>,
    lists: Vec<Vec<u64>>,
    ghost knows: { pass.me ≡ (pass_view pass.me.0.tasks (length lists.items) (all_of (map (λ list. list.items) lists.items)) pass.me.0.notes, []) },
    ghost some_seat: { 0 < length lists.items },
}

impl Gathered {
    fn of(seat: CounterSeat, mut lists: Vec<Vec<u64>>) -> Gathered
        requires { (lists.items ≡ []) × (0 < vec_capacity lists) }
        ensures pass { (result.pass.table_id ≡ seat.pass.table_id) × (result.pass.me.0.notes ≡ cond seat.seen_none 1 0) }
        ensures lists { map (λ list. list.items) result.lists.items ≡ seat.taken.items ∷ [] }
        ensures room { vec_capacity result.lists ≡ vec_capacity lists }
    {
        let CounterSeat { pass, taken, .. } = seat;
        lists.push_reserved(taken);
        Gathered { pass, lists }
    }

    fn add(&mut self, table: &DeskTable, seat: CounterSeat)
        requires here { self.old.pass.table_id ≡ table.now.shared.table_id }
        requires seat { seat.pass.table_id ≡ table.now.shared.table_id }
        requires word { table.now.shared.table_id.words ≡ 1 }
        requires room { length self.old.lists.items < vec_capacity self.old.lists }
        ensures pass { (self.new.pass.table_id ≡ self.old.pass.table_id) × (self.old.pass.me.0.notes ≤ self.new.pass.me.0.notes) }
        ensures lists { map (λ list. list.items) self.new.lists.items ≡ map (λ list. list.items) self.old.lists.items ++ seat.taken.items ∷ [] }
        ensures room { vec_capacity self.new.lists ≡ vec_capacity self.old.lists }
    {
        let CounterSeat { pass, taken, .. } = seat;
        table.shared.join_seat::<JoinSeats>(&mut self.pass, pass);
        self.lists.push_reserved(taken);
    }

    // The lists of all seats.
    fn close(self, table: DeskTable) -> Vec<Vec<u64>>
        requires here { self.pass.table_id ≡ table.shared.table_id }
        requires all { length self.lists.items ≡ table.shared.key.seats }
        requires slots { table.shared.table_id.slots ≡ 0 }
        ensures lists { result ≡ self.lists }
        ensures once { NoneTwice (map (λ list. list.items) self.lists.items) }
        ensures no_other { NoneFrom table.shared.key.tasks (map (λ list. list.items) self.lists.items) }
        ensures every { 0 < self.pass.me.0.notes → EachBelow table.shared.key.tasks (map (λ list. list.items) self.lists.items) }
    {
        let Gathered { pass, lists } = self;
        table.close_with(pass).free();
        lists
    }
}

impl CounterDesk {
    /// A desk for these tasks, with its seats, which have taken nothing and have not seen None. All
    /// memory that the desk and its seats will need is taken here: each seat has room for every
    /// task. Fails for memory alone.
    pub fn new(
        alloc: Global,
        tasks: u64,
        seats: u32,
    ) -> Result<(CounterDesk, Vec<CounterSeat>), Memory>
        requires tasks { tasks < 2 ^ 63 }
        requires seats { (1 ≤ seats) × (seats ≤ 16) }
        ensures tasks { IfOk result (λ made. ⟦<CounterDesk as Desk>⟧.tasks made.0 ≡ tasks) }
        ensures count { IfOk result (λ made. ⟦<CounterDesk as Desk>⟧.seat_count made.0 ≡ seats) }
        ensures all { IfOk result (λ made. length made.1.items ≡ seats) }
        ensures here { IfOk result (λ made. All (⟦<CounterDesk as Desk>⟧.is_seat made.0) made.1.items) }
        ensures nothing { IfOk result (λ made. All (λ seat. ⟦<CounterDesk as Desk>⟧.taken seat ≡ []) made.1.items) }
        ensures fresh { IfOk result (λ made. All (λ seat. ⟦<CounterDesk as Desk>⟧.has_seen_none seat ≡ false) made.1.items) }
    {
        let lists = Vec::with_capacity(alloc, seats as usize)?;
        let mut made = Vec::with_capacity(alloc, seats as usize)?;
        let (table, mut pass) = DeskTable::of_words(
            alloc,
            &[0],
            &DeskSize {
                tasks,
                seats: u64::from(seats),
            },
        )?;
        for _ in 1..seats {
            let taken = Vec::with_capacity(alloc, tasks as usize)?;
            let one = table.shared.split_seat::<SplitSeat>(&mut pass);
            made.push_reserved(CounterSeat::of(one, tasks, taken));
        }
        let taken = Vec::with_capacity(alloc, tasks as usize)?;
        made.push_reserved(CounterSeat::of(pass, tasks, taken));
        let desk = CounterDesk {
            table,
            tasks,
            seats,
            lists,
        };
        Ok((desk, made))
    }
}

impl Desk for CounterDesk {
    type Seat = CounterSeat;

    ghost tasks = { λ desk. desk.tasks };

    ghost seat_count = { λ desk. desk.seats };

    ghost is_seat = { λ desk seat. (seat.pass.table_id ≡ desk.table.shared.table_id) × (seat.tasks ≡ desk.tasks) };

    ghost taken = { λ seat. seat.taken.items };

    ghost has_seen_none = { λ seat. seat.seen_none };

    /// None exactly where the word that this call drew is no task.
    fn take(&self, seat: &mut CounterSeat) -> Option<u64>
        requires here { (seat.old.pass.table_id ≡ self.now.table.shared.table_id) × (seat.old.tasks ≡ self.now.tasks) }
        requires before_none { seat.old.seen_none ≡ false }
        ensures here { (seat.new.pass.table_id ≡ self.now.table.shared.table_id) × (seat.new.tasks ≡ self.now.tasks) }
        ensures task { IfSome result (λ n. IsTaken self.now.tasks n seat.old.taken.items seat.new.taken.items) }
        ensures going_on { IfSome result (λ _. seat.new.seen_none ≡ false) }
        ensures end { IfNone result ((seat.new.taken.items ≡ seat.old.taken.items) × (seat.new.seen_none ≡ true)) }
        ensures word { IsDraw seat.old.pass.me.0 seat.new.pass.me.0 result }
    {
        seat.draw(&self.table)
    }

    fn close(self, seats: Vec<CounterSeat>) -> Vec<Vec<u64>>
        requires here { All (λ seat. (seat.pass.table_id ≡ self.table.shared.table_id) × (seat.tasks ≡ self.tasks)) seats.items }
        requires all { length seats.items ≡ self.seats }
        ensures lists { map (λ list. list.items) result.items ≡ map (λ seat. seat.taken.items) seats.items }
        ensures once { NoneTwice (map (λ seat. seat.taken.items) seats.items) }
        ensures no_other { NoneFrom self.tasks (map (λ seat. seat.taken.items) seats.items) }
        ensures every { All (λ seat. seat.seen_none ≡ true) seats.items → EachBelow self.tasks (map (λ seat. seat.taken.items) seats.items) }
    {
        let CounterDesk { table, lists, .. } = self;
        let mut rest = seats.into_iter();
        let Some(first) = rest.next() else {
            return lists;
        };
        let mut gathered = Gathered::of(first, lists);
        for seat in rest {
            gathered.add(&table, seat);
        }
        gathered.close(table)
    }
}
