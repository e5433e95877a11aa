//! Tickets: numbers that several seats draw, each once and none left out.
ghost use Rattle.std.specs.Prelude.{◌≡◌, ℕ, ◌+◌, ◌<◌, ◌≤◌, ◌^◌, List, [], ◌∷◌, ◌++◌, All, length, map, sum_by, IfOk};
ghost use Rattle.patr_claims.specs.Tasks.{times, EachBelow, NoneFrom};
ghost use Rattle.patr_claims.specs.Passes.{pass_view};
ghost use Rattle.patr_claims.specs.Ticketing.{Drawn, Issued};
ghost use Rattle.std.specs.List.Sorted.{IsStrictlyIncreasing};

use crate::Memory;
use crate::passes::{JoinSeats, PassView, SplitSeat};
use crate::ticketing::{DrawTicket, TicketRule};
use atomic_table::{Seat, Table};
use std::alloc::Global;
use std::marker::Model;

type TicketTable = Table<(), PassView, u64, TicketRule, Global>;

/// Tickets are the numbers from 0 on.
#[derive(Drop)]
pub struct Tickets {
    table: TicketTable,
    seats: u32,
}

impl Model for Tickets {
    ghost use Rattle.std.specs.Prelude.{◌≡◌, ◌<◌};
    ghost use Rattle.patr_claims.specs.Ticketing.{Issued};

    ghost Value = { Issued };

    ghost view = { λ t. record { table = t.table.shared.table_id; seats = t.seats } };

    ghost invariant = { λ t. (t.table.shared.key ≡ t.seats) × (t.table.shared.table_id.words ≡ 1) × (t.table.shared.table_id.slots ≡ 0) × (0 < t.seats) };
}

/// A worker's place at the [`Tickets`]. What it drew rises.
#[derive(Drop)]
pub struct TicketSeat {
    pass: Seat<(), PassView>,
}

impl Model for TicketSeat {
    ghost use Rattle.std.specs.Prelude.{◌≡◌, []};
    ghost use Rattle.std.specs.List.Sorted.{IsStrictlyIncreasing};
    ghost use Rattle.patr_claims.specs.Passes.{pass_view};
    ghost use Rattle.patr_claims.specs.Ticketing.{Drawn};

    ghost Value = { Drawn };

    ghost view = { λ s. record { table = s.pass.table_id; numbers = s.pass.me.0.drawn } };

    ghost invariant = { λ s. (s.pass.me ≡ (pass_view 0 1 s.pass.me.0.drawn 0, [])) × IsStrictlyIncreasing s.pass.me.0.drawn };
}

impl TicketSeat {
    fn of(pass: Seat<(), PassView>) -> TicketSeat
        requires { pass.me ≡ (pass_view 0 1 [] 0, []) }
        ensures { (result.table ≡ pass.table_id) × (result.numbers ≡ []) }
    {
        TicketSeat { pass }
    }
}

impl Tickets {
    /// Tickets with their seats, none of which has drawn one. Fails for memory alone.
    pub fn new(alloc: Global, seats: u32) -> Result<(Tickets, Vec<TicketSeat>), Memory>
        requires { (1 ≤ seats) × (seats ≤ 16) }
        ensures seats { IfOk result (λ made. (made.0.seats ≡ seats) × (length made.1.items ≡ seats)) }
        ensures here { IfOk result (λ made. All (λ seat. seat.table ≡ made.0.table) made.1.items) }
        ensures fresh { IfOk result (λ made. All (λ seat. seat.numbers ≡ []) made.1.items) }
    {
        let mut made = Vec::with_capacity(alloc, seats as usize)?;
        let (table, mut pass) = TicketTable::of_words(alloc, &[0], &u64::from(seats))?;
        for _ in 1..seats {
            let one = table.shared.split_seat::<SplitSeat>(&mut pass);
            made.push_reserved(TicketSeat::of(one));
        }
        made.push_reserved(TicketSeat::of(pass));
        Ok((Tickets { table, seats }, made))
    }

    /// The next ticket: the number of those that were drawn before, by whatever seat. It is above
    /// all that this seat drew. It takes no memory and waits for nobody.
    pub fn draw(&self, seat: &mut TicketSeat) -> u64
        requires here { seat.old.table ≡ self.now.table }
        requires few { length seat.old.numbers < 2 ^ 59 }
        ensures here { seat.new.table ≡ self.now.table }
        ensures drawn { seat.new.numbers ≡ seat.old.numbers ++ result ∷ [] }
        ensures rises { All (λ number. number < result) seat.old.numbers × IsStrictlyIncreasing seat.new.numbers }
    {
        self.table
            .shared
            .fetch_add::<DrawTicket>(&mut seat.pass, 0, 1)
    }

    /// How many tickets the seats drew. They are the numbers below it, each drawn once, and no
    /// others. It takes no memory and waits for nobody.
    pub fn close(self, seats: Vec<TicketSeat>) -> u64
        requires here { All (λ seat. seat.table ≡ self.table) seats.items }
        requires all { length seats.items ≡ self.seats }
        ensures total { result ≡ sum_by length (map (λ seat. seat.numbers) seats.items) }
        ensures once { EachBelow result (map (λ seat. seat.numbers) seats.items) }
        ensures no_other { NoneFrom result (map (λ seat. seat.numbers) seats.items) }
    {
        let Tickets { table, seats: _ } = self;
        let mut rest = seats.into_iter();
        let Some(first) = rest.next() else {
            return 0;
        };
        let TicketSeat { mut pass } = first;
        for seat in rest {
            let TicketSeat { pass: other } = seat;
            table.shared.join_seat::<JoinSeats>(&mut pass, other);
        }
        total_of(table, pass)
    }
}

// The number of tickets, from the pass that stands for all seats.
fn total_of(table: TicketTable, pass: Seat<(), PassView>) -> u64
    requires here { pass.table_id ≡ table.shared.table_id }
    requires word { (table.shared.table_id.words ≡ 1) × (table.shared.table_id.slots ≡ 0) }
    requires all { pass.me.0.seats ≡ table.shared.key }
    ensures total { result ≡ length pass.me.0.drawn }
    ensures once { (number : ℕ) → number < result → times number pass.me.0.drawn ≡ 1 }
    ensures no_other { (number : ℕ) → result ≤ number → times number pass.me.0.drawn ≡ 0 }
{
    let closed = table.close_with(pass);
    let total = closed.word(0);
    closed.free();
    total
}
