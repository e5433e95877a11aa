//! What gives out the tasks of a round.
ghost use Rattle.std.specs.Prelude.{◌≡◌, ℕ, ◌<◌, Bool, true, false, List, [], ◌∷◌, ◌++◌, All, length, map, IfSome, IfNone};
ghost use Rattle.patr_claims.specs.Tasks.{IsTaken, NoneTwice, EachBelow, NoneFrom};

/// Gives each task to one worker. The tasks are the numbers below a count, and each worker has a
/// seat, which keeps the list of what it took.
pub trait Desk: Drop + Sync {
    /// A worker's place. It goes to one thread at a time.
    type Seat: Drop + Send;

    /// The number of tasks.
    ghost tasks: { Self → ℕ };

    /// The number of seats.
    ghost seat_count: { Self → ℕ };

    /// Whether the seat is one of this desk's. A seat can't be copied, so as many of them as there
    /// are seats are all of them.
    ghost is_seat: { Self → Self.Seat → Type 0 };

    /// What the seat took, in order.
    ghost taken: { Self.Seat → List ℕ };

    /// Whether the seat has seen None.
    ghost has_seen_none: { Self.Seat → Bool };

    /// A task that this seat has not taken before, which now stands at the end of its list, or
    /// None. It takes no memory and waits for nobody.
    fn take(&self, seat: &mut Self::Seat) -> Option<u64>
        requires here { is_seat self.now seat.old }
        requires before_none { has_seen_none seat.old ≡ false }
        ensures here { is_seat self.now seat.new }
        ensures task { IfSome result (λ n. IsTaken (tasks self.now) n (taken seat.old) (taken seat.new)) }
        ensures going_on { IfSome result (λ _. has_seen_none seat.new ≡ false) }
        ensures end { IfNone result ((taken seat.new ≡ taken seat.old) × (has_seen_none seat.new ≡ true)) };

    /// The lists of all seats. Together they hold no task twice and no other number, and every task
    /// where each seat has seen None. It takes no memory and waits for nobody.
    fn close(self, seats: Vec<Self::Seat>) -> Vec<Vec<u64>>
        requires here { All (is_seat self) seats.items }
        requires all { length seats.items ≡ seat_count self }
        ensures lists { map (λ list. list.items) result.items ≡ map taken seats.items }
        ensures once { NoneTwice (map taken seats.items) }
        ensures no_other { NoneFrom (tasks self) (map taken seats.items) }
        ensures every { All (λ seat. has_seen_none seat ≡ true) seats.items → EachBelow (tasks self) (map taken seats.items) };
}
