//! What the passes of a counter know, and how a pass is cut in two and two become one.
use atomic_table::{Join, Split};
use std::collections::LinkedList;

/// What a pass knows: the number of tasks, for how many seats it stands, what it drew, and how
/// often it saw the end. A counter of tickets has no tasks and no end. No value of it is made.
pub struct PassView {
    pub tasks: u64,
    pub seats: u64,
    pub drawn: LinkedList<u64>,
    pub notes: u64,
}

/// One seat of several goes to a pass of its own.
pub struct SplitSeat;

impl Split<PassView> for SplitSeat {
    ghost use Rattle.patr_claims.specs.Passes.{one_fewer, one_seat};

    ghost left = { one_fewer };

    ghost right = { one_seat };
}

/// Two passes become one.
pub struct JoinSeats;

impl Join<PassView> for JoinSeats {
    ghost use Rattle.patr_claims.specs.Passes.{both, spent};

    ghost both = { both };

    ghost spent = { spent };
}
