//! The rule of a counter from which several passes draw tasks.
use crate::passes::PassView;
use atomic_table::{Play, TableRule};

/// What the counter is told once: how many tasks there are, and how many seats.
#[derive(Clone, Copy)]
pub struct DeskSize {
    pub tasks: u64,
    pub seats: u64,
}

/// The word is the next number.
pub struct DeskRule;

impl TableRule<(), PassView, DeskSize> for DeskRule {
    ghost use Rattle.patr_claims.specs.Counting.{IsCounted, opener};

    ghost holds = { IsCounted };

    ghost first = { opener };
}

/// One number is drawn.
pub struct DrawTask;

impl Play<(), PassView> for DrawTask {
    ghost use Rattle.patr_claims.specs.Counting.{Drew};

    ghost then = { Drew };
}
