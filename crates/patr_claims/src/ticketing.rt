//! The rule of a counter of tickets.
use crate::passes::PassView;
use atomic_table::{Play, TableRule};

/// The word is the next number, and the table is told how many seats there are.
pub struct TicketRule;

impl TableRule<(), PassView, u64> for TicketRule {
    ghost use Rattle.std.specs.Prelude.{[]};
    ghost use Rattle.patr_claims.specs.Passes.{pass_view};
    ghost use Rattle.patr_claims.specs.Ticketing.{IsTicketed};

    ghost holds = { IsTicketed };

    ghost first = { λ seats. pass_view 0 seats [] 0 };
}

/// One ticket is drawn.
pub struct DrawTicket;

impl Play<(), PassView> for DrawTicket {
    ghost use Rattle.patr_claims.specs.Ticketing.{DrewTicket};

    ghost then = { DrewTicket };
}
