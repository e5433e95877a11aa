//! Rounds: several workers, or one, go through the tasks of a desk.
#![tactic(auto)]

mod docket;
mod gate;
mod gathered;
mod placing;
mod round;
mod work;
mod worker;
mod workers;

pub use docket::Docket;
pub use gate::{Gate, OpenGate};
pub use round::{Round, run_alone, run_round};
pub use work::{LoneWork, Outcome, Work, Yield};

/// Want of memory.
pub type Memory = std::alloc::AllocError;

#[cfg(test)]
mod tests;
