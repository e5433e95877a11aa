//! The replies to sentences, and to the commands that speak of a grammar.
#![tactic(auto)]

mod laws;
mod refused;
mod sentence;
mod shown;
mod tree;

pub use laws::{least_values_name_symbols, libraries_are_held};
pub use refused::refusal;
pub use sentence::reply;
pub use shown::show;

#[cfg(test)]
mod tests;
