//! Lists of numbers, each found by its place; words and lemmas on lists that several crates use.
#![tactic(auto)]

mod number_lists;

pub use number_lists::NumberLists;

/// Want of memory.
pub type Memory = std::alloc::AllocError;

#[cfg(test)]
mod tests;
