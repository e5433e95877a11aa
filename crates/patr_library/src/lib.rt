//! The rules and entries that have a solution, each with its least feature structure.
#![tactic(auto)]

mod building;
mod copying;
mod entries;
mod index;
mod item;
mod library;
mod making;
mod solving;
mod stating;
mod workspace;

pub use item::{BuildFault, EntryItem, RuleItem};
pub use library::Library;

/// Want of memory.
pub type Memory = std::alloc::AllocError;

#[cfg(test)]
mod tests;
