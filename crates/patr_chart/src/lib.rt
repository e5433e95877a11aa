//! The edges of a sentence's chart, with indexes by which the edges adjacent to one are found.
#![tactic(auto)]

mod chart;
mod edge;
mod key;
mod laws;

pub use chart::Chart;
pub use edge::{Back, Edge, EdgeKind};
pub use key::KeyItem;
pub use laws::{
    keys_are_ordered, pairs_are_adjacent, partners_are_adjacent, passive_is_complete,
    trees_are_made,
};
pub use patr_arena::{Addr, Value};
pub use patr_text::Memory;

#[cfg(test)]
mod tests;
