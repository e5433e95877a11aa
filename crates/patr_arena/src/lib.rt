//! Nodes of feature structures in blocks that never change, and arenas that hold the blocks.
#![tactic(auto)]

mod block;
mod mapping;
mod nodes;
mod path;
mod plain;
mod row;
mod sentence;
mod value;
mod view;

pub use block::Block;
pub use mapping::maps_into;
pub use nodes::Nodes;
pub use path::resolve_path;
pub use patr_text::{Id, Memory};
pub use plain::PlainArena;
pub use sentence::SentenceArena;
pub use value::{Addr, Feature, Ref, Value};
pub use view::View;

#[cfg(test)]
mod tests;
