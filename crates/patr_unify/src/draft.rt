//! A copy that is being made.
use patr_arena::{Block, Feature};

/// The new nodes so far, and how many nodes and arcs the copy has with those that stay where they are.
#[derive(Drop)]
pub(crate) struct Draft {
    pub(crate) block: Block,
    /// Room for the arcs of one new node. Each new node of the copy takes the same room.
    pub(crate) features: Vec<Feature>,
    pub(crate) nodes: u64,
    pub(crate) arcs: u64,
}
