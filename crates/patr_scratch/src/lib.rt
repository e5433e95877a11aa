//! Marks on the nodes of two feature structures while they are unified.
//!
//! Quasi-destructive unification (Tomabechi 1991) changes no node. What it finds out is written beside the nodes:
//! where a node is forwarded to, which arcs it gets, what it was copied to. Each of these marks has the number of the
//! generation that set it and stands only while that generation lasts. So all marks are dropped by a step to the next
//! generation, at no cost. The marks stand in tables beside the nodes, which are private to a worker (van Lohuizen
//! 2000): workers can read the same nodes at the same time.
//!
//! A [`Scratch`] holds these tables: marks for each place of two sides, a list of added arcs for each place, a stack
//! of pairs, a stack of visits, and the places that a walk has left, in order. `reserve` takes all memory. Every other call takes none, and constant time; only
//! `begin` goes over the table once in each 2^32 - 1 generations.
#![tactic(auto)]

mod arc;
mod packed;
mod scratch;
mod stack;
mod table;

pub use scratch::Scratch;

#[cfg(test)]
mod tests;

/// Want of memory.
pub type Memory = std::alloc::AllocError;

/// The structure that a place is of. Both sides may be places of the same nodes.
#[derive(Clone, Copy, Debug, PartialEq, Eq)]
pub enum Side {
    /// The structure whose part is unified.
    Left,
    /// The structure that it is unified with.
    Right,
}

/// A node of one side, by its address.
#[derive(Clone, Copy, Debug, PartialEq, Eq)]
pub struct Place {
    /// The side.
    pub side: Side,
    /// The number of the block of nodes.
    pub block: u32,
    /// The node's number in its block.
    pub offset: u32,
}

/// What an arc, a forward or a pair leads to.
#[derive(Clone, Copy, Debug, PartialEq, Eq)]
pub enum Target {
    /// An atom, by the number of its symbol.
    Atom(u32),
    /// A node.
    Place(Place),
}

/// What a place was copied to.
#[derive(Clone, Copy, Debug, PartialEq, Eq)]
pub enum Copied {
    /// A node that was there before, by its address.
    Old {
        /// The number of the block of nodes.
        block: u32,
        /// The node's number in its block.
        offset: u32,
    },
    /// A new node, by its number in the block that is being made.
    New(u32),
}

/// How far a walk is with a place.
#[derive(Clone, Copy, Debug, PartialEq, Eq)]
pub enum Visit {
    /// The walk has not come to it.
    Unseen,
    /// The walk is at it or below it.
    Entered,
    /// The walk is done with it.
    Left,
}

/// An added arc, as it is read from its cell.
#[derive(Clone, Copy, Debug, PartialEq, Eq)]
pub struct Added {
    /// The number of the attribute's symbol.
    pub attribute: u32,
    /// What the arc leads to.
    pub to: Target,
    /// The cell of the next arc of the same place, or `None` at the last.
    pub next: Option<u64>,
}
