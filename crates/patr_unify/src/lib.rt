//! Unification of feature structures, without a change to their nodes.
//!
//! [`decide`] tells whether two values have a unifier. It marks the nodes of both sides in a scratch table, quasi
//! destructively (Tomabechi 1991): where a node is forwarded to, and which arcs it gets. Pairs of values that have to be
//! one are worked off, each by following the forwards to its ends and making these one. Then a walk over the ends looks
//! for a circle, which no structure has.
//!
//! [`copy`] makes the unifier that the marks stand for: a node that nothing changes stays where it is, and the others
//! become the nodes of a new block.
//!
//! The two sides are taken as two, even where they share nodes.
#![tactic(auto)]

mod build;
mod clash;
mod count;
mod cursor;
mod draft;
mod ends;
mod keep;
mod lists;
mod merge;
mod merged_arcs;
mod reach;
mod solve;
mod unify;
mod unify_pair;
mod walk;

pub use build::{Made, copy};
pub use count::Steps;
pub use reach::reserve_for;
pub use solve::{Decision, decide};
pub use unify::unify_at;

#[cfg(test)]
mod tests;
