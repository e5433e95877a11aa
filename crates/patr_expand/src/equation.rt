//! Path equations over the slots of a variant.
use patr_text::Id;

/// A path from a slot.
#[derive(Debug, Drop)]
pub struct SlotPath {
    /// The number of the constituent, the mother's being 0.
    pub slot: u32,
    pub path: Vec<Id>,
}

/// What a path equals: an atom, or what another path leads to.
#[derive(Debug, Drop)]
pub enum Term {
    Atom(Id),
    Path(SlotPath),
}

/// A path equation: both sides are defined and have one value. The value of an entry is slot 0.
#[derive(Debug, Drop)]
pub struct Equation {
    pub left: SlotPath,
    pub right: Term,
}
