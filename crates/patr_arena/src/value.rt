//! Addresses, values and arcs.
ghost use Rattle.std.specs.Prelude.{◌≡◌};
ghost use Rattle.patr_arena.specs.Shown.{resolved};

use patr_text::Id;

/// The address of a node: its block, and its place in the block.
#[derive(Clone, Copy, Debug, PartialEq, Eq)]
pub struct Addr {
    /// The number of the block in its arena, from 0.
    pub block: u32,
    /// The node's place in the block, from 0.
    pub offset: u32,
}

/// What a path leads to: an atom or a node.
#[derive(Clone, Copy, Debug, PartialEq, Eq)]
pub enum Value {
    /// An atom, by the number of its text.
    Atom(Id),
    /// A node of an arena.
    Node(Addr),
}

/// Where an arc of a block leads.
#[derive(Clone, Copy, Debug, PartialEq, Eq)]
pub enum Ref {
    /// To an atom, by the number of its text.
    Atom(Id),
    /// To a node of an earlier block.
    Old(Addr),
    /// To a node of the same block, by its offset.
    New(u32),
}

/// An arc of a block's node.
#[derive(Clone, Copy, Debug, PartialEq, Eq)]
pub struct Feature {
    /// The arc's attribute, by the number of its text.
    pub attribute: Id,
    /// Where the arc leads.
    pub to: Ref,
}

impl Ref {
    /// The value that an arc of a node of this block leads to.
    pub(crate) fn in_block(self, block: u32) -> Value
        ensures { result ≡ resolved block self }
    {
        match self {
            Ref::Atom(atom) => Value::Atom(atom),
            Ref::Old(at) => Value::Node(at),
            Ref::New(offset) => Value::Node(Addr { block, offset }),
        }
    }
}
