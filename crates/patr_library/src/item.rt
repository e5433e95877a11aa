//! Rules and entries as sentences are parsed by them.
ghost use Rattle.std.specs.Prelude.{◌≡◌};
ghost use Rattle.patr_library.specs.declared.item.BuildFault.TheVariants.{Memory};

use patr_arena::{Addr, Value};
use patr_expand::ExpandCause;
use patr_text::Id;
use std::alloc::AllocError;

/// A variant of a rule that has a solution.
#[derive(Clone, Copy, Debug, PartialEq, Eq)]
pub struct RuleItem {
    /// The rule's number in the grammar, and the variant's in the rule, both from 0.
    pub rule: u32,
    pub variant: u32,
    /// The mother's category.
    pub mother: Id,
    /// How many daughters the variant has.
    pub slots: u32,
    /// The node of the slots: its arc of the attribute k leads to slot k, the mother's value being slot 0.
    pub root: Addr,
    /// No more nodes are reached from the root, and no more arcs do these have.
    pub nodes: u64,
    pub arcs: u64,
}

/// A variant of an entry that has a solution.
#[derive(Clone, Copy, Debug, PartialEq, Eq)]
pub struct EntryItem {
    /// The entry's number in the lexicon, and the variant's in the entry, both from 0.
    pub entry: u32,
    pub variant: u32,
    /// The entry's value.
    pub root: Value,
    /// No more nodes are reached from the root, and no more arcs do these have.
    pub nodes: u64,
    pub arcs: u64,
}

/// Why nothing is built.
#[derive(Clone, Copy, Debug, PartialEq, Eq)]
pub enum BuildFault {
    Memory,
    /// A rule is refused.
    InGrammar(ExpandCause),
    /// An entry is refused.
    InLexicon(ExpandCause),
}

impl From<AllocError> for BuildFault {
    ghost from_gives = { λ _ fault. fault ≡ Memory };

    fn from(_e: AllocError) -> BuildFault {
        BuildFault::Memory
    }
}
