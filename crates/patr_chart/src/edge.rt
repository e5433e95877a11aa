//! Edges: derivations of parts of a sentence, complete or partial.
ghost use Rattle.std.specs.Prelude.{◌≡◌, false};
ghost use Rattle.patr_chart.specs.Edges.{is_passive, kind_passive};
ghost use Rattle.patr_chart.specs.Charted.{IsNext};

use patr_arena::Value;

/// What stands at the root of an edge's derivation.
#[derive(Clone, Copy, Debug, PartialEq, Eq)]
pub enum EdgeKind {
    /// A variant of an entry of the lexicon.
    Entry {
        /// The number of the entry, from 0.
        entry: u32,
        /// The number of its variant, from 0.
        variant: u32,
    },
    /// A variant of a rule of the grammar.
    Rule {
        /// The number of the rule, from 0.
        rule: u32,
        /// The number of its variant, from 0.
        variant: u32,
        /// The place of the rule variant in the library's list.
        item: u32,
        /// How many daughters are there.
        seen: u32,
        /// How many daughters the variant has.
        slots: u32,
    },
}

impl EdgeKind {
    /// Whether no daughter is missing.
    pub fn is_passive(self) -> bool
        ensures { result ≡ kind_passive self }
    {
        match self {
            EdgeKind::Entry { .. } => true,
            EdgeKind::Rule { seen, slots, .. } => seen >= slots,
        }
    }

    /// The rule variant with one more daughter. Condition: a daughter is missing.
    pub fn with_daughter(self) -> EdgeKind
        requires { kind_passive self ≡ false }
        ensures { IsNext self result }
    {
        let EdgeKind::Rule {
            rule,
            variant,
            item,
            seen,
            slots,
        } = self
        else {
            unreachable!()
        };
        EdgeKind::Rule {
            rule,
            variant,
            item,
            seen: seen + 1,
            slots,
        }
    }
}

/// The two edges of which an edge was made, by their numbers.
#[derive(Clone, Copy, Debug, PartialEq, Eq)]
pub struct Back {
    /// The active edge, which lacked a daughter.
    pub active: u32,
    /// The passive edge, which is that daughter.
    pub passive: u32,
}

/// An edge: a derivation over the words from `start` to `end`, and its least value.
#[derive(Clone, Copy, Debug, PartialEq, Eq)]
pub struct Edge {
    /// What stands at the root, and how many daughters it has and is to have.
    pub kind: EdgeKind,
    /// How many words stand before it.
    pub start: u32,
    /// How many words stand before its end.
    pub end: u32,
    /// The edges of which it was made; none where it has no daughters.
    pub back: Option<Back>,
    /// The node that holds all slots of an active edge, or the mother's value of a passive one.
    pub root: Value,
    /// A number of nodes, no less than are reached from the root.
    pub nodes: u64,
    /// A number of arcs, no less than those nodes have.
    pub arcs: u64,
    /// The number of nodes of the derivation, repeats counted.
    pub size: u64,
}

impl Edge {
    /// Whether no daughter is missing.
    pub fn is_passive(&self) -> bool
        ensures { result ≡ is_passive self.now }
    {
        self.kind.is_passive()
    }
}
