//! Keys of derivations.
ghost use Rattle.std.specs.Prelude.{◌≡◌};
ghost use Rattle.patr_chart.specs.Edges.{item_of, kind_item};

use crate::edge::EdgeKind;

/// A node of a derivation, as it stands in a key. Its order is that of the four numbers, the first first.
#[derive(Clone, Copy, Debug, PartialEq, Eq, PartialOrd, Ord)]
pub struct KeyItem {
    /// 0 for an entry, 1 for a rule.
    pub kind: u8,
    /// The number of the entry or the rule.
    pub number: u32,
    /// The number of the variant.
    pub variant: u32,
    /// How many words of the sentence stand before the node's end.
    pub end: u32,
}

impl KeyItem {
    // A node of this kind that ends there.
    pub(crate) fn of(kind: EdgeKind, end: u32) -> KeyItem
        ensures { item_of result ≡ kind_item kind end }
    {
        match kind {
            EdgeKind::Entry { entry, variant } => KeyItem {
                kind: 0,
                number: entry,
                variant,
                end,
            },
            EdgeKind::Rule { rule, variant, .. } => KeyItem {
                kind: 1,
                number: rule,
                variant,
                end,
            },
        }
    }
}
