//! Laws about charts.
ghost use Rattle.patr_chart.specs.Laws.{PairsAreAdjacent, PartnersAreAdjacent, PassiveIsComplete, TreesAreMade};
ghost use Rattle.patr_chart.specs.Orders.{KeysAreOrdered};

use crate::key::KeyItem;

/// The partners of an edge are the earlier edges that are adjacent to it, and no others, rising.
pub fn partners_are_adjacent()
    ensures { PartnersAreAdjacent }
{}

/// The derivation of an edge is made as the edge was, and has its span and its root.
pub fn trees_are_made()
    ensures { TreesAreMade }
{}

/// An edge is passive exactly where its derivation is complete, and active exactly where it is partial.
pub fn passive_is_complete()
    ensures { PassiveIsComplete }
{}

/// Two edges are adjacent exactly where their derivations are.
pub fn pairs_are_adjacent()
    ensures { PairsAreAdjacent }
{}

/// Lists of nodes compare, node by node in the order of [`KeyItem`], as keys are ordered, number by number.
pub fn keys_are_ordered()
    ensures { KeysAreOrdered ⟦<KeyItem as Ord>⟧.cmp }
{}
