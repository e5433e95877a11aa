//! Tests of the public calls, and worked examples in tables.
ghost use Rattle.std.specs.Prelude.{◌≡◌, ◌<◌, IfSome, None};
ghost use Rattle.patr_chart.specs.Charted.{IsEdgeAfter};

use super::*;
use patr_arena::Id;
use std::alloc::{AllocError, Global};
use std::test::Fail;

/// The edge that two adjacent edges are together, or None where they are not adjacent.
fn joined(chart: &Chart, active: u32, passive: u32) -> Option<Edge>
    ensures { IfSome result (λ e. IsEdgeAfter chart.now.words chart.now.edges e) }
{
    if active >= chart.len() || passive >= chart.len() {
        return None;
    }
    let first = chart.edge(active);
    let second = chart.edge(passive);
    if first.is_passive() || !second.is_passive() || first.end != second.start {
        return None;
    }
    Some(Edge {
        kind: first.kind.with_daughter(),
        start: first.start,
        end: second.end,
        back: Some(Back { active, passive }),
        root: Value::Atom(Id(0)),
        nodes: 0,
        arcs: 0,
        size: first.size.saturating_add(second.size),
    })
}

/// Pushes an edge. An error where there is no room.
fn push(chart: &mut Chart, edge: Edge) -> Result<u32, Fail>
    requires words { chart.old.words ≡ 3 }
    requires edge { IsEdgeAfter 3 chart.old.edges edge }
    ensures { chart.new.words ≡ 3 }
{
    let Ok(number) = chart.push_edge(edge) else {
        return Err(AllocError.into());
    };
    Ok(number)
}

/// An edge without daughters.
const fn alone(kind: EdgeKind, start: u32, end: u32) -> Edge
    ensures kind { result.kind ≡ kind }
    ensures span { (result.start ≡ start) × (result.end ≡ end) }
    ensures back { result.back ≡ None }
{
    Edge {
        kind,
        start,
        end,
        back: None,
        root: Value::Atom(Id(0)),
        nodes: 0,
        arcs: 0,
        size: 1,
    }
}

/// Pushes an entry's leaf over the word at this place.
fn push_entry(chart: &mut Chart, entry: u32, start: u32) -> Result<u32, Fail>
    requires words { chart.old.words ≡ 3 }
    requires start { start < 3 }
    ensures { chart.new.words ≡ 3 }
{
    let kind = EdgeKind::Entry { entry, variant: 0 };
    push(chart, alone(kind, start, start + 1))
}

/// Pushes a rule with this many daughters, none of which is there, before the first word.
fn push_rule(chart: &mut Chart, rule: u32, variant: u32, slots: u32) -> Result<u32, Fail>
    requires { chart.old.words ≡ 3 }
    ensures { chart.new.words ≡ 3 }
{
    let kind = EdgeKind::Rule {
        rule,
        variant,
        item: 0,
        seen: 0,
        slots,
    };
    push(chart, alone(kind, 0, 0))
}

/// The pairs of edges that are joined, in order: a noun phrase of the first two words, a sentence of it and the third, and
/// one that begins with the empty constituent.
const PAIRS: [(u32, u32); 5] = [(4, 0), (6, 1), (3, 7), (8, 2), (3, 5)];

/// The chart of three words: their leaves, three rules at the beginning, of which the last has no daughters, and what is made of these.
fn sample(alloc: Global) -> Result<Chart, Fail> {
    let mut chart = Chart::new(alloc, 3)?;
    for word in 0..3 {
        push_entry(&mut chart, 10 + word, word)?;
    }
    push_rule(&mut chart, 0, 0, 2)?;
    push_rule(&mut chart, 1, 2, 2)?;
    push_rule(&mut chart, 2, 0, 0)?;
    for (active, passive) in PAIRS {
        let Some(edge) = joined(&chart, active, passive) else {
            continue;
        };
        push(&mut chart, edge)?;
    }
    Ok(chart)
}

/// The partners of each edge of the sample, by hand.
const PARTNERS: [&[u32]; 11] = [
    &[],
    &[],
    &[],
    &[0],
    &[0],
    &[3, 4],
    &[1],
    &[3, 4],
    &[2],
    &[3, 4],
    &[0, 5, 7, 9],
];

#[test]
fn partners_are_found(rt: HostRuntime) -> Result<(), Fail> {
    let chart = sample(rt.alloc())?;
    assert_eq!(rt; chart.len(), 11);
    for (k, want) in PARTNERS.iter().enumerate() {
        let k = k as u32;
        assert!(rt; k < chart.len());
        assert_eq!(rt; chart.partners(k), *want, "edge {k}");
    }
    Ok(())
}

#[test]
fn key_of_a_sentence(rt: HostRuntime) -> Result<(), Fail> {
    let chart = sample(rt.alloc())?;
    assert!(rt; 9 < chart.len());
    let key = chart.derivation(rt.alloc(), 9)?;
    let want = [
        (1, 0, 0, 3),
        (1, 1, 2, 2),
        (0, 10, 0, 1),
        (0, 11, 0, 2),
        (0, 12, 0, 3),
    ];
    assert_eq!(rt; key.len(), want.len());
    for (item, want) in key.iter().zip(want) {
        assert_eq!(rt; (item.kind, item.number, item.variant, item.end), want);
    }
    Ok(())
}

#[test]
fn nodes_of_keys_in_order(rt: HostRuntime) {
    let item = |kind, number, variant, end| KeyItem {
        kind,
        number,
        variant,
        end,
    };
    let rising = [
        item(0, 2, 2, 2),
        item(1, 0, 2, 2),
        item(1, 1, 0, 2),
        item(1, 1, 1, 0),
        item(1, 1, 1, 1),
    ];
    for pair in rising.windows(2) {
        assert!(rt; pair[0] < pair[1]);
    }
}

#[test]
fn laws_are_called(_rt: HostRuntime) {
    partners_are_adjacent();
    trees_are_made();
    passive_is_complete();
    pairs_are_adjacent();
    keys_are_ordered();
}
