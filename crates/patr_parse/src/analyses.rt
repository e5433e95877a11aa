//! The analyses of a sentence: the whole edges of its closed chart with the start symbol, sorted by their keys.
ghost use Rattle.std.specs.Prelude.{◌≡◌, ◌∷◌, [], ℕ, ◌<◌, ◌≤◌, get_or, length, map, IfOk};
ghost use Rattle.std.specs.List.{AllByRecursion};
ghost use Rattle.patr_lists.specs.Numbers.{places};
ghost use Rattle.patr_arena.specs.Paths.{ids};
ghost use Rattle.patr_arena.specs.Shown.{ValueIsHeld};
ghost use Rattle.patr_arena.specs.Views.{view_of};
ghost use Rattle.patr_chart.specs.Charted.{AreEdges, derivations, starts_at};
ghost use Rattle.patr_library.specs.Stored.{IsStored, keys, rules_of};
ghost use Rattle.patr_model.specs.Chart.{IsChart};
ghost use Rattle.patr_model.specs.Solved.{solved};
ghost use Rattle.patr_parse.specs.Analyses.{AreAll, HasKey, RootsAreHeld, edge_of, has_category, is_whole};
ghost use Rattle.patr_parse.specs.Found.{AreSound};

use patr_arena::{Value, View, resolve_path};
use patr_chart::{Chart, Edge, KeyItem};
use patr_library::Library;
use patr_text::{Id, Memory, Symbols};
use std::alloc::Global;

// An analysis: its key, and the number of its edge.
#[derive(Drop, PartialEq, Eq, PartialOrd, Ord)]
struct Analysis {
    key: Vec<KeyItem>,
    edge: u32,
}

// Whether this atom stands at the attribute `cat`.
fn has_category(view: &View<'_>, root: Value, category: Id) -> bool
    requires { ValueIsHeld (view_of view.now) root }
    ensures { result ≡ has_category (view_of view.now) root category.0 }
{
    match resolve_path(view, root, &[Symbols::CAT]) {
        Some(Value::Atom(atom)) => atom == category,
        _ => false,
    }
}

// Whether the edge is passive and starts at the first position.
fn starts_at_first(edge: &Edge) -> bool
    ensures { result ≡ starts_at 0 edge.now }
{
    edge.is_passive() && edge.start == 0
}

// Whether the edge is passive, spans the words from the first to this position, and has this category.
fn is_whole(view: &View<'_>, edge: &Edge, end: u32, category: Id) -> bool
    requires { ValueIsHeld (view_of view.now) edge.now.root }
    ensures { result ≡ is_whole (view_of view.now) end category.0 edge.now }
{
    starts_at_first(edge) && edge.end == end && has_category(view, edge.root, category)
}

// The numbers of the complete edges of the start symbol over the first words.
fn whole_edges(
    alloc: Global,
    chart: &Chart,
    view: &View<'_>,
    end: u32,
    category: Id,
) -> Result<Vec<u32>, Memory>
    requires { RootsAreHeld (view_of view.now) chart.now.edges }
    ensures edges { IfOk result (λ found. found.items ≡ places (is_whole (view_of view.now) end
        category.0) 0 chart.now.edges) }
    ensures chart { IfOk result (λ _. AreEdges chart.now.words chart.now.edges) }
{
    let mut found = Vec::new(alloc);
    for number in 0..chart.len() {
        if is_whole(view, chart.edge(number), end, category) {
            found.push(number)?;
        }
    }
    Ok(found)
}

// These edges with their keys.
fn with_keys(alloc: Global, chart: &Chart, edges: &[u32]) -> Result<Vec<Analysis>, Memory>
    requires { (i : ℕ) → i < length edges.now → get_or edges.now i 0 < length chart.now.edges }
    ensures edges { IfOk result (λ found. map edge_of found.items ≡ edges.now) }
    ensures keys { IfOk result (λ found. AllByRecursion (HasKey chart.now.edges) found.items) }
{
    let mut found = Vec::with_capacity(alloc, edges.len())?;
    for number in edges {
        let edge = *number;
        let key = chart.derivation(alloc, edge)?;
        found.push(Analysis { key, edge })?;
    }
    Ok(found)
}

// The edges of these analyses.
fn edges_of(alloc: Global, analyses: &[Analysis]) -> Result<Vec<u32>, Memory>
    ensures { IfOk result (λ edges. edges.items ≡ map edge_of analyses.now) }
{
    analyses.iter().map(|analysis| analysis.edge).collect(alloc)
}

/// The edges of the analyses of these words, by rising key: the complete ones of the start symbol over all the words.
pub(crate) fn analyses_of(
    alloc: Global,
    library: &Library,
    view: &View<'_>,
    words: &[Id],
    chart: &Chart,
) -> Result<Vec<u32>, Memory>
    requires short { length words.now ≤ 256 }
    requires stored { IsStored library.now }
    requires chart { IsChart (solved (rules_of library.now) keys.cat) (rules_of library.now) (ids
        words.now) (derivations chart.now.edges) }
    requires edges { AreSound (rules_of library.now) library.now (view_of view.now) chart.now.edges }
    ensures { IfOk result (λ found. AreAll (rules_of library.now) keys.cat (ids words.now)
        chart.now.edges found.items) }
{
    let end = words.len() as u32;
    let edges = whole_edges(alloc, chart, view, end, library.grammar().start)?;
    if edges.len() <= 1 {
        return Ok(edges);
    }
    let mut found = with_keys(alloc, chart, &edges)?;
    found.sort_unstable();
    edges_of(alloc, &found)
}
