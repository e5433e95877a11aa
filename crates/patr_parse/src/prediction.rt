//! The edges that need no passive edge: the entries of the words, and the rules that are predicted.
ghost use Rattle.std.specs.Prelude.{◌≡◌, ℕ, ◌+◌, ◌<◌, ◌≤◌, true, false, List, [], ◌∷◌, ◌++◌, length, map, take, Some, None, IfOk, IfSome, IfNone};
ghost use Rattle.std.specs.Option.{option_map};
ghost use Rattle.patr_text.specs.declared.symbols.Id.{Id};
ghost use Rattle.patr_model.specs.Chart.{HasMoreThan};
ghost use Rattle.patr_model.specs.Derivation.{Derivation, end};
ghost use Rattle.patr_model.specs.Rounds.{IsPredicted};
ghost use Rattle.patr_arena.specs.Sentences.{sentence_of};
ghost use Rattle.patr_chart.specs.declared.edge.Edge.{Edge};
ghost use Rattle.patr_chart.specs.Charted.{IsEdgeAfter, derivations, tree};
ghost use Rattle.patr_library.specs.Stored.{rules_of, IsStored};
ghost use Rattle.patr_parse.specs.Found.{AreSound};
ghost use Rattle.patr_parse.specs.Tasks.{judge, IsOver, IsReady};
ghost use Rattle.patr_parse.specs.Standing.{Stands};
ghost use Rattle.patr_parse.specs.Begun.{begun, leaf, places_named, derivation_of, count_of, width, leaves_from, begun_unless, begun_by, next_of, is_marked, HasMark, HasMarkOf, IsAloneEdge, ArePushed};
ghost use Rattle.patr_parse.specs.Predicting.{IsFurther, IsInitialized, IsPrediction};

use crate::draft::root_for;
use crate::work::last_slot;
use patr_arena::{Memory, SentenceArena, Value, resolve_path};
use patr_chart::{Chart, Edge, EdgeKind};
use patr_library::Library;
use patr_text::{Id, Symbols};
use std::alloc::{AllocError, Global};
use std::collections::HashSet;

/// A category whose rules stand at a position.
#[derive(Clone, Copy, PartialEq, Eq, Hash)]
struct Mark {
    category: u32,
    at: u32,
}

/// Which edges of a chart were looked at, and what they predicted.
#[derive(Drop)]
pub(crate) struct Prediction {
    marks: HashSet<Mark>,
    // how many of the first edges have their predictions
    seen: u32,
}

/// Puts an edge behind the others. False where there would be more than the limit.
fn push_within(chart: &mut Chart, edge: Edge, limit: u32) -> Result<bool, Memory>
    requires { IsEdgeAfter chart.old.words chart.old.edges edge }
    ensures pushed { IfOk result (λ done. done ≡ true → (chart.new.edges ≡ chart.old.edges ++ edge ∷
        []) × (length chart.new.edges ≤ limit)) }
    ensures full { IfOk result (λ done. done ≡ false → limit ≤ length chart.old.edges) }
    ensures words { IfOk result (λ done. chart.new.words ≡ chart.old.words) }
{
    if chart.len() >= limit {
        return Ok(false);
    }
    let Ok(_) = chart.push_edge(edge) else {
        return Err(AllocError);
    };
    Ok(true)
}

/// A rule without daughters.
fn begin_edge(library: &Library, arena: &SentenceArena<'_>, number: u32, at: u32) -> Edge
    requires number { number < length library.now.rules }
    requires base { IsOver library.now (sentence_of arena.now) }
    ensures edge { IsAloneEdge (rules_of library.now) library.now (sentence_of arena.now) (begun
        library.now at number) result }
    ensures place { (result.start ≡ at) × (result.end ≡ at) }
{
    let item = library.rules()[number as usize];
    let kind = EdgeKind::Rule {
        rule: item.rule,
        variant: item.variant,
        item: number,
        seen: 0,
        slots: item.slots,
    };
    let root = root_for(arena, kind, Value::Node(item.root));
    Edge {
        kind,
        start: at,
        end: at,
        back: None,
        root,
        nodes: item.nodes,
        arcs: item.arcs,
        size: 1,
    }
}

/// An entry over the word at `at`.
fn leaf_edge(library: &Library, arena: &SentenceArena<'_>, number: u32, at: u32) -> Edge
    requires number { number < length library.now.entries }
    requires base { IsOver library.now (sentence_of arena.now) }
    requires at { at < 256 }
    ensures edge { IsAloneEdge (rules_of library.now) library.now (sentence_of arena.now) (leaf
        library.now at number) result }
    ensures place { (result.start ≡ at) × (result.end ≡ at + 1) }
{
    let item = library.entries()[number as usize];
    Edge {
        kind: EdgeKind::Entry {
            entry: item.entry,
            variant: item.variant,
        },
        start: at,
        end: at + 1,
        back: None,
        root: item.root,
        nodes: item.nodes,
        arcs: item.arcs,
        size: 1,
    }
}

/// Which items of a library: the rules of a mother, or the entries of a word.
#[derive(Clone, Copy)]
enum ItemKind {
    Rule,
    Entry,
}

/// The places of the items of this mother, or of this word.
fn items_named<'a>(library: &'a Library, kind: ItemKind, name: Id) -> &'a [u32]
    ensures { result.now ≡ places_named kind library.now name.0 }
{
    match kind {
        ItemKind::Rule => library.rules_of(name),
        ItemKind::Entry => library.items_of(name),
    }
}

/// A rule without daughters at `at`, or an entry over the word there.
fn item_edge(
    library: &Library,
    arena: &SentenceArena<'_>,
    kind: ItemKind,
    number: u32,
    at: u32,
) -> Edge
    requires number { number < count_of kind library.now }
    requires base { IsOver library.now (sentence_of arena.now) }
    requires at { width kind ≡ 1 → at < 256 }
    ensures edge { IsAloneEdge (rules_of library.now) library.now (sentence_of arena.now)
        (derivation_of kind library.now at number) result }
    ensures place { (result.start ≡ at) × (result.end ≡ at + width kind) }
{
    match kind {
        ItemKind::Rule => begin_edge(library, arena, number, at),
        ItemKind::Entry => leaf_edge(library, arena, number, at),
    }
}

/// Adds the items of this mother, or of this word, at a position. False where there would be more edges than the limit.
fn push_items(
    library: &Library,
    arena: &SentenceArena<'_>,
    kind: ItemKind,
    name: Id,
    at: u32,
    limit: u32,
    chart: &mut Chart,
) -> Result<bool, Memory>
    requires base { IsOver library.now (sentence_of arena.now) }
    requires at { at + width kind ≤ chart.old.words }
    requires small { width kind ≡ 1 → at < 256 }
    requires few { length chart.old.edges ≤ limit }
    ensures pushed { IfOk result (λ done. ArePushed (rules_of library.now) library.now (sentence_of
        arena.now) limit chart.old.edges (map (derivation_of kind library.now at) (places_named kind
        library.now name.0)) chart.new.edges done) }
    ensures words { IfOk result (λ done. chart.new.words ≡ chart.old.words) }
{
    for number in items_named(library, kind, name) {
        if !push_within(chart, item_edge(library, arena, kind, *number, at), limit)? {
            return Ok(false);
        }
    }
    Ok(true)
}

/// Adds the entries of the words. False where there would be more edges than the limit.
fn push_words(
    library: &Library,
    arena: &SentenceArena<'_>,
    words: &[Id],
    limit: u32,
    chart: &mut Chart,
) -> Result<bool, Memory>
    requires base { IsOver library.now (sentence_of arena.now) }
    requires words { chart.old.words ≡ length words.now }
    requires few_words { length words.now ≤ 256 }
    requires few { length chart.old.edges ≤ limit }
    ensures pushed { IfOk result (λ done. ArePushed (rules_of library.now) library.now (sentence_of
        arena.now) limit chart.old.edges (leaves_from library.now 0 (map (λ (w : Id). w.0)
        words.now)) chart.new.edges done) }
    ensures words { IfOk result (λ done. chart.new.words ≡ chart.old.words) }
{
    for (at, word) in words.iter().enumerate() {
        if !push_items(
            library,
            arena,
            ItemKind::Entry,
            *word,
            at as u32,
            limit,
            chart,
        )? {
            return Ok(false);
        }
    }
    Ok(true)
}

/// Adds the rules of a category at a position, where that was not done. False where there would be more edges than the
/// limit.
fn predict_category(
    library: &Library,
    arena: &SentenceArena<'_>,
    mark: Mark,
    limit: u32,
    chart: &mut Chart,
    marks: &mut HashSet<Mark>,
) -> Result<bool, Memory>
    requires base { IsOver library.now (sentence_of arena.now) }
    requires at { mark.at ≤ chart.old.words }
    requires few { length chart.old.edges ≤ limit }
    ensures pushed { IfOk result (λ done. ArePushed (rules_of library.now) library.now (sentence_of
        arena.now) limit chart.old.edges (begun_unless (is_marked marks.old.keys mark.category
        mark.at) library.now mark.category mark.at) chart.new.edges done) }
    ensures marked { IfOk result (λ _. HasMark marks.old.keys marks.new.keys mark.category mark.at) }
    ensures words { IfOk result (λ done. chart.new.words ≡ chart.old.words) }
{
    if marks.insert(mark)? {
        push_items(
            library,
            arena,
            ItemKind::Rule,
            Id(mark.category),
            mark.at,
            limit,
            chart,
        )
    } else {
        Ok(true)
    }
}

/// The category of the next daughter of edge k; none where no daughter is missing.
fn next_category(library: &Library, arena: &SentenceArena<'_>, chart: &Chart, k: u32) -> Option<Id>
    requires k { k < length chart.now.edges }
    requires ready { (limit : ℕ) × IsReady (rules_of library.now) library.now (sentence_of
        arena.now) limit chart.now.edges }
    ensures { option_map (λ (c : Id). c.0) result ≡ next_of (rules_of library.now) (tree
        chart.now.edges k) }
{
    let edge = chart.edge(k);
    if edge.is_passive() {
        return None;
    }
    let slot = last_slot(edge.kind.with_daughter());
    let Some(found) = resolve_path(arena, edge.root, &[slot, Symbols::CAT]) else {
        unreachable!()
    };
    let Value::Atom(category) = found else {
        unreachable!()
    };
    Some(category)
}

/// Adds what edge k predicts. False where there would be more edges than the limit.
fn follow(
    library: &Library,
    arena: &SentenceArena<'_>,
    k: u32,
    limit: u32,
    chart: &mut Chart,
    marks: &mut HashSet<Mark>,
) -> Result<bool, Memory>
    requires k { k < length chart.old.edges }
    requires base { IsOver library.now (sentence_of arena.now) }
    requires ready { IsReady (rules_of library.now) library.now (sentence_of arena.now) limit
        chart.old.edges }
    requires few { length chart.old.edges ≤ limit }
    ensures pushed { IfOk result (λ done. ArePushed (rules_of library.now) library.now (sentence_of
        arena.now) limit chart.old.edges (begun_by marks.old.keys library.now (next_of (rules_of
        library.now) (tree chart.old.edges k)) (end (tree chart.old.edges k))) chart.new.edges done) }
    ensures marked { IfOk result (λ done. HasMarkOf marks.old.keys marks.new.keys (next_of (rules_of
        library.now) (tree chart.old.edges k)) (end (tree chart.old.edges k))) }
    ensures words { IfOk result (λ done. chart.new.words ≡ chart.old.words) }
{
    let Some(category) = next_category(library, arena, chart, k) else {
        return Ok(true);
    };
    let mark = Mark {
        category: category.0,
        at: chart.edge(k).end,
    };
    predict_category(library, arena, mark, limit, chart, marks)
}

/// Adds the entries of the words, and the rules of the start symbol. None where there would be more edges than the limit.
pub(crate) fn initialize(
    alloc: Global,
    library: &Library,
    arena: &SentenceArena<'_>,
    words: &[Id],
    limit: u32,
    chart: &mut Chart,
) -> Result<Option<Prediction>, Memory>
    requires empty { chart.old.edges ≡ [] }
    requires base { IsOver library.now (sentence_of arena.now) × IsStored library.now }
    requires words { (chart.old.words ≡ length words.now) × (length words.now ≤ 256) }
    ensures initialized { IfOk result (λ begun. IfSome begun (λ prediction. IsInitialized
        library.now
        (map (λ (w : Id). w.0) words.now) (sentence_of arena.now) limit prediction chart.new.edges)) }
    ensures more { IfOk result (λ begun. IfNone begun (HasMoreThan (judge library.now)
        (rules_of library.now) (map (λ (w : Id). w.0) words.now) limit)) }
    ensures words { IfOk result (λ begun. chart.new.words ≡ chart.old.words) }
{
    if !push_words(library, arena, words, limit, chart)? {
        return Ok(None);
    }
    let start = library.grammar().start;
    let mut marks = HashSet::new(alloc);
    marks.insert(Mark {
        category: start.0,
        at: 0,
    })?;
    if !push_items(library, arena, ItemKind::Rule, start, 0, limit, chart)? {
        return Ok(None);
    }
    Ok(Some(Prediction { marks, seen: 0 }))
}

/// Adds what the edges of the chart predict. False where there would be more edges than the limit.
pub(crate) fn predict(
    library: &Library,
    arena: &SentenceArena<'_>,
    words: &[Id],
    limit: u32,
    chart: &mut Chart,
    prediction: &mut Prediction,
) -> Result<bool, Memory>
    requires base { IsOver library.now (sentence_of arena.now) × IsStored library.now }
    requires stands { (k : ℕ) × Stands (judge library.now) (rules_of library.now)
        (map (λ (w : Id). w.0) words.now) chart.old.edges k [] }
    requires ready { IsReady (rules_of library.now) library.now (sentence_of arena.now) limit
        chart.old.edges }
    requires predicted { IsPrediction library.now (map (λ (w : Id). w.0) words.now) prediction.old
        chart.old.edges }
    requires few { length chart.old.edges ≤ limit }
    ensures predicted { IfOk result (λ done. done ≡ true → IsFurther library.now
        (map (λ (w : Id). w.0) words.now) (sentence_of arena.now) limit chart.old.edges
        prediction.new
        chart.new.edges) }
    ensures complete { IfOk result (λ done. done ≡ true → IsPredicted (judge library.now)
        (rules_of library.now) (map (λ (w : Id). w.0) words.now) (derivations chart.new.edges)) }
    ensures more { IfOk result (λ done. done ≡ false → HasMoreThan (judge library.now)
        (rules_of library.now) (map (λ (w : Id). w.0) words.now) limit) }
    ensures words { IfOk result (λ done. chart.new.words ≡ chart.old.words) }
{
    while prediction.seen < chart.len() {
        if !follow(
            library,
            arena,
            prediction.seen,
            limit,
            chart,
            &mut prediction.marks,
        )? {
            return Ok(false);
        }
        prediction.seen += 1;
    }
    Ok(true)
}
