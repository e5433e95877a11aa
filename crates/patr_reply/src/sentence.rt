//! The reply to a sentence: a line for each analysis, one for its features, one for the number of edges.
ghost use Rattle.std.specs.Prelude.{◌≡◌, ℕ, ◌<◌, ◌++◌, [], List, length, map, codes, decimal, IfOk};
ghost use Rattle.std.specs.List.{AllByRecursion};
ghost use Rattle.std.specs.String.{string_bytes};
ghost use Rattle.patr_model.specs.Session.{Numbering, AgreesWith, IsSentenceReply, ListsAll, line};
ghost use Rattle.patr_model.specs.Solved.{solved};
ghost use Rattle.patr_model.specs.Table.{table_look};
ghost use Rattle.patr_model.specs.Text.{canonical, tree_text};
ghost use Rattle.patr_arena.specs.Shown.{ValueIsHeld, value_of};
ghost use Rattle.patr_canon.specs.Walks.{AreSpelled};
ghost use Rattle.patr_chart.specs.Charted.{tree};
ghost use Rattle.patr_library.specs.Stored.{keys, rules_of};
ghost use Rattle.patr_parse.specs.Found.{IsSound};
ghost use Rattle.patr_parse.specs.Sentences.{IsParsed};
ghost use Rattle.patr_reply.specs.Held.{AreHeldBy};
ghost use Rattle.patr_reply.specs.Lines.{count_line, grounds, listing, look_by, state_of, value_line};
ghost use Rattle.patr_reply.specs.Sources.{AreOfLibrary, IsReady};

use crate::tree::{Step, write_tree};
use patr_arena::{Nodes, Value};
use patr_canon::{TextRoom, write_canonical};
use patr_chart::Chart;
use patr_library::Library;
use patr_parse::Parsed;
use patr_text::{Memory, Symbols};
use std::alloc::Global;

/// Appends the line of an analysis' tree.
fn write_line(
    symbols: &Symbols,
    library: &Library,
    chart: &Chart,
    place: usize,
    number: u32,
    steps: &mut Vec<Step>,
    out: &mut String,
) -> Result<(), Memory>
    requires roots { AreOfLibrary (length symbols.now) library.now chart.now.edges }
    requires number { number < length chart.now.edges }
    ensures { (names : Numbering) → AgreesWith names symbols.now → IfOk result (λ _. string_bytes out.new ≡ string_bytes out.old ++ line (decimal place ++ codes " " ++ tree_text (look_by names) (rules_of library.now) (tree chart.now.edges number))) }
{
    write!(out, "{place} ")?;
    write_tree(symbols, library, chart, number, steps, out)?;
    out.push('\n')
}

/// Appends the line of a value's features.
fn write_features<'a, N: Nodes>(
    alloc: Global,
    symbols: &'a Symbols,
    nodes: &N,
    value: Value,
    room: &mut TextRoom<'a>,
    out: &mut String,
) -> Result<(), Memory>
    requires value { ValueIsHeld (N.shown nodes.now) value }
    requires spelled { AreSpelled (length symbols.now) (N.shown nodes.now).structure (value_of (N.shown nodes.now) value) }
    ensures { IfOk result (λ _. string_bytes out.new ≡ string_bytes out.old
        ++ line (codes "  " ++ canonical (table_look symbols.now []) (N.shown nodes.now).structure (value_of (N.shown nodes.now) value))) }
{
    out.push_str("  ")?;
    write_canonical(alloc, room, symbols, &[], nodes, value, out)?;
    out.push('\n')
}

/// Appends the line of an edge's features, where features are written.
fn write_value<'a, N: Nodes>(
    alloc: Global,
    symbols: &'a Symbols,
    chart: &Chart,
    nodes: &N,
    features: bool,
    number: u32,
    room: &mut TextRoom<'a>,
    out: &mut String,
) -> Result<(), Memory>
    requires { IsReady (length symbols.now) (N.shown nodes.now) chart.now.edges number }
    ensures { IfOk result (λ _. string_bytes out.new ≡ string_bytes out.old ++ value_line (table_look symbols.now []) (N.shown nodes.now) chart.now.edges features number) }
{
    if !features {
        return Ok(());
    }
    let root = chart.edge(number).root;
    write_features(alloc, symbols, nodes, root, room, out)
}

/// The reply that lists these analyses.
fn listed<N: Nodes>(
    alloc: Global,
    symbols: &Symbols,
    library: &Library,
    chart: &Chart,
    analyses: &[u32],
    nodes: &N,
    features: bool,
) -> Result<String, Memory>
    requires roots { AreOfLibrary (length symbols.now) library.now chart.now.edges }
    requires ready { AllByRecursion (IsReady (length symbols.now) (N.shown nodes.now) chart.now.edges) analyses.now }
    ensures { (names : Numbering) → AgreesWith names symbols.now → IfOk result (λ text. string_bytes text
        ≡ listing names symbols.now library.now (N.shown nodes.now) chart.now.edges features (length analyses.now) analyses.now) }
{
    let mut text = format!(in alloc; "analyses {}\n", analyses.len())?;
    // one analysis after another works in the same memory
    let mut steps = Vec::new(alloc);
    let mut room = TextRoom::new(alloc);
    for (place, number) in analyses.iter().enumerate() {
        write_line(
            symbols,
            library,
            chart,
            place + 1,
            *number,
            &mut steps,
            &mut text,
        )?;
        write_value(
            alloc, symbols, chart, nodes, features, *number, &mut room, &mut text,
        )?;
    }
    Ok(text)
}

/// Appends the line on the number of edges, where it is asked for.
fn write_count(chart: &Chart, count: bool, out: &mut String) -> Result<(), Memory>
    ensures { IfOk result (λ _. string_bytes out.new ≡ string_bytes out.old ++ count_line count (length chart.now.edges)) }
{
    if !count {
        return Ok(());
    }
    let edges = chart.len();
    write!(out, "edges {edges}\n")
}

/// The reply to a sentence that was parsed with this library: its analyses in order, each with its features where
/// `features` is on, and then the number of edges where `count` is on. `nodes` shows what `parsed.view()` shows, and
/// `symbols` has the texts of the library. Fails for want of memory alone.
pub fn reply<'a, N: Nodes>(
    alloc: Global,
    symbols: &Symbols,
    library: &Library,
    parsed: &Parsed<'a>,
    nodes: &N,
    features: bool,
    count: bool,
) -> Result<String, Memory>
    requires held { AreHeldBy (length symbols.now) library.now }
    requires shown { N.shown nodes.now ≡ parsed.now.shown }
    requires sound { (ws : List ℕ) × (limit : ℕ) × IsSound (rules_of library.now) keys.cat library.now ws limit parsed.now }
    ensures listed { (ws : List ℕ) (limit : ℕ) (names : Numbering) → IsSound (rules_of library.now) keys.cat library.now ws limit parsed.now → AgreesWith names symbols.now
        → IfOk result (λ text. ListsAll solved (grounds names library.now) (state_of limit features count) ws (string_bytes text)) }
    ensures sentence { (words : List (List ℕ)) (limit : ℕ) (names : Numbering) → IsParsed library.now symbols.now words limit parsed.now → AgreesWith names symbols.now
        → IfOk result (λ text. IsSentenceReply solved (grounds names library.now) (state_of limit features count) words (string_bytes text)) }
{
    // the table begins with the first texts
    let _count = symbols.len();
    let chart = parsed.chart();
    let mut text = listed(
        alloc,
        symbols,
        library,
        chart,
        parsed.analyses(),
        nodes,
        features,
    )?;
    write_count(chart, count, &mut text)?;
    Ok(text)
}
