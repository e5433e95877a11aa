//! Parsing a sentence.
ghost use Rattle.std.specs.Prelude.{◌≡◌, ◌+◌, ◌<◌, ◌≤◌, length, map, IfOk, IfErr};
ghost use Rattle.patr_arena.specs.Blocks.{Extends};
ghost use Rattle.patr_model.specs.Session.{words_of};
ghost use Rattle.patr_parse.specs.Sentences.{IsParsed, IsRefusedFor};

use crate::analyses::analyses_of;
use crate::closing::close;
use crate::parsed::Parsed;
use crate::rounds::Closing;
use crate::sentence::{numbers_of, words_of};
use crate::work::Local;
use patr_arena::{SentenceArena, View};
use patr_chart::Chart;
use patr_library::Library;
use patr_pool::Gate;
use patr_scratch::Scratch;
use patr_text::{Fault, Symbols};
use patr_unify::Steps;
use std::alloc::Global;
use std::mem;
use std::sync::ledger::Ledger;
use thiserror::Error;

/// Why a sentence has no chart.
#[derive(Clone, Copy, Debug, PartialEq, Eq, Error)]
pub enum ParseCause {
    /// The sentence has more than 256 words; so many.
    #[error("more than 256 words ({count})")]
    TooManyWords { count: u64 },
    /// This word, counted from 1, has no entry, and those before it have one.
    #[error("unknown word at {position}")]
    UnknownWord { position: u32 },
    /// The closed chart has more edges than the limit, or an edge whose derivation has more nodes.
    #[error("more than {limit} edges")]
    TooManyEdges { limit: u32 },
}

/// The closed chart of a sentence and its analyses, found by one worker. `limit` is the most edges that the chart may
/// have. The same as `parse_words` of its words, with marks of its own.
pub fn parse_alone<'a, G: Gate, L: Ledger>(
    alloc: Global,
    library: &'a Library,
    symbols: &Symbols,
    sentence: &str,
    limit: u32,
    gate: &G,
    steps: &mut Steps<L>,
) -> Result<Parsed<'a>, Fault<ParseCause>>
    requires words { 0 < length (words_of sentence.now) }
    requires limit { (1 ≤ limit) × (limit ≤ 200000) }
    ensures parsed { IfOk result (λ p. IsParsed library.now symbols.now
        (words_of sentence.now) limit p) }
    ensures steps { IfOk result (λ p. steps.new ≡ steps.old + p.decided) }
    ensures refused { IfErr result (λ fault. IsRefusedFor library.now symbols.now
        (words_of sentence.now) limit fault) }
    ensures base { IfOk result (λ p. Extends library.now.shown p.shown) }
{
    let words = words_of(alloc, sentence)?;
    let mut scratch = Scratch::new(alloc);
    parse_words(
        alloc,
        library,
        symbols,
        &words,
        limit,
        gate,
        &mut scratch,
        steps,
    )
}

/// So many steps more.
fn count<L: Ledger>(steps: &mut Steps<L>, times: u64)
    ensures { steps.new ≡ steps.old + times }
{
    let mut left = times;
    while left > 0 {
        steps.tick();
        left -= 1;
    }
}

/// The closed chart of these words and its analyses, found by one worker. `limit` is the most edges that the chart may
/// have. Unifications mark nodes in `scratch`, whose room one sentence leaves to the next.
///
/// The nodes that it shows are those of the library's arena, which stay where they are, and behind them the sentence's
/// own.
///
/// `Fault::Refused` gives the first cause for which the sentence is refused, and `Fault::Memory` says that memory ran out.
pub fn parse_words<'a, G: Gate, L: Ledger>(
    alloc: Global,
    library: &'a Library,
    symbols: &Symbols,
    words: &[&str],
    limit: u32,
    gate: &G,
    scratch: &mut Scratch,
    steps: &mut Steps<L>,
) -> Result<Parsed<'a>, Fault<ParseCause>>
    requires words { 0 < length words.now }
    requires limit { (1 ≤ limit) × (limit ≤ 200000) }
    ensures parsed { IfOk result (λ p. IsParsed library.now symbols.now
        (map (λ w. w.now) words.now) limit p) }
    ensures steps { IfOk result (λ p. steps.new ≡ steps.old + p.decided) }
    ensures refused { IfErr result (λ fault. IsRefusedFor library.now symbols.now
        (map (λ w. w.now) words.now) limit fault) }
    ensures base { IfOk result (λ p. Extends library.now.shown p.shown) }
{
    let numbers = match numbers_of(alloc, library, symbols, words) {
        Ok(numbers) => numbers,
        Err(fault) => return Err(fault),
    };
    // the items are those of the grammar and the lexicon
    let _rules = library.rules();
    let mut closing = Closing {
        chart: Chart::new(alloc, numbers.len() as u32)?,
        arena: SentenceArena::over(alloc, library.arena()),
        local: Local {
            scratch: mem::replace(scratch, Scratch::new(alloc)),
            decided: 0,
        },
    };
    let closed = close(alloc, library, &numbers, limit, &mut closing, gate);
    let Closing {
        chart,
        arena,
        local,
    } = closing;
    *scratch = local.scratch;
    if !closed? {
        return Err(Fault::Refused(ParseCause::TooManyEdges { limit }));
    }
    let view = View::of(&arena);
    let analyses = analyses_of(alloc, library, &view, &numbers, &chart)?;
    count(steps, local.decided);
    Ok(Parsed {
        chart,
        analyses,
        arena,
        decided: local.decided,
    })
}
