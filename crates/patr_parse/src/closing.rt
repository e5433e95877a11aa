//! The closed chart of a sentence, found in rounds.
ghost use Rattle.std.specs.Prelude.{◌≡◌, ◌≤◌, true, false, [], length, map, IfOk};
ghost use Rattle.patr_text.specs.declared.symbols.Id.{Id};
ghost use Rattle.patr_model.specs.Chart.{HasMoreThan};
ghost use Rattle.patr_arena.specs.Sentences.{sentence_of};
ghost use Rattle.patr_library.specs.Stored.{IsStored, rules_of};
ghost use Rattle.patr_parse.specs.Tasks.{judge, IsOver};
ghost use Rattle.patr_parse.specs.Closing.{IsClosed};

use crate::prediction::{initialize, predict};
use crate::rounds::{Closing, complete};
use patr_arena::Memory;
use patr_library::Library;
use patr_pool::Gate;
use patr_text::Id;
use std::alloc::Global;

/// Closes a chart of the words that has no edges. False where the closed chart has more edges than the limit.
pub(crate) fn close<G: Gate>(
    alloc: Global,
    library: &Library,
    words: &[Id],
    limit: u32,
    closing: &mut Closing<'_>,
    gate: &G,
) -> Result<bool, Memory>
    requires base { IsOver library.now (sentence_of closing.old.arena) × IsStored library.now }
    requires words { length words.now ≤ 256 }
    requires limit { limit ≤ 200000 }
    requires fresh { (closing.old.chart.edges ≡ []) × (closing.old.chart.words ≡ length words.now)
        × (closing.old.local.decided ≡ 0) }
    ensures closed { IfOk result (λ done. done ≡ true → IsClosed library.now
        (map (λ (w : Id). w.0) words.now) limit (sentence_of closing.new.arena) closing.new.chart
        closing.new.local.decided) }
    ensures more { IfOk result (λ done. done ≡ false → HasMoreThan (judge library.now)
        (rules_of library.now) (map (λ (w : Id). w.0) words.now) limit) }
{
    let arena = &closing.arena;
    let Some(mut prediction) = initialize(alloc, library, arena, words, limit, &mut closing.chart)?
    else {
        return Ok(false);
    };
    let mut worked = 0;
    loop {
        let arena = &closing.arena;
        if !predict(
            library,
            arena,
            words,
            limit,
            &mut closing.chart,
            &mut prediction,
        )? {
            return Ok(false);
        }
        let end = closing.chart.len();
        if worked == end {
            return Ok(true);
        }
        if !complete(alloc, library, limit, worked, closing, gate)? {
            return Ok(false);
        }
        worked = end;
    }
}
