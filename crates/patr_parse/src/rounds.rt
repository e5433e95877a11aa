//! A round: the tasks of the edges that no round had, and what they make.
ghost use Rattle.std.specs.Prelude.{◌≡◌, ℕ, List, ◌*◌, ◌≤◌, ◌++◌, true, false, [], length, not, IfOk, IfSome, IfNone};
ghost use Rattle.patr_model.specs.Chart.{HasMoreThan};
ghost use Rattle.patr_arena.specs.Sentences.{sentence_of};
ghost use Rattle.patr_library.specs.Stored.{rules_of};
ghost use Rattle.patr_parse.specs.Drafts.{AreDrafts, ArePlaced, drafts_of, is_stop};
ghost use Rattle.patr_parse.specs.Rounds.{IsCompleted, IsRoundAt};
ghost use Rattle.patr_parse.specs.Standing.{Stands};
ghost use Rattle.patr_parse.specs.Tasks.{judge, IsReady};

use crate::draft::{Draft, push_draft};
use crate::work::{Local, Outcome, RoundWork};
use patr_arena::{Memory, Nodes, SentenceArena};
use patr_chart::Chart;
use patr_library::Library;
use patr_pool::Gate;
use std::alloc::Global;

/// A chart while it is closed, with the nodes of its edges and the one worker.
#[derive(Drop)]
pub(crate) struct Closing<'a> {
    pub(crate) chart: Chart,
    pub(crate) arena: SentenceArena<'a>,
    pub(crate) local: Local,
}

/// Puts what a task made behind the other drafts. False where it stopped.
fn gather(outcome: Outcome<Vec<Draft>>, made: &mut Vec<Draft>) -> Result<bool, Memory>
    ensures made { IfOk result (λ _. made.new.items ≡ made.old.items ++ drafts_of outcome) }
    ensures goes_on { IfOk result (λ going. going ≡ not (is_stop outcome)) }
{
    match outcome {
        Outcome::Nothing => Ok(true),
        Outcome::Stop => Ok(false),
        Outcome::Made(mut drafts) => {
            made.append(&mut drafts)?;
            Ok(true)
        }
    }
}

/// Drafts what the edges of a round make with their partners. None where there are more edges than the limit, or one
/// with more nodes.
fn draft_all<N: Nodes, G: Gate>(
    alloc: Global,
    work: &RoundWork<'_, N>,
    local: &mut Local,
    gate: &G,
) -> Result<Option<Vec<Draft>>, Memory>
    requires ready { IsReady (rules_of work.now.library.now) work.now.library.now
        (N.shown work.now.nodes.now) work.now.limit work.now.chart.now.edges }
    requires limit { (work.now.limit ≤ 200000) × (length work.now.chart.now.edges ≤ work.now.limit) }
    requires within { work.now.worked ≤ length work.now.chart.now.edges }
    requires count { local.old.decided ≤ work.now.worked * 200000 }
    ensures gave { IfOk result (λ found. IfSome found (λ made. IsRoundAt work.now.library.now
        (N.shown work.now.nodes.now) work.now.chart.now work.now.limit work.now.worked
        local.old.decided
        (length work.now.chart.now.edges) local.new.decided made.items)) }
    ensures more { (ws : List ℕ) → Stands (judge work.now.library.now) (rules_of
        work.now.library.now) ws
        work.now.chart.now.edges work.now.worked []
        → IfOk result (λ found. IfNone found (HasMoreThan (judge work.now.library.now)
        (rules_of work.now.library.now) ws work.now.limit)) }
{
    let mut made = Vec::new(alloc);
    let end = work.chart.len();
    let of = (end - work.worked) as u64;
    let room = (work.limit - end) as usize;
    for task in 0..of {
        gate.pass(0, task, of);
        let outcome = work.one(alloc, 0, local, task)?;
        if !gather(outcome, &mut made)? {
            return Ok(None);
        }
        if made.len() > room {
            return Ok(None);
        }
    }
    Ok(Some(made))
}

/// Puts drafts behind a chart's edges, and their nodes behind those by which they were made.
fn push_all(
    chart: &mut Chart,
    arena: &mut SentenceArena<'_>,
    drafts: Vec<Draft>,
) -> Result<(), Memory>
    requires { (limit : ℕ) × AreDrafts (sentence_of arena.old) chart.old.words chart.old.edges limit
        drafts.items }
    ensures placed { IfOk result (λ _. ArePlaced (sentence_of arena.old) (sentence_of arena.new)
        drafts.items chart.old.edges chart.new.edges) }
    ensures words { IfOk result (λ _. chart.new.words ≡ chart.old.words) }
{
    for draft in drafts {
        push_draft(chart, arena, draft)?;
    }
    Ok(())
}

/// Works the edges from `worked` on, and puts what they make with their partners behind the others. False where there
/// are more edges than the limit, or one with more nodes.
pub(crate) fn complete<G: Gate>(
    alloc: Global,
    library: &Library,
    limit: u32,
    worked: u32,
    closing: &mut Closing<'_>,
    gate: &G,
) -> Result<bool, Memory>
    requires ready { IsReady (rules_of library.now) library.now (sentence_of closing.old.arena)
        limit
        closing.old.chart.edges }
    requires limit { (limit ≤ 200000) × (length closing.old.chart.edges ≤ limit) }
    requires within { worked ≤ length closing.old.chart.edges }
    requires count { closing.old.local.decided ≤ worked * 200000 }
    ensures completed { IfOk result (λ done. done ≡ true
        → IsCompleted library.now limit worked closing.old closing.new) }
    ensures more { (ws : List ℕ) → Stands (judge library.now) (rules_of library.now) ws
        closing.old.chart.edges worked []
        → IfOk result (λ done. done ≡ false
        → HasMoreThan (judge library.now) (rules_of library.now) ws limit) }
{
    let work = RoundWork {
        library,
        chart: &closing.chart,
        nodes: &closing.arena,
        limit,
        worked,
    };
    let Some(drafts) = draft_all(alloc, &work, &mut closing.local, gate)? else {
        return Ok(false);
    };
    push_all(&mut closing.chart, &mut closing.arena, drafts)?;
    Ok(true)
}
