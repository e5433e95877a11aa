// One worker.
ghost use Rattle.std.specs.Prelude.{◌≡◌, ℕ, ◌<◌, ◌⊎◌, Bool, true, false, List, [], ◌∷◌, ◌++◌, IfOk};
ghost use Rattle.patr_pool.specs.Outcomes.{AreOthers, IsAmongOthers, YieldsMore};
ghost use Rattle.patr_pool.specs.Rounds.{IsReady, IsRun};

use crate::Memory;
use crate::gate::Gate;
use crate::work::{Outcome, Work, Yield};
use patr_claims::Desk;
use std::alloc::Global;

/// What a worker leaves: its seat, its local, what it made, and whether it said Stop.
#[derive(Drop)]
pub struct Ran<S, L, T> {
    pub seat: S,
    pub local: L,
    pub yields: Vec<Yield<T>>,
    pub stopped: bool,
}

// Does one task, and says whether it was the worker's last.
fn do_task<G: Gate, W: Work>(
    alloc: Global,
    of: u64,
    gate: &G,
    work: &W,
    worker: u32,
    task: u64,
    local: &mut W::Local,
    yields: &mut Vec<Yield<W::Out>>,
) -> Result<bool, Memory>
    requires task { task < W.tasks work.now }
    requires others { IsAmongOthers (W.tasks work.now) (W.second_fact work.now) task local.old }
    ensures second { IfOk result (λ stop. (list : List ℕ) → AreOthers (W.tasks work.now) task list
        → W.second_fact work.now list false local.old → W.second_fact work.now
        (list ++ task ∷ []) stop local.new) }
    ensures yields { IfOk result (λ stop. YieldsMore (W.first_fact work.now) task stop
        yields.old.items yields.new.items) }
{
    gate.pass(worker, task, of);
    match work.one(alloc, worker, local, task)? {
        Outcome::Nothing => Ok(false),
        Outcome::Made(out) => {
            yields.push(Yield { task, out })?;
            Ok(false)
        }
        Outcome::Stop => Ok(true),
    }
}

/// Takes tasks until there are none, or one says Stop.
pub fn work_through<D: Desk, G: Gate, W: Work>(
    alloc: Global,
    desk: &D,
    of: u64,
    gate: &G,
    work: &W,
    worker: u32,
    mut seat: D::Seat,
    mut local: W::Local,
) -> Result<Ran<D::Seat, W::Local, W::Out>, Memory>
    requires ready { IsReady (D.is_seat desk.now) D.taken D.has_seen_none
        (W.second_fact work.now) seat local }
    requires tasks { (of ≡ D.tasks desk.now) × (of ≡ W.tasks work.now) }
    ensures { IfOk result (IsRun (D.is_seat desk.now) D.taken D.has_seen_none
        (W.first_fact work.now) (W.second_fact work.now)) }
{
    let mut yields = Vec::new(alloc);
    while let Some(task) = desk.take(&mut seat) {
        if do_task(alloc, of, gate, work, worker, task, &mut local, &mut yields)? {
            return Ok(Ran {
                seat,
                local,
                yields,
                stopped: true,
            });
        }
    }
    Ok(Ran {
        seat,
        local,
        yields,
        stopped: false,
    })
}
