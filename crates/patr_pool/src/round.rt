//! A round: several workers, or one, go through all tasks of a desk.
ghost use Rattle.std.specs.Prelude.{◌≡◌, ◌≤◌, ◌+◌, ◌-◌, ◌^◌, ◌<◌, ℕ, false, true, [], All, length, min, sum_by, vec_len, IfOk, IfErr};
ghost use Rattle.patr_pool.specs.Outcomes.{AreMade};
ghost use Rattle.patr_pool.specs.Placing.{AreRising};
ghost use Rattle.patr_pool.specs.Rounds.{IsReady, AreGathered, IsRound, tasks_in};

use crate::Memory;
use crate::docket::Docket;
use crate::gate::Gate;
use crate::gathered::{Gathered, add, gather, none_yet};
use crate::placing::rising;
use crate::work::{LoneWork, Outcome, Work, Yield};
use crate::worker::work_through;
use crate::workers::{run_all, workers_of};
use patr_claims::Desk;
use std::alloc::Global;
use std::sync::Wait;
use std::thread::Threads;

/// What a round gave.
#[derive(Drop)]
pub struct Round<L, T> {
    /// What each worker took, in order.
    pub lists: Vec<Vec<u64>>,
    /// The workers' locals.
    pub locals: Vec<L>,
    /// What was made, by rising task.
    pub yields: Vec<Yield<T>>,
    /// Whether a task's outcome was Stop.
    pub stopped: bool,
}

// Closes the desk, and puts the yields in order.
fn finish<D: Desk, W: Work>(
    alloc: Global,
    desk: D,
    work: &W,
    of: u64,
    all: Gathered<D::Seat, W::Local, W::Out>,
) -> Result<Round<W::Local, W::Out>, Memory>
    requires runs { AreGathered (D.is_seat desk) D.taken D.has_seen_none (W.first_fact work.now)
        (W.second_fact work.now) all }
    requires all { length all.seats.items ≡ D.seat_count desk }
    requires tasks { of ≡ D.tasks desk }
    ensures { IfOk result (IsRound of (W.first_fact work.now) (W.second_fact work.now)) }
{
    let Gathered {
        seats,
        locals,
        yields,
        stopped,
    } = all;
    let lists = desk.close(seats);
    let yields = rising(alloc, work, of, yields)?;
    Ok(Round {
        lists,
        locals,
        yields,
        stopped,
    })
}

// What one worker does, as several workers would.
#[derive(Drop)]
pub(crate) struct Alone<'a, W>(pub(crate) &'a W);

impl<'a, W: LoneWork> Work for Alone<'a, W> {
    type Local = W::Local;

    type Out = W::Out;

    ghost tasks = { λ it. W.tasks it.0.now };

    ghost first_fact = { λ it. W.first_fact it.0.now };

    ghost second_fact = { λ it. W.second_fact it.0.now };

    fn one(
        &self,
        alloc: Global,
        worker: u32,
        local: &mut W::Local,
        task: u64,
    ) -> Result<Outcome<W::Out>, Memory> {
        self.0.one(alloc, worker, local, task)
    }
}

/// One worker goes through all tasks, and waits for nobody. Fails for memory alone.
pub fn run_alone<D: Desk, G: Gate, W: LoneWork>(
    alloc: Global,
    desk: D,
    seat: D::Seat,
    local: W::Local,
    of: u64,
    gate: &G,
    work: &W,
) -> Result<Round<W::Local, W::Out>, Memory>
    requires count { D.seat_count desk ≡ 1 }
    requires ready { IsReady (D.is_seat desk) D.taken D.has_seen_none
        (W.second_fact work.now) seat local }
    requires tasks { (of ≡ D.tasks desk) × (of ≡ W.tasks work.now) }
    ensures { IfOk result (IsRound of (W.first_fact work.now) (W.second_fact work.now)) }
{
    let work = Alone(work);
    let ran = work_through(alloc, &desk, of, gate, &work, 0, seat, local)?;
    let mut all = none_yet(alloc);
    add(&desk, &work, &mut all, ran)?;
    finish(alloc, desk, &work, of, all)
}

/// Worker k goes through tasks with seat k and local k, beside the others, or one after another
/// where no thread can be made. The calling thread is one of the workers. When all have ended,
/// stopped or not, the desk is closed. The docket rises by the number of tasks in the lists. Fails
/// for memory alone, and the docket is then as before.
pub fn run_round<D: Desk, G: Gate + Sync, W: Work + Sync, R: Threads + Wait + Sync>(
    rt: &R,
    alloc: Global,
    desk: D,
    seats: Vec<D::Seat>,
    locals: Vec<W::Local>,
    of: u64,
    gate: &G,
    work: &W,
    docket: &mut Docket,
) -> Result<Round<W::Local, W::Out>, Memory>
    requires count { (length seats.items ≡ length locals.items) ×
        (length seats.items ≡ D.seat_count desk) }
    requires seats { All (λ seat. D.is_seat desk seat × (D.taken seat ≡ []) ×
        (D.has_seen_none seat ≡ false)) seats.items }
    requires locals { All (W.second_fact work.now [] false) locals.items }
    requires tasks { (of ≡ D.tasks desk) × (of ≡ W.tasks work.now) }
    ensures round { IfOk result (IsRound of (W.first_fact work.now) (W.second_fact work.now)) }
    ensures docket { IfOk result (λ round. docket.new ≡ min (docket.old + tasks_in round)
        (2 ^ 64 - 1)) }
    ensures kept { IfErr result (λ _. docket.new ≡ docket.old) }
{
    let mut workers = workers_of(alloc, &desk, work, seats, locals)?;
    run_all(rt, alloc, &desk, of, gate, work, &mut workers);
    let all = gather(alloc, &desk, work, workers)?;
    let round = finish(alloc, desk, work, of, all)?;
    docket.add(&round.lists);
    Ok(round)
}
