// Several workers, beside each other.
ghost use Rattle.std.specs.Prelude.{◌≡◌, ◌≤◌, ◌+◌, ◌<◌, false, [], All, length, IfOk};
ghost use Rattle.patr_pool.specs.Rounds.{IsReady, CanRun, HasRun};

use crate::Memory;
use crate::gate::Gate;
use crate::work::Work;
use crate::worker::{Ran, work_through};
use patr_claims::Desk;
use std::alloc::Global;
use std::thread::Threads;
use std::{mem, thread};

/// What a worker begins with.
#[derive(Drop)]
pub struct Waiting<S, L> {
    pub seat: S,
    pub local: L,
}

/// A worker before its run and after it.
#[derive(Drop)]
pub enum Worker<S, L, T> {
    Ready(Waiting<S, L>),
    Done(Ran<S, L, T>),
    /// Memory was short.
    Failed,
}

/// Worker k has seat k and local k.
pub fn workers_of<D: Desk, W: Work>(
    alloc: Global,
    desk: &D,
    work: &W,
    seats: Vec<D::Seat>,
    locals: Vec<W::Local>,
) -> Result<Vec<Worker<D::Seat, W::Local, W::Out>>, Memory>
    requires count { length seats.items ≡ length locals.items }
    requires seats { All (λ seat. D.is_seat desk.now seat × (D.taken seat ≡ []) ×
        (D.has_seen_none seat ≡ false)) seats.items }
    requires locals { All (W.second_fact work.now [] false) locals.items }
    ensures count { IfOk result (λ workers. length workers.items ≡ length seats.items) }
    ensures each { IfOk result (λ workers. All (CanRun (D.is_seat desk.now) D.taken D.has_seen_none
        (W.first_fact work.now) (W.second_fact work.now)) workers.items) }
{
    let _ = desk;
    let _ = work;
    let mut workers = Vec::with_capacity(alloc, seats.len())?;
    let mut locals = locals.into_iter();
    for seat in seats {
        let Some(local) = locals.next() else {
            unreachable!()
        };
        workers.push_reserved(Worker::Ready(Waiting { seat, local }));
    }
    Ok(workers)
}

// Runs one worker, in place.
fn run_one<D: Desk, G: Gate, W: Work>(
    alloc: Global,
    desk: &D,
    of: u64,
    gate: &G,
    work: &W,
    number: u32,
    worker: &mut Worker<D::Seat, W::Local, W::Out>,
)
    requires ready { CanRun (D.is_seat desk.now) D.taken D.has_seen_none (W.first_fact work.now)
        (W.second_fact work.now) worker.old }
    requires tasks { (of ≡ D.tasks desk.now) × (of ≡ W.tasks work.now) }
    ensures { HasRun (D.is_seat desk.now) D.taken D.has_seen_none (W.first_fact work.now)
        (W.second_fact work.now) worker.new }
{
    let Worker::Ready(Waiting { seat, local }) = mem::replace(worker, Worker::Failed) else {
        unreachable!()
    };
    if let Ok(ran) = work_through(alloc, desk, of, gate, work, number, seat, local) {
        *worker = Worker::Done(ran);
    }
}

/// Runs all workers, each in a thread of its own where one can be made: the calling thread runs one
/// of them, and of the others those for which no thread can be made. Starting them takes no memory.
pub fn run_all<D: Desk, G: Gate + Sync, W: Work + Sync, R: Threads + Sync>(
    rt: &R,
    alloc: Global,
    desk: &D,
    of: u64,
    gate: &G,
    work: &W,
    workers: &mut Vec<Worker<D::Seat, W::Local, W::Out>>,
)
    requires ready { All (CanRun (D.is_seat desk.now) D.taken D.has_seen_none
        (W.first_fact work.now) (W.second_fact work.now)) workers.old.items }
    requires tasks { (of ≡ D.tasks desk.now) × (of ≡ W.tasks work.now) }
    ensures count { length workers.new.items ≡ length workers.old.items }
    ensures each { All (HasRun (D.is_seat desk.now) D.taken D.has_seen_none (W.first_fact work.now)
        (W.second_fact work.now)) workers.new.items }
{
    let count = workers.len().max(1);
    thread::for_each_mut(
        rt,
        workers.as_mut_slice(),
        count,
        &|number: usize, worker: &mut Worker<D::Seat, W::Local, W::Out>|
            requires { (of ≡ D.tasks desk.now) × (of ≡ W.tasks work.now) × CanRun
                (D.is_seat desk.now) D.taken D.has_seen_none (W.first_fact work.now)
                (W.second_fact work.now) worker.old }
            ensures { HasRun (D.is_seat desk.entry.now) D.taken D.has_seen_none
                (W.first_fact work.entry.now) (W.second_fact work.entry.now) worker.new }
        {
            let number = u32::try_from(number).unwrap_or(u32::MAX);
            run_one(alloc, desk, of, gate, work, number, worker);
        },
    );
}
