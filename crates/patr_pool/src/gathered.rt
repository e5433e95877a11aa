// What several workers leave, put together.
ghost use Rattle.std.specs.Prelude.{◌≡◌, ◌+◌, ◌||◌, false, [], All, length, IfOk, OnOk};
ghost use Rattle.patr_pool.specs.Rounds.{IsRun, HasRun, AreGathered};

use crate::Memory;
use crate::work::{Work, Yield};
use crate::worker::Ran;
use crate::workers::Worker;
use patr_claims::Desk;
use std::alloc::{AllocError, Global};

/// The seats, the locals and all yields of several workers, and whether one of them said Stop.
#[derive(Drop)]
pub struct Gathered<S, L, T> {
    pub seats: Vec<S>,
    pub locals: Vec<L>,
    pub yields: Vec<Yield<T>>,
    pub stopped: bool,
}

/// Nothing yet.
pub fn none_yet<S, L, T>(alloc: Global) -> Gathered<S, L, T>
    ensures { (result.seats.items ≡ []) × (result.locals.items ≡ []) × (result.yields.items ≡ []) ×
        (result.stopped ≡ false) }
{
    Gathered {
        seats: Vec::new(alloc),
        locals: Vec::new(alloc),
        yields: Vec::new(alloc),
        stopped: false,
    }
}

/// One worker more.
pub fn add<D: Desk, W: Work>(
    desk: &D,
    work: &W,
    all: &mut Gathered<D::Seat, W::Local, W::Out>,
    ran: Ran<D::Seat, W::Local, W::Out>,
) -> Result<(), Memory>
    requires ran { IsRun (D.is_seat desk.now) D.taken D.has_seen_none (W.first_fact work.now)
        (W.second_fact work.now) ran }
    requires all { AreGathered (D.is_seat desk.now) D.taken D.has_seen_none (W.first_fact work.now)
        (W.second_fact work.now) all.old }
    ensures all { OnOk result (AreGathered (D.is_seat desk.now) D.taken D.has_seen_none
        (W.first_fact work.now) (W.second_fact work.now) all.new) }
    ensures count { OnOk result (length all.new.seats.items ≡ length all.old.seats.items + 1) }
{
    let Ran {
        seat,
        local,
        mut yields,
        stopped,
    } = ran;
    all.seats.push(seat)?;
    all.locals.push(local)?;
    all.yields.append(&mut yields)?;
    all.stopped = either(all.stopped, stopped);
    Ok(())
}

fn either(first: bool, second: bool) -> bool
    ensures { result ≡ (first || second) }
{
    first || second
}

// What the worker left.
fn ran_of<D: Desk, W: Work>(
    desk: &D,
    work: &W,
    worker: Worker<D::Seat, W::Local, W::Out>,
) -> Result<Ran<D::Seat, W::Local, W::Out>, Memory>
    requires { HasRun (D.is_seat desk.now) D.taken D.has_seen_none (W.first_fact work.now)
        (W.second_fact work.now) worker }
    ensures { IfOk result (IsRun (D.is_seat desk.now) D.taken D.has_seen_none
        (W.first_fact work.now) (W.second_fact work.now)) }
{
    let _ = desk;
    let _ = work;
    match worker {
        Worker::Ready(_) => unreachable!(),
        Worker::Done(ran) => Ok(ran),
        Worker::Failed => Err(AllocError),
    }
}

/// What the workers leave together. Fails for memory alone: that of the workers or that of the
/// lists.
pub fn gather<D: Desk, W: Work>(
    alloc: Global,
    desk: &D,
    work: &W,
    workers: Vec<Worker<D::Seat, W::Local, W::Out>>,
) -> Result<Gathered<D::Seat, W::Local, W::Out>, Memory>
    requires { All (HasRun (D.is_seat desk.now) D.taken D.has_seen_none (W.first_fact work.now)
        (W.second_fact work.now)) workers.items }
    ensures runs { IfOk result (AreGathered (D.is_seat desk.now) D.taken D.has_seen_none
        (W.first_fact work.now) (W.second_fact work.now)) }
    ensures count { IfOk result (λ all. length all.seats.items ≡ length workers.items) }
{
    let mut all = none_yet(alloc);
    for worker in workers {
        let ran = ran_of(desk, work, worker)?;
        add(desk, work, &mut all, ran)?;
    }
    Ok(all)
}
