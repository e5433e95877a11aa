ghost use Rattle.std.specs.Prelude.{◌≡◌, ◌+◌, ◌<◌, ◌≤◌, ◌^◌, IfOk, length};
ghost use Rattle.patr_pool.specs.declared.work.Outcome.TheVariants.{Made};

use crate::round::Alone;
use crate::{Docket, Gate, LoneWork, Memory, OpenGate, Outcome, Round, Work, run_alone, run_round};
use patr_claims::CounterDesk;
use std::alloc::Global;
use std::sync::atomic::{AtomicBool, Ordering};
use std::sync::{Mutex, Wait};
use std::test::*;
use std::thread;
use std::thread::Threads;

// Makes one more than the task's number.
#[derive(Clone, Copy)]
struct OneMore {
    tasks: u64,
}

impl LoneWork for OneMore {
    type Local = ();

    type Out = u64;

    ghost tasks = { λ it. it.tasks };

    ghost first_fact = { λ _ task outcome. outcome ≡ Made (task + 1) };

    ghost second_fact = { λ _ _ _ _. Unit {0} };

    fn one(
        &self,
        _alloc: Global,
        _worker: u32,
        _local: &mut (),
        task: u64,
    ) -> Result<Outcome<u64>, Memory> {
        let _tasks = self.tasks;
        Ok(Outcome::Made(task + 1))
    }
}

// Says Stop at one task, and makes of the others their number.
#[derive(Drop)]
struct StopsAt {
    tasks: u64,
    end: u64,
}

impl LoneWork for StopsAt {
    type Local = ();

    type Out = u64;

    ghost tasks = { λ it. it.tasks };

    ghost first_fact = { λ _ _ _. Unit {0} };

    ghost second_fact = { λ _ _ _ _. Unit {0} };

    fn one(
        &self,
        _alloc: Global,
        _worker: u32,
        _local: &mut (),
        task: u64,
    ) -> Result<Outcome<u64>, Memory> {
        if task == self.end {
            return Ok(Outcome::Stop);
        }
        Ok(Outcome::Made(task))
    }
}

// Counts the tasks under a lock, so its calls may wait.
#[derive(Drop)]
struct Counting<'a, R: Wait> {
    rt: &'a R,
    done: Mutex<u64>,
    tasks: u64,
}

impl<'a, R: Wait + Sync> Work for Counting<'a, R> {
    type Local = ();

    type Out = ();

    ghost tasks = { λ it. it.tasks };

    ghost first_fact = { λ _ _ _. Unit {0} };

    ghost second_fact = { λ _ _ _ _. Unit {0} };

    fn one(
        &self,
        _alloc: Global,
        _worker: u32,
        _local: &mut (),
        _task: u64,
    ) -> Result<Outcome<()>, Memory> {
        let mut done = self.done.lock(self.rt);
        *done = done.wrapping_add(1);
        Ok(Outcome::Nothing)
    }
}

// Holds task 0 until task 1 has begun, and task 1 until task 0 has, for so many turns at most.
#[derive(Drop)]
struct Meeting {
    begun: [AtomicBool; 2],
    met: [AtomicBool; 2],
}

const TURNS: u32 = 10_000_000;

impl Meeting {
    fn wait_for(&self, mine: usize, other: usize)
        requires { (mine < 2) × (other < 2) }
    {
        self.begun[mine].store(true, Ordering::SeqCst);
        for _ in 0..TURNS {
            if self.begun[other].load(Ordering::SeqCst) {
                self.met[mine].store(true, Ordering::SeqCst);
                return;
            }
            thread::yield_now();
        }
    }
}

impl Gate for Meeting {
    fn pass(&self, _worker: u32, task: u64, _of: u64) {
        if task == 0 {
            self.wait_for(0, 1);
        } else if task == 1 {
            self.wait_for(1, 0);
        }
    }
}

fn no_locals(alloc: Global, seats: usize) -> Result<Vec<()>, Memory>
    ensures { IfOk result (λ locals. length locals.items ≡ seats) }
{
    let mut locals = Vec::with_capacity(alloc, seats)?;
    for _ in 0..seats {
        locals.push_reserved(());
    }
    Ok(locals)
}

// A round of so many tasks and workers.
fn made<G: Gate + Sync, R: Threads + Wait + Sync>(
    rt: &R,
    alloc: Global,
    tasks: u64,
    seats: u32,
    gate: &G,
    docket: &mut Docket,
) -> Result<Round<(), u64>, Memory>
    requires tasks { tasks < 2 ^ 63 }
    requires seats { (1 ≤ seats) × (seats ≤ 16) }
{
    let (desk, seats) = CounterDesk::new(alloc, tasks, seats)?;
    let locals = no_locals(alloc, seats.len())?;
    run_round(
        rt,
        alloc,
        desk,
        seats,
        locals,
        tasks,
        gate,
        &Alone(&OneMore { tasks }),
        docket,
    )
}

// Whether there is a yield of each of so many tasks, in order.
fn is_whole(round: &Round<(), u64>, tasks: u64, workers: usize) -> bool {
    let mut given = 0u64;
    for list in round.lists.iter() {
        given = given.wrapping_add(list.len() as u64);
    }
    let mut next = 0u64;
    for made in round.yields.iter() {
        if made.task != next || made.out.wrapping_sub(1) != next {
            return false;
        }
        next = next.wrapping_add(1);
    }
    !round.stopped && round.lists.len() == workers && given == tasks && next == tasks
}

#[test]
fn two_workers_make_five(rt: HostRuntime) -> Result<(), Fail> {
    let mut docket = Docket::new();
    let round = made(&rt, rt.alloc(), 5, 2, &OpenGate, &mut docket)?;
    assert!(rt; is_whole(&round, 5, 2) && docket.tasks() == 5);
    Ok(())
}

#[test]
fn four_workers_make_many(rt: HostRuntime) -> Result<(), Fail> {
    let mut docket = Docket::new();
    let round = made(&rt, rt.alloc(), 100_000, 4, &OpenGate, &mut docket)?;
    assert!(rt; is_whole(&round, 100_000, 4) && docket.tasks() == 100_000);
    Ok(())
}

#[test]
fn two_workers_begin_beside_each_other(rt: HostRuntime) -> Result<(), Fail> {
    let mut docket = Docket::new();
    let gate = Meeting {
        begun: [AtomicBool::new(false), AtomicBool::new(false)],
        met: [AtomicBool::new(false), AtomicBool::new(false)],
    };
    let round = made(&rt, rt.alloc(), 2, 2, &gate, &mut docket)?;
    assert!(rt; is_whole(&round, 2, 2));
    assert!(rt; gate.met[0].load(Ordering::SeqCst) && gate.met[1].load(Ordering::SeqCst));
    Ok(())
}

#[test]
fn a_work_may_wait(rt: HostRuntime) -> Result<(), Fail> {
    let alloc = rt.alloc();
    let (desk, seats) = CounterDesk::new(alloc, 5, 2)?;
    let locals = no_locals(alloc, 2)?;
    let mut docket = Docket::new();
    let work = Counting {
        rt: &rt,
        done: Mutex::new(0),
        tasks: 5,
    };
    let round = run_round(
        &rt,
        alloc,
        desk,
        seats,
        locals,
        5,
        &OpenGate,
        &work,
        &mut docket,
    )?;
    assert!(rt; round.yields.is_empty() && work.done.into_inner() == 5);
    Ok(())
}

#[test]
fn one_worker_makes_five(rt: HostRuntime) -> Result<(), Fail> {
    let alloc = rt.alloc();
    let (desk, mut seats) = CounterDesk::new(alloc, 5, 1)?;
    let Some(seat) = seats.pop() else {
        panic!(rt; "no seat")
    };
    let round = run_alone(alloc, desk, seat, (), 5, &OpenGate, &OneMore { tasks: 5 })?;
    assert!(rt; is_whole(&round, 5, 1));
    Ok(())
}

#[test]
fn a_stop_ends_a_worker(rt: HostRuntime) -> Result<(), Fail> {
    let alloc = rt.alloc();
    let (desk, mut seats) = CounterDesk::new(alloc, 5, 1)?;
    let Some(seat) = seats.pop() else {
        panic!(rt; "no seat")
    };
    let work = StopsAt { tasks: 5, end: 3 };
    let round = run_alone(alloc, desk, seat, (), 5, &OpenGate, &work)?;
    assert!(rt; round.stopped && round.yields.len() == 3 && round.lists.len() == 1);
    assert!(rt; round.lists[0].as_slice() == [0, 1, 2, 3].as_slice());
    Ok(())
}
