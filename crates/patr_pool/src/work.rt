//! What is to be done with a task.
ghost use Rattle.std.specs.Prelude.{◌≡◌, ℕ, ◌<◌, Bool, false, List, [], ◌∷◌, ◌++◌, IfOk};
ghost use Rattle.patr_pool.specs.Outcomes.{IsAmongOthers, GoesOn};
ghost use Rattle.patr_pool.specs.declared.work.Outcome.{Outcome};

use crate::Memory;
use std::alloc::Global;

/// What came of a task.
#[derive(Drop)]
pub enum Outcome<T> {
    /// Nothing was made.
    Nothing,
    /// This was made.
    Made(T),
    /// The worker is to take no more tasks.
    Stop,
}

/// What was made of a task.
#[derive(Drop)]
pub struct Yield<T> {
    /// The task's number.
    pub task: u64,
    /// What was made of it.
    pub out: T,
}

/// What workers do with the tasks, beside each other. Its call may wait where its type holds a
/// handle.
pub trait Work {
    /// What is a worker's own, from task to task.
    type Local: Drop + Send;

    /// What is made of a task.
    type Out: Drop + Send;

    /// The number of tasks.
    ghost tasks: { Self → ℕ };

    /// What holds of a task and its outcome.
    ghost first_fact: { Self → ℕ → Outcome Self.Out → Type 0 };

    /// What holds of the tasks that a worker did, whether the last outcome was Stop, and the
    /// worker's local.
    ghost second_fact: { Self → List ℕ → Bool → Self.Local → Type 0 };

    /// Does this task, as this worker, and says what came of it. Fails for memory alone.
    fn one(
        &self,
        alloc: Global,
        worker: u32,
        local: &mut Self::Local,
        task: u64,
    ) -> Result<Outcome<Self::Out>, Memory>
        requires task { task < tasks self.now }
        requires others { IsAmongOthers (tasks self.now) (second_fact self.now) task local.old }
        ensures first { IfOk result (λ outcome. first_fact self.now task outcome) }
        ensures second { IfOk result (GoesOn (tasks self.now)
            (second_fact self.now) task local.old local.new) };
}

/// What one worker does with the tasks. Where its type holds no handle, its call can't wait.
pub trait LoneWork {
    /// What is the worker's own, from task to task.
    type Local: Drop + Send;

    /// What is made of a task.
    type Out: Drop + Send;

    /// The number of tasks.
    ghost tasks: { Self → ℕ };

    /// What holds of a task and its outcome.
    ghost first_fact: { Self → ℕ → Outcome Self.Out → Type 0 };

    /// What holds of the tasks that were done, whether the last outcome was Stop, and the local.
    ghost second_fact: { Self → List ℕ → Bool → Self.Local → Type 0 };

    /// Does this task, as this worker, and says what came of it. Fails for memory alone.
    fn one(
        &self,
        alloc: Global,
        worker: u32,
        local: &mut Self::Local,
        task: u64,
    ) -> Result<Outcome<Self::Out>, Memory>
        requires task { task < tasks self.now }
        requires others { IsAmongOthers (tasks self.now) (second_fact self.now) task local.old }
        ensures first { IfOk result (λ outcome. first_fact self.now task outcome) }
        ensures second { IfOk result (GoesOn (tasks self.now)
            (second_fact self.now) task local.old local.new) };
}
