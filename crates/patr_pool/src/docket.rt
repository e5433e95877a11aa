//! How many tasks rounds have given out.
ghost use Rattle.std.specs.Prelude.{◌≡◌, ◌+◌, ◌-◌, ◌^◌, min, sum_by, vec_len};

use std::marker::Model;

/// Counts the tasks of rounds. Only `run_round` raises it. To a contract it is their number.
#[derive(Drop)]
pub struct Docket {
    tasks: u64,
}

impl Model for Docket {
    ghost use Rattle.std.specs.Prelude.{ℕ};

    ghost Value = { ℕ };

    ghost view = { λ docket. docket.tasks };
}

impl Docket {
    /// No task yet.
    pub fn new() -> Docket
        ensures { result ≡ 0 }
    {
        Docket { tasks: 0 }
    }

    /// The number of tasks, or 2^64 - 1 where it would be larger.
    pub fn tasks(&self) -> u64
        ensures { result ≡ self.now }
    {
        self.tasks
    }

    // The tasks of these lists more.
    pub(crate) fn add(&mut self, lists: &Vec<Vec<u64>>)
        ensures { self.new ≡ min (self.old + sum_by (λ list. vec_len list) lists.now.items)
            (2 ^ 64 - 1) }
    {
        let mut tasks = self.tasks;
        for list in lists {
            tasks = tasks.saturating_add(list.len() as u64);
        }
        self.tasks = tasks;
    }
}
