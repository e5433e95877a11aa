//! Where a run may be held up between tasks.

/// What a worker passes before each task of a round.
pub trait Gate {
    /// Called by this worker before this task of so many.
    fn pass(&self, worker: u32, task: u64, of: u64);
}

/// A gate that holds nobody up.
#[derive(Clone, Copy, Debug, Default, PartialEq, Eq)]
pub struct OpenGate;

impl Gate for OpenGate {
    fn pass(&self, _worker: u32, _task: u64, _of: u64) {}
}
