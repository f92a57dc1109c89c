//! A job, its state, and a worker's step.

/// A job: the place where it starts, and the place of its fault, if it has one.
#[derive(Clone, Copy)]
pub struct Job {
    pub start: u64,
    pub fault: Option<u64>,
}

/// The state of a job, with the worker that claimed it.
#[derive(Clone, Copy, Debug, PartialEq, Eq)]
pub enum JobState {
    /// No worker has claimed it.
    Untouched,
    /// Claimed, and not looked at yet.
    Held(u64),
    /// Its fault is found, and the least place is not lowered to it yet.
    Faulty(u64),
    /// It has no fault.
    Done(u64),
    /// The least place was below its start.
    Skipped(u64),
    /// The least place was lowered to its fault.
    Lowered(u64),
}

/// What a worker does in one step.
#[derive(Clone, Copy)]
pub enum Act {
    Claim,
    Look,
    Lower,
}

/// One act of one worker. Workers are numbered from 0.
#[derive(Clone, Copy)]
pub struct Step {
    pub worker: u64,
    pub act: Act,
}

/// Why a step is refused.
#[derive(Clone, Copy, Debug, PartialEq, Eq)]
pub enum BoardFault {
    /// There is no such worker.
    Worker = 1,
    /// It is not that worker's next act, or the worker has stopped.
    Order = 2,
}
