//! What a seat knows. No value of these types is ever made: only proofs have them.

use crate::job::{Job, JobState};
use std::collections::LinkedList;

/// A job that was claimed, and its state.
pub struct ClaimedJob {
    pub job: u64,
    pub state: JobState,
}

/// A worker of a seat, and whether it has stopped.
pub struct SeatWorker {
    pub worker: u64,
    pub stopped: bool,
}

/// The table's jobs and number of workers; the jobs that the seat's workers claimed, the latest
/// first; and those workers.
pub struct View {
    pub jobs: LinkedList<Job>,
    pub workers: u64,
    pub claimed: LinkedList<ClaimedJob>,
    pub crew: LinkedList<SeatWorker>,
}
