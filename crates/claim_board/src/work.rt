//! What the jobs do, and the gate that is told before and after each of them.

ghost use Rattle.std.specs.Prelude.{◌≡◌, ◌<◌, ℕ, List, length};
ghost use Rattle.claim_board.specs.declared.job.Job.{Job};
ghost use Rattle.claim_board.specs.Running.{job_at};

use std::alloc::Global;

/// Why a job gave no result: memory was refused, or the job has a fault at a place.
#[derive(Clone, Copy)]
pub enum JobStop {
    Memory,
    At(u64),
}

/// Jobs, numbered from 0 on. A result may own memory, and may borrow what the work borrows.
pub trait Work {
    ghost use Rattle.claim_board.specs.Work.{AnswersJob};

    type Out;

    // The jobs, with the fault of each.
    ghost listed: { Self → List Job };

    // The results that a job may give.
    ghost gives: { Self → ℕ → Self.Out → Type 0 };

    /// The number of jobs.
    fn jobs(&self) -> u64
        ensures { result ≡ length (listed self.now) };

    /// The place where the job starts.
    fn start(&self, i: u64) -> u64
        requires { i < length (listed self.now) }
        ensures { result ≡ (job_at (listed self.now) i).start };

    /// Does the job.
    fn run(&self, alloc: Global, i: u64) -> Result<Self::Out, JobStop>
        requires { i < length (listed self.now) }
        ensures { AnswersJob (gives self.now i) (job_at (listed self.now) i) result };
}

/// Is told when a job is about to be run, and when it has been run. Its calls touch neither word.
pub trait Gate {
    fn enter(&self, i: u64);

    fn leave(&self, i: u64);
}

/// The gate that does nothing.
#[derive(Clone, Copy)]
pub struct NoGate;

impl Gate for NoGate {
    fn enter(&self, _i: u64) {}

    fn leave(&self, _i: u64) {}
}
