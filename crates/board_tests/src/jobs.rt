//! The jobs of the tests of `claim_board`.

ghost use Rattle.std.specs.Prelude.{◌≡◌, ◌+◌, ◌*◌, ◌<◌, ◌≤◌, [], ◌∷◌, length, IfOk, IfSome};
ghost use Rattle.claim_board.specs.Board.{AreJobs};
ghost use Rattle.board_tests.specs.SpacedJobs.{spaced_fault};

use crate::rounds::Rounds;
use claim_board::{Job, JobStop, Work};
use std::alloc::{AllocError, Global};

/// The result of a job: a list of its own, and the text that the work borrows.
#[derive(Drop)]
pub struct Excerpt<'c> {
    pub numbers: Vec<u64>,
    pub text: &'c [u8],
}

/// Jobs that start at 16, 32, 48 and so on. From job `low` to the last one before job `high` they
/// have a fault, 5 above their start. Job `starved` is refused memory. `rounds` notes each job that
/// is run.
#[derive(Drop)]
pub struct Excerpts<'c> {
    pub text: &'c [u8],
    pub jobs: u64,
    pub low: u64,
    pub high: u64,
    pub starved: Option<u64>,
    pub rounds: Rounds,
    ghost few: { jobs ≤ 4294967296 },
}

impl<'c> Excerpts<'c> {
    fn fault(&self, i: u64) -> Option<u64>
        requires { i ≤ 4294967296 }
        ensures { result ≡ spaced_fault self.now.low self.now.high i }
    {
        if self.low <= i && i < self.high {
            Some(16 * (i + 1) + 5)
        } else {
            None
        }
    }

    fn excerpt(&self, alloc: Global, i: u64) -> Result<Excerpt<'c>, AllocError>
        requires { i ≤ 4294967296 }
        ensures text { IfOk result (λ excerpt. excerpt.text.now ≡ self.now.text.now) }
        ensures numbers { IfOk result (λ excerpt. excerpt.numbers.items ≡ 10 * i ∷ []) }
    {
        if self.starved == Some(i) {
            return Err(AllocError);
        }
        let numbers = vec![in alloc; 10 * i]?;
        Ok(Excerpt {
            numbers,
            text: self.text,
        })
    }
}

impl<'c> Work for Excerpts<'c> {
    ghost use Rattle.std.specs.Prelude.{◌≡◌, ◌*◌, [], ◌∷◌};
    ghost use Rattle.board_tests.specs.SpacedJobs.{spaced_jobs};

    type Out = Excerpt<'c>;

    ghost listed = { λ me. spaced_jobs me.low me.high me.jobs };

    ghost gives = { λ me i out. (out.text.now ≡ me.text.now) × (out.numbers.items ≡ 10 * i ∷ []) };

    fn jobs(&self) -> u64 {
        self.jobs
    }

    fn start(&self, i: u64) -> u64 {
        16 * (i + 1)
    }

    fn run(&self, alloc: Global, i: u64) -> Result<Excerpt<'c>, JobStop> {
        self.rounds.run(i);
        match self.fault(i) {
            Some(place) => Err(JobStop::At(place)),
            None => match self.excerpt(alloc, i) {
                Ok(excerpt) => Ok(excerpt),
                Err(AllocError) => Err(JobStop::Memory),
            },
        }
    }
}

fn fault_by_bit(start: u64, bits: u64, i: u64) -> Option<u64>
    requires bit { i < 64 }
    requires start { start < 10000 }
    ensures { IfSome result (λ x. x ≡ start + 5) }
{
    if bits >> i & 1 == 1 {
        Some(start + 5)
    } else {
        None
    }
}

/// Jobs that start at 16, 32, 48 and so on. Those whose bit is set have a fault, 5 above their
/// start.
pub fn jobs_by_bits(alloc: Global, count: u64, bits: u64) -> Result<Vec<Job>, AllocError>
    requires { count ≤ 64 }
    ensures jobs { IfOk result (λ jobs. AreJobs jobs.items) }
    ensures count { IfOk result (λ jobs. length jobs.items ≡ count) }
{
    let mut jobs = Vec::new(alloc);
    for i in 0..count {
        let start = 16 * (i + 1);
        let fault = fault_by_bit(start, bits, i);
        jobs.push(Job { start, fault })?;
    }
    Ok(jobs)
}
