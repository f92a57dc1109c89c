//! The board, for one thread.

ghost use Rattle.std.specs.Prelude.{◌≡◌, ◌≢◌, ℕ, ◌<◌, ◌+◌, OnOk, OnErr, IfErr, length, slice_get, slice_set, Some, IfOk, IfSome, IfNone, false, true};
ghost use Rattle.claim_board.specs.Board.{BoardState, opening_of, AreJobs, IsStep, Acts, MayNot, IsRefused, IsSameSize, state_after_look};
ghost use Rattle.claim_board.specs.declared.job.JobState.TheVariants.{Held};
ghost use Rattle.claim_board.specs.declared.job.Act.TheVariants.{Claim, Look, Lower};
ghost use Rattle.claim_board.specs.declared.job.BoardFault.TheVariants.{Order};

use crate::job::{Act, BoardFault, Job, JobState, Step};
use crate::workers::Workers;
use std::alloc::{AllocError, Global};
use std::marker::Model;

/// The board: jobs that workers claim, look at and lower, step by step.
#[derive(Drop)]
pub struct Board {
    jobs: Vec<Job>,
    next: u64,
    least: Option<u64>,
    states: Vec<JobState>,
    stopped: Vec<bool>,
}

impl Model for Board {
    ghost use Rattle.std.specs.Prelude.{◌≡◌, ◌≤◌, ◌+◌, length, count_by};
    ghost use Rattle.claim_board.specs.Board.{BoardState, HaveFaults};

    ghost Value = { BoardState };

    ghost view = { λ b. record {
      jobs = b.jobs.items;
      next = b.next;
      least = b.least;
      states = b.states.items;
      stopped = b.stopped.items;
    } };

    // `next` can't overflow: it passes the number of jobs only by one for each worker that has
    // stopped.
    ghost invariant = { λ b. (length b.states.items ≡ length b.jobs.items)
        × (length b.stopped.items ≤ 64)
        × (b.next ≤ length b.jobs.items + count_by (λ x. x) b.stopped.items)
        × HaveFaults b.jobs.items b.states.items };
}

impl Board {
    /// The board at the opening: nothing is claimed, and no worker has stopped.
    pub fn new(alloc: Global, jobs: Vec<Job>, workers: Workers) -> Result<Board, AllocError>
        requires { AreJobs jobs.items }
        ensures { IfOk result (λ board. board ≡ opening_of jobs.items workers.number) }
    {
        let states = vec![in alloc; JobState::Untouched; jobs.len()]?;
        let stopped = vec![in alloc; false; workers.get() as usize]?;
        Ok(Board {
            jobs,
            next: 0,
            least: None,
            states,
            stopped,
        })
    }

    /// The least fault that was lowered to, if any.
    pub fn least(&self) -> Option<u64>
        ensures { result ≡ self.now.least }
    {
        self.least
    }

    /// The state of job `i`.
    pub fn state(&self, i: u64) -> JobState
        requires { i < length self.now.states }
        ensures { slice_get self.now.states i ≡ Some result }
    {
        self.states[i as usize]
    }

    /// Whether worker `w` has stopped.
    pub fn stopped(&self, w: u64) -> bool
        requires { w < length self.now.stopped }
        ensures { slice_get self.now.stopped w ≡ Some result }
    {
        self.stopped[w as usize]
    }

    /// Makes the step, or refuses it and changes nothing.
    pub fn step(&mut self, step: Step) -> Result<(), BoardFault>
        ensures made { OnOk result (IsStep self.old step self.new) }
        ensures refused { IfErr result (IsRefused self.old step) }
        ensures unchanged { OnErr result (self.new ≡ self.old) }
        ensures same_size { IsSameSize self.old self.new }
    {
        let w = step.worker;
        if w >= self.stopped.len() as u64 {
            return Err(BoardFault::Worker);
        }
        match step.act {
            Act::Claim => self.claim(w),
            Act::Look => self.look(w),
            Act::Lower => self.lower(w),
        }
    }

    fn claim(&mut self, w: u64) -> Result<(), BoardFault>
        requires { w < length self.old.stopped }
        ensures made { OnOk result (Acts Claim self.old w self.new) }
        ensures refused { IfErr result (λ fault. (fault ≡ Order) × MayNot Claim self.old w) }
        ensures unchanged { OnErr result (self.new ≡ self.old) }
    {
        if self.stopped[w as usize]
            || place_of(self.states.as_slice(), JobState::Held(w)).is_some()
            || place_of(self.states.as_slice(), JobState::Faulty(w)).is_some()
        {
            return Err(BoardFault::Order);
        }
        if self.next < self.jobs.len() as u64 {
            self.hold(w);
        } else {
            self.stop(w);
        }
        Ok(())
    }

    // The worker holds the next job.
    fn hold(&mut self, w: u64)
        requires { self.old.next < length self.old.jobs }
        ensures { self.new ≡ record self.old {
          next = self.old.next + 1;
          states = slice_set self.old.states self.old.next (Held w);
        } }
    {
        self.states[self.next as usize] = JobState::Held(w);
        self.next += 1;
    }

    // No job is left, and the worker stops.
    fn stop(&mut self, w: u64)
        requires { slice_get self.old.stopped w ≡ Some false }
        ensures { self.new ≡ record self.old {
          next = self.old.next + 1;
          stopped = slice_set self.old.stopped w true;
        } }
    {
        self.stopped[w as usize] = true;
        self.next += 1;
    }

    fn look(&mut self, w: u64) -> Result<(), BoardFault>
        ensures made { OnOk result (Acts Look self.old w self.new) }
        ensures refused { IfErr result (λ fault. (fault ≡ Order) × MayNot Look self.old w) }
        ensures unchanged { OnErr result (self.new ≡ self.old) }
    {
        let Some(i) = place_of(self.states.as_slice(), JobState::Held(w)) else {
            return Err(BoardFault::Order);
        };
        self.states[i] = look_at(self.jobs[i], self.least, w);
        Ok(())
    }

    fn lower(&mut self, w: u64) -> Result<(), BoardFault>
        ensures made { OnOk result (Acts Lower self.old w self.new) }
        ensures refused { IfErr result (λ fault. (fault ≡ Order) × MayNot Lower self.old w) }
        ensures unchanged { OnErr result (self.new ≡ self.old) }
    {
        let Some(i) = place_of(self.states.as_slice(), JobState::Faulty(w)) else {
            return Err(BoardFault::Order);
        };
        let Some(place) = self.jobs[i].fault else {
            unreachable!()
        };
        self.least = Some(match self.least {
            None => place,
            Some(least) => least.min(place),
        });
        self.states[i] = JobState::Lowered(w);
        Ok(())
    }
}

// The first job in this state.
fn place_of(states: &[JobState], state: JobState) -> Option<usize>
    ensures found { IfSome result (λ i. slice_get states.now i ≡ Some state) }
    ensures missing { IfNone result ((i : ℕ) → slice_get states.now i ≢ Some state) }
{
    for (i, s) in states.iter().enumerate() {
        if *s == state {
            return Some(i);
        }
    }
    None
}

fn look_at(job: Job, least: Option<u64>, w: u64) -> JobState
    ensures { result ≡ state_after_look job least w }
{
    if let Some(place) = least {
        if place < job.start {
            return JobState::Skipped(w);
        }
    }
    match job.fault {
        None => JobState::Done(w),
        Some(_) => JobState::Faulty(w),
    }
}
