//! The frames of a capture as jobs, on a board and shared by workers.

ghost use Rattle.std.specs.Bool.{OnTrue};
ghost use Rattle.std.specs.Prelude.{◌≤◌, ◌<◌, All, IfSome};
ghost use Rattle.claim_board.specs.Board.{AreJobs, EndsBefore};
ghost use Rattle.claim_board.specs.Running.{no_place};

use crate::events::frames_of;
use crate::no_answer::{NoAnswer, Printed};
use crate::told;
use claim_board::{Board, Job, JobStop, NoGate, Stop, Work, Workers, run_all};
use std::alloc::{AllocError, Global};
use std::io::Write;
use std::thread::Threads;
use transaction_view::check_frame;

/// The most jobs that workers may share.
const MOST_JOBS: usize = 4_294_967_296;

/// A list of jobs as a work. The result of a job is a list with its start alone.
#[derive(Drop)]
struct Listed {
    jobs: Vec<Job>,
}

impl Work for Listed {
    ghost use Rattle.std.specs.Prelude.{◌≡◌, [], ◌∷◌};
    ghost use Rattle.claim_board.specs.Running.{job_at};

    type Out = Vec<u64>;

    ghost listed = { λ me. me.jobs.items };

    ghost gives = { λ me i out. out.items ≡ (job_at me.jobs.items i).start ∷ [] };

    fn jobs(&self) -> u64 {
        self.jobs.len() as u64
    }

    fn start(&self, i: u64) -> u64 {
        self.jobs[i as usize].start
    }

    fn run(&self, alloc: Global, i: u64) -> Result<Vec<u64>, JobStop> {
        let job = self.jobs[i as usize];
        match job.fault {
            Some(place) => Err(JobStop::At(place)),
            None => match vec![in alloc; job.start] {
                Ok(start) => Ok(start),
                Err(_) => Err(JobStop::Memory),
            },
        }
    }
}

/// A job for each frame: where it begins, and its first fault.
fn jobs_of(alloc: Global, capture: &[u8]) -> Result<Vec<Job>, NoAnswer> {
    let frames = frames_of(alloc, capture)?;
    let mut jobs = Vec::new(alloc);
    for frame in &frames {
        let start = frame.place;
        let fault = check_frame(*frame).map(|fault| fault.place);
        jobs.push(Job { start, fault }).map_err(AllocError::from)?;
    }
    Ok(jobs)
}

/// Whether a job's fault is not before its start, and both are below the greatest number.
fn is_job(job: Job) -> bool
    ensures order { OnTrue result (IfSome job.fault (λ x. job.start ≤ x)) }
    ensures places { OnTrue result
        ((job.start < no_place) × IfSome job.fault (λ x. x < no_place)) }
{
    match job.fault {
        None => job.start < u64::MAX,
        Some(place) => job.start <= place && place < u64::MAX,
    }
}

/// Whether a job's start and its fault are before the start of the first of the others.
fn ends_before(job: Job, others: &[Job]) -> bool
    ensures { OnTrue result (EndsBefore job others.now) }
{
    match others {
        [] => true,
        [after, ..] => {
            job.start < after.start
                && match job.fault {
                    None => true,
                    Some(place) => place < after.start,
                }
        }
    }
}

/// Whether these are jobs, in order.
fn are_jobs(jobs: &[Job]) -> bool
    ensures order { OnTrue result (AreJobs jobs.now) }
    ensures places { OnTrue result
        (All (λ job. (job.start < no_place) × IfSome job.fault (λ x. x < no_place)) jobs.now) }
{
    match jobs {
        [] => true,
        [job, others @ ..] => is_job(*job) && ends_before(*job, others) && are_jobs(others),
    }
}

/// Prints the board of two workers on which nothing is claimed.
pub(crate) fn board<W: Write>(alloc: Global, capture: &[u8], out: &mut W) -> Printed {
    let jobs = jobs_of(alloc, capture)?;
    if !are_jobs(jobs.as_slice()) {
        return Err(NoAnswer::Unfit);
    }
    let count = jobs.len() as u64;
    let board = Board::new(alloc, jobs, Workers::new(2).unwrap())?;
    for i in 0..count {
        told::value(&board.state(i), out)?;
    }
    told::value(&(board.stopped(0), board.stopped(1), board.least()), out)
}

/// Prints the results of all jobs, or their least fault.
pub(crate) fn shared<T: Threads + Sync, W: Write>(
    rt: &T,
    alloc: Global,
    capture: &[u8],
    workers: Workers,
    out: &mut W,
) -> Printed {
    let jobs = jobs_of(alloc, capture)?;
    if !are_jobs(jobs.as_slice()) || jobs.len() > MOST_JOBS {
        return Err(NoAnswer::Unfit);
    }
    let work = Listed { jobs };
    match run_all(rt, alloc, &work, workers, &NoGate) {
        Ok(starts) => told::value(&starts, out),
        Err(Stop::Memory) => Err(NoAnswer::Memory),
        Err(Stop::Least(place)) => told::value(&place, out),
    }
}
