//! Tests of `run_all`: all jobs, by workers in threads.

use crate::jobs::{Excerpt, Excerpts};
use crate::rounds::{Rounds, WATCHED};
use claim_board::{Gate, NoGate, Stop, Workers, run_all};
use std::alloc::Global;
use std::sync::atomic::{AtomicBool, Ordering};
use std::test::Fail;
use std::thread::Threads;
use test_kit::{Meeting, is_set_in_time};

/// What `run_all` must answer.
#[derive(Clone, Copy, Debug, PartialEq, Eq)]
enum Answer {
    All,
    Least(u64),
    Memory,
}

/// The number of jobs, the first with a fault, the first after those with a fault, the job that is
/// refused memory, and the answer.
type Row = (u32, u64, u64, Option<u64>, Answer);

const ROWS: &[Row] = &[
    (0, 0, 0, None, Answer::All),
    (1, 0, 0, None, Answer::All),
    (5, 0, 0, None, Answer::All),
    (10_000, 0, 0, None, Answer::All),
    (10, 0, 1, None, Answer::Least(21)),
    (10, 9, 10, None, Answer::Least(165)),
    (10, 3, 5, None, Answer::Least(69)),
    (10, 0, 10, None, Answer::Least(21)),
    (10, 0, 0, Some(4), Answer::Memory),
    (10, 9, 10, Some(4), Answer::Memory),
];

const WORKERS: &[u64] = &[1, 2, 7, 64];

const TEXT: &[u8] = b"text";

fn excerpts_by((jobs, low, high, starved, _): Row) -> Excerpts<'static> {
    Excerpts {
        text: TEXT,
        jobs: jobs as u64,
        low,
        high,
        starved,
        rounds: Rounds::new(),
    }
}

// Whether these are the results of this many jobs, in their order.
fn are_in_order(results: &[Excerpt<'static>], jobs: u32) -> bool {
    for (i, excerpt) in results.iter().enumerate() {
        if excerpt.text != TEXT || excerpt.numbers.as_slice() != [10 * i as u64].as_slice() {
            return false;
        }
    }
    results.len() == jobs as usize
}

fn is_answer(outcome: Result<Vec<Excerpt<'static>>, Stop>, row: Row) -> bool {
    match outcome {
        Ok(results) => row.4 == Answer::All && are_in_order(results.as_slice(), row.0),
        Err(Stop::Least(place)) => row.4 == Answer::Least(place),
        Err(Stop::Memory) => row.4 == Answer::Memory,
    }
}

// Whether `run_all` gives the row's answer for the row's work.
fn has_answer<R: Threads + Sync, G: Gate + Sync>(
    rt: &R,
    alloc: Global,
    work: &Excerpts<'static>,
    workers: Workers,
    gate: &G,
    row: Row,
) -> bool {
    is_answer(run_all(rt, alloc, work, workers, gate), row)
}

#[test]
fn answers_at_1_2_7_and_64_workers(rt: HostRuntime) -> Result<(), Fail> {
    for &n in WORKERS {
        let workers = Workers::new(n).ok_or("workers")?;
        for &row in ROWS {
            let work = excerpts_by(row);
            let alloc = rt.alloc();
            assert!(rt;
                has_answer(&rt, alloc, &work, workers, &NoGate, row),
                "{row:?} at {n}"
            );
        }
    }
    Ok(())
}

#[test]
fn two_jobs_meet(rt: HostRuntime) -> Result<(), Fail> {
    let gate = Meeting::<2>::new();
    let row = (2, 0, 0, None, Answer::All);
    let work = excerpts_by(row);
    let two = Workers::new(2).ok_or("workers")?;
    assert!(rt; has_answer(&rt, rt.alloc(), &work, two, &gate, row));
    assert!(rt; gate.was_held());
    Ok(())
}

#[test]
fn four_jobs_meet(rt: HostRuntime) -> Result<(), Fail> {
    let gate = Meeting::<4>::new();
    let row = (4, 0, 0, None, Answer::All);
    let work = excerpts_by(row);
    let four = Workers::new(4).ok_or("workers")?;
    assert!(rt; has_answer(&rt, rt.alloc(), &work, four, &gate, row));
    assert!(rt; gate.was_held());
    Ok(())
}

/// A gate at which the job `last` waits until the three others have been left.
#[derive(Drop)]
struct RestFirst {
    last: u64,
    left: [AtomicBool; 4],
    late: AtomicBool,
}

impl Gate for RestFirst {
    fn enter(&self, i: u64) {
        if i != self.last {
            return;
        }
        for (j, flag) in self.left.iter().enumerate() {
            if j as u64 != i && !is_set_in_time(flag) {
                self.late.store(true, Ordering::SeqCst);
            }
        }
    }

    fn leave(&self, i: u64) {
        if i < 4 {
            self.left[i as usize].store(true, Ordering::SeqCst);
        }
    }
}

fn is_rest_shared<R: Threads + Sync>(rt: &R, alloc: Global, last: u64, workers: Workers) -> bool {
    let gate = RestFirst {
        last,
        left: [
            AtomicBool::new(false),
            AtomicBool::new(false),
            AtomicBool::new(false),
            AtomicBool::new(false),
        ],
        late: AtomicBool::new(false),
    };
    let row = (4, 0, 0, None, Answer::All);
    let work = excerpts_by(row);
    has_answer(rt, alloc, &work, workers, &gate, row) && !gate.late.load(Ordering::SeqCst)
}

#[test]
fn rest_is_shared(rt: HostRuntime) -> Result<(), Fail> {
    let two = Workers::new(2).ok_or("workers")?;
    for last in 0..4 {
        assert!(rt; is_rest_shared(&rt, rt.alloc(), last, two), "{last}");
    }
    Ok(())
}

/// How many of the first jobs are run in any case by this many workers: up to the first with a
/// fault, or, by one worker, up to the one that is refused memory.
fn surely_run((jobs, low, high, starved, _): Row, workers: u64) -> usize {
    if let (1, Some(i)) = (workers, starved) {
        return (i as usize).saturating_add(1);
    }
    if low < high {
        return (low as usize).saturating_add(1);
    }
    jobs as usize
}

// Whether each of the first `surely` jobs was run between its `enter` and its `leave`. Each other
// job must have been run so too, or not at all; by one worker not at all.
fn are_between(rounds: &Rounds, surely: usize, workers: u64) -> bool {
    for i in 0..WATCHED {
        let left = rounds.is_left(i);
        if !left && (i < surely || !rounds.is_untouched(i)) {
            return false;
        }
        if left && i >= surely && workers == 1 {
            return false;
        }
    }
    rounds.are_in_order()
}

#[test]
fn each_run_is_between_enter_and_leave(rt: HostRuntime) -> Result<(), Fail> {
    for &n in WORKERS {
        let workers = Workers::new(n).ok_or("workers")?;
        for &row in ROWS {
            let work = excerpts_by(row);
            let gate = &work.rounds;
            assert!(rt;
                has_answer(&rt, rt.alloc(), &work, workers, gate, row),
                "{row:?} at {n}"
            );
            let surely = surely_run(row, n);
            assert!(rt; are_between(gate, surely, n), "{row:?} at {n}");
        }
    }
    Ok(())
}

#[test]
fn skips_above(rt: HostRuntime) -> Result<(), Fail> {
    let row = (2, 0, 1, None, Answer::Least(21));
    let work = excerpts_by(row);
    let one = Workers::new(1).ok_or("workers")?;
    assert!(rt; has_answer(&rt, rt.alloc(), &work, one, &work.rounds, row));
    assert!(rt; work.rounds.is_left(0));
    assert!(rt; work.rounds.is_untouched(1));
    Ok(())
}
