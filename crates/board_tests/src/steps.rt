//! Tests of the board of one thread: worked orders, and all orders of the steps of few jobs and
//! workers.

ghost use Rattle.std.specs.Prelude.{◌≡◌, ◌≤◌, length, IfOk, IfSome};
ghost use Rattle.claim_board.specs.Board.{AreJobs};

use crate::jobs::jobs_by_bits;
use claim_board::{Act, Board, BoardFault, Job, JobState, Step, Workers};
use std::alloc::{AllocError, Global};
use std::process::Abort;
use std::test::Fail;

fn make(board: &mut Board, worker: u64, act: Act) -> Result<(), BoardFault>
    ensures jobs { length board.new.states ≡ length board.old.states }
    ensures workers { length board.new.stopped ≡ length board.old.stopped }
{
    board.step(Step { worker, act })
}

// Makes these steps, up to the first that is refused, and says whether all are made.
fn make_all(board: &mut Board, steps: &[(u64, Act)]) -> bool
    ensures jobs { length board.new.states ≡ length board.old.states }
    ensures workers { length board.new.stopped ≡ length board.old.stopped }
{
    for &(worker, act) in steps {
        if make(board, worker, act).is_err() {
            return false;
        }
    }
    true
}

const TO_THE_END: &[(u64, Act)] = &[
    (0, Act::Claim),
    (1, Act::Claim),
    (0, Act::Look),
    (0, Act::Lower),
    (1, Act::Look),
    (0, Act::Claim),
    (1, Act::Claim),
];

/// The jobs of the worked orders. The first one has this fault.
fn worked_jobs(alloc: Global, fault: Option<u64>) -> Result<Vec<Job>, AllocError>
    requires { IfSome fault (λ x. x ≡ 48) }
    ensures jobs { IfOk result (λ jobs. AreJobs jobs.items) }
    ensures count { IfOk result (λ jobs. length jobs.items ≡ 2) }
{
    let jobs = vec![in alloc;
        Job { start: 16, fault },
        Job {
            start: 52,
            fault: Some(84)
        },
    ]?;
    Ok(jobs)
}

/// A board of two workers and those jobs.
fn board_of(alloc: Global, fault: Option<u64>) -> Result<Board, Fail>
    requires { IfSome fault (λ x. x ≡ 48) }
    ensures jobs { IfOk result (λ board. length board.states ≡ 2) }
    ensures workers { IfOk result (λ board. length board.stopped ≡ 2) }
{
    let two = Workers::new(2).ok_or("workers")?;
    let jobs = worked_jobs(alloc, fault)?;
    Ok(Board::new(alloc, jobs, two)?)
}

fn expect_refused(rt: &impl Abort, found: Result<(), BoardFault>, fault: BoardFault) {
    assert_eq!(rt; found, Err(fault));
}

fn expect_states(rt: &impl Abort, board: &Board, first: JobState, second: JobState, least: u64)
    requires { length board.now.states ≡ 2 }
{
    assert!(rt; board.state(0) == first);
    assert!(rt; board.state(1) == second);
    assert!(rt; board.least() == Some(least));
}

fn expect_stopped(rt: &impl Abort, board: &Board, stopped: bool)
    requires { length board.now.stopped ≡ 2 }
{
    assert!(rt; board.stopped(0) == stopped);
    assert!(rt; board.stopped(1) == stopped);
}

#[test]
fn a_fault_below_skips(rt: HostRuntime) -> Result<(), Fail> {
    let mut board = board_of(rt.alloc(), Some(48))?;
    assert!(rt; make_all(&mut board, TO_THE_END));
    expect_refused(&rt, make(&mut board, 0, Act::Claim), BoardFault::Order);
    expect_refused(&rt, make(&mut board, 2, Act::Claim), BoardFault::Worker);
    expect_states(&rt, &board, JobState::Lowered(0), JobState::Skipped(1), 48);
    expect_stopped(&rt, &board, true);
    Ok(())
}

const TO_THE_MIDDLE: &[(u64, Act)] = &[
    (0, Act::Claim),
    (1, Act::Claim),
    (1, Act::Look),
    (1, Act::Lower),
    (0, Act::Look),
];

#[test]
fn a_fault_above_skips_nothing(rt: HostRuntime) -> Result<(), Fail> {
    let mut board = board_of(rt.alloc(), None)?;
    assert!(rt; make_all(&mut board, TO_THE_MIDDLE));
    expect_refused(&rt, make(&mut board, 0, Act::Look), BoardFault::Order);
    expect_states(&rt, &board, JobState::Done(0), JobState::Lowered(1), 84);
    expect_stopped(&rt, &board, false);
    Ok(())
}

fn have_all_stopped(board: &Board, workers: u64) -> bool
    requires { length board.now.stopped ≡ workers }
{
    for w in 0..workers {
        if !board.stopped(w) {
            return false;
        }
    }
    true
}

// Makes the next step of a worker that has not stopped, and says whether it is made.
fn advance(board: &mut Board, worker: u64) -> bool
    ensures jobs { length board.new.states ≡ length board.old.states }
    ensures workers { length board.new.stopped ≡ length board.old.stopped }
{
    make(board, worker, Act::Claim).is_ok()
        || make(board, worker, Act::Look).is_ok()
        || make(board, worker, Act::Lower).is_ok()
}

// Makes steps by the digits of `code`, the first digit first: each digit names the worker that
// makes the next step. It ends once all workers have stopped, or at a digit that names one that
// has. Gives how many codes begin with the digits used.
fn follow(board: &mut Board, workers: u64, code: u64, orders: u64) -> u64
    requires workers { length board.old.stopped ≡ workers }
    requires some { 1 ≤ workers }
    ensures jobs { length board.new.states ≡ length board.old.states }
    ensures workers { length board.new.stopped ≡ length board.old.stopped }
{
    let mut width = orders;
    for _ in 0..13 {
        if have_all_stopped(board, workers) {
            return width;
        }
        width /= workers;
        if width == 0 {
            return 0;
        }
        let w = code / width % workers;
        if board.stopped(w) || !advance(board, w) {
            return width;
        }
    }
    width
}

// Whether a worker has ended the job. If no job has a fault, the job must be Done.
fn has_ended(state: JobState, workers: u64, bits: u64) -> bool {
    match state {
        JobState::Done(w) => w < workers,
        JobState::Skipped(w) | JobState::Lowered(w) => w < workers && bits != 0,
        _ => false,
    }
}

// The fault of the first job whose bit is set.
fn least_by_bits(count: u64, bits: u64) -> Option<u64>
    requires { count ≤ 64 }
{
    for i in 0..count {
        if bits >> i & 1 == 1 {
            return Some(16 * (i + 1) + 5);
        }
    }
    None
}

// Whether the board is at its end, which is the same in every order.
fn is_at_end(board: &Board, count: u64, workers: u64, bits: u64) -> bool
    requires jobs { length board.now.states ≡ count }
    requires few { count ≤ 64 }
{
    for i in 0..count {
        if !has_ended(board.state(i), workers, bits) {
            return false;
        }
    }
    board.least() == least_by_bits(count, bits)
}

// How many codes of this many digits there are.
fn codes(digits: u64, workers: u64) -> u64 {
    let mut count = 1u64;
    for _ in 0..digits {
        count = count.saturating_mul(workers);
    }
    count
}

// Follows one code from the opening. Gives how many codes begin with the digits used, and whether
// all workers have stopped; `None` if they have and the board is not at its end.
fn end_of(
    alloc: Global,
    count: u64,
    bits: u64,
    workers: Workers,
    code: u64,
    orders: u64,
) -> Result<Option<(u64, bool)>, AllocError>
    requires { count ≤ 64 }
{
    let n = workers.get();
    let jobs = jobs_by_bits(alloc, count, bits)?;
    let mut board = Board::new(alloc, jobs, workers)?;
    let width = follow(&mut board, n, code, orders);
    let stopped = have_all_stopped(&board, n);
    if stopped && !is_at_end(&board, count, n, bits) {
        return Ok(None);
    }
    Ok(Some((width, stopped)))
}

// In how many orders the workers' steps lead to the end; `None` if one leads elsewhere.
fn orders_that_end(
    alloc: Global,
    count: u64,
    bits: u64,
    workers: Workers,
) -> Result<Option<u64>, AllocError>
    requires { count ≤ 64 }
{
    let digits = count + count + bits.count_ones() as u64 + workers.get();
    let orders = codes(digits, workers.get());
    let mut next = 0;
    let mut ends = 0u64;
    for code in 0..orders {
        if code >= next {
            let Some((width, stopped)) = end_of(alloc, count, bits, workers, code, orders)? else {
                return Ok(None);
            };
            next = code.saturating_add(width);
            ends = ends.saturating_add(stopped as u64);
        }
    }
    Ok(Some(ends))
}

/// A number of jobs, and which of them have a fault: those whose bit is set.
const CASES: &[(u64, u64)] = &[
    (0, 0),
    (1, 0),
    (1, 1),
    (2, 0),
    (2, 1),
    (2, 2),
    (2, 3),
    (3, 0),
    (3, 1),
    (3, 2),
    (3, 3),
    (3, 4),
    (3, 5),
    (3, 6),
    (3, 7),
];

/// How many orders the steps of 1, 2 and 3 workers can have, in all cases together, as another
/// program counts them.
const ORDERS: u64 = 86_527;

#[test]
fn all_orders_of_few_steps(rt: HostRuntime) -> Result<(), Fail> {
    let mut orders = 0u64;
    for n in 1..4 {
        let workers = Workers::new(n).ok_or("workers")?;
        for &(count, bits) in CASES {
            assert!(rt; count <= 3);
            let ends = orders_that_end(rt.alloc(), count, bits, workers)?;
            orders = orders.saturating_add(ends.ok_or("another end")?);
        }
    }
    assert_eq!(rt; orders, ORDERS);
    Ok(())
}
