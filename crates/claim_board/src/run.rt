//! All jobs of a work, by workers in threads.

ghost use Rattle.std.specs.Prelude.{◌≡◌, ◌≤◌, length, IfOk, IfErr};
ghost use Rattle.claim_board.specs.Orders.{AreFaultless};
ghost use Rattle.claim_board.specs.Results.{AreInOrder};
ghost use Rattle.claim_board.specs.Running.{AreWorkJobs, opening_view};
ghost use Rattle.claim_board.specs.Steps.{IsSeatAt};
ghost use Rattle.claim_board.specs.Work.{IsLast, IsStop, MayShare};

use crate::results::in_job_order;
use crate::seat::{BoardRule, JobList, WorkerSeat};
use crate::share::share;
use crate::view::View;
use crate::work::{Gate, Work};
use crate::workers::Workers;
use atomic_table::Table;
use std::alloc::{AllocError, Global};
use std::marker::Brand;
use std::thread::Threads;

/// Why there are no results: the least fault of all jobs, or there was no memory.
#[derive(Clone, Copy)]
pub enum Stop {
    Least(u64),
    Memory,
}

type OwnedTable<L> = Table<(), View, u64, BoardRule<L>, Global>;

// The table at its start, and the seat of all workers.
fn open_table<L: JobList>(
    alloc: Global,
    workers: u64,
) -> Result<(OwnedTable<L>, WorkerSeat), AllocError>
    requires least { 1 ≤ workers }
    requires most { workers ≤ 64 }
    requires jobs { AreWorkJobs L.jobs }
    ensures share { IfOk result (λ t. MayShare t.0.shared.table_id L.jobs workers t.1) }
    ensures view { IfOk result (λ t. t.1.me.0 ≡ opening_view L.jobs workers) }
    ensures workers { IfOk result (λ t. t.0.shared.key ≡ workers) }
{
    let opened = Table::of_words(alloc, &[0, u64::MAX], &workers)?;
    Ok(opened)
}

// The fault word at the end.
fn close_table<L: JobList>(table: OwnedTable<L>, seat: WorkerSeat) -> u64
    requires { IsSeatAt table.shared.table_id seat }
    ensures { IsLast L.jobs table.shared.key seat.me.0 result }
{
    let closed = table.close_with(seat);
    let least = closed.word(1);
    closed.free();
    least
}

// The results of all jobs, at a table of these jobs.
fn run_jobs<L: JobList + Sync, R: Threads + Sync, W: Work + Sync, G: Gate + Sync>(
    rt: &R,
    alloc: Global,
    work: &W,
    workers: Workers,
    gate: &G,
) -> Result<Vec<W::Out>, Stop>
where
    W::Out: Send + Drop,
    requires named { L.jobs ≡ W.listed work.now }
    requires jobs { AreWorkJobs (W.listed work.now) }
    ensures faultless { IfOk result (λ _. AreFaultless (W.listed work.now)) }
    ensures results { IfOk result
        (λ v. AreInOrder (W.gives work.now) (length (W.listed work.now)) v.items) }
    ensures stop { IfErr result (IsStop (W.listed work.now)) }
{
    let count = workers.get();
    let Ok((table, mut seat)) = open_table::<L>(alloc, count) else {
        return Err(Stop::Memory);
    };
    let shared = share(rt, alloc, &table.shared, &mut seat, count, work, gate);
    let least = close_table(table, seat);
    let Ok(list) = shared else {
        return Err(Stop::Memory);
    };
    if least < u64::MAX {
        return Err(Stop::Least(least));
    }
    let Ok(all) = in_job_order(alloc, work, list) else {
        return Err(Stop::Memory);
    };
    Ok(all)
}

/// The results of all jobs, in the order of the jobs, by this many workers in threads. `Memory` if
/// a worker or this function was refused memory, even where a fault was found.
pub fn run_all<R: Threads + Sync, W: Work + Sync, G: Gate + Sync>(
    rt: &R,
    alloc: Global,
    work: &W,
    workers: Workers,
    gate: &G,
) -> Result<Vec<W::Out>, Stop>
where
    W::Out: Send + Drop,
    requires { AreWorkJobs (W.listed work.now) }
    ensures faultless { IfOk result (λ _. AreFaultless (W.listed work.now)) }
    ensures results { IfOk result
        (λ v. AreInOrder (W.gives work.now) (length (W.listed work.now)) v.items) }
    ensures stop { IfErr result (IsStop (W.listed work.now)) }
{
    run_jobs::<Brand, R, W, G>(rt, alloc, work, workers, gate)
}
