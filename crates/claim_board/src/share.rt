//! Workers that share the jobs, each in a thread.

ghost use Rattle.std.specs.Prelude.{IfOk};
ghost use Rattle.claim_board.specs.Work.{AreAllResults, IsOneList, MayShare, IsForSame};
ghost use denote.Param.Send.{IsSend, IsSync};

use crate::seat::{BoardTable, HalfCrews, JobList, WholeCrew, WorkerSeat};
use crate::work::{Gate, Work};
use crate::worker::work_alone;
use std::alloc::{AllocError, Global};
use std::thread::{Threads, join_mut};

/// Makes all steps of the seat's workers until each has stopped, and gives the results of the jobs
/// that are Done. A worker that is refused memory makes no further step. The others go on until
/// they stop, and the answer is the error.
#[cycle(halves)]
pub fn share<L: JobList + Sync, R: Threads + Sync, W: Work + Sync, G: Gate + Sync>(
    rt: &R,
    alloc: Global,
    table: &BoardTable<L>,
    seat: &mut WorkerSeat,
    workers: u64,
    work: &W,
    gate: &G,
) -> Result<Vec<(u64, W::Out)>, AllocError>
where
    W::Out: Send + Drop,
    requires { MayShare table.now.table_id (W.listed work.now) workers seat.old }
    ensures same { IsForSame seat.old seat.new }
    ensures done { IfOk result
        (λ list. AreAllResults (W.gives work.now) seat.new.me.0 list.items) }
{
    if workers == 1 {
        return work_alone(alloc, table, seat, work, gate);
    }
    let mut other = table.split_seat::<HalfCrews>(seat);
    let low = workers / 2;
    let high = workers - low;
    let (front, back) = share_halves(rt, alloc, table, work, gate, low, high, seat, &mut other);
    table.join_seat::<WholeCrew>(seat, other);
    one_list(front, back)
}

// The results of both halves, if both are there.
fn one_list<T: Drop>(
    front: Result<Vec<T>, AllocError>,
    back: Result<Vec<T>, AllocError>,
) -> Result<Vec<T>, AllocError>
    ensures { IfOk result (λ all. IsOneList front back all) }
{
    let mut all = front?;
    let mut rest = back?;
    all.append(&mut rest)?;
    Ok(all)
}

// Both halves at once, each with a seat of its own.
#[cycle(halves)]
fn share_halves<L: JobList + Sync, R: Threads + Sync, W: Work + Sync, G: Gate + Sync>(
    rt: &R,
    alloc: Global,
    table: &BoardTable<L>,
    work: &W,
    gate: &G,
    low: u64,
    high: u64,
    seat: &mut WorkerSeat,
    other: &mut WorkerSeat,
) -> (
    Result<Vec<(u64, W::Out)>, AllocError>,
    Result<Vec<(u64, W::Out)>, AllocError>,
)
where
    W::Out: Send + Drop,
    requires low { MayShare table.now.table_id (W.listed work.now) low seat.old }
    requires high { MayShare table.now.table_id (W.listed work.now) high other.old }
    ensures low_same { IsForSame seat.old seat.new }
    ensures low_done { IfOk result.0
        (λ list. AreAllResults (W.gives work.now) seat.new.me.0 list.items) }
    ensures high_same { IsForSame other.old other.new }
    ensures high_done { IfOk result.1
        (λ list. AreAllResults (W.gives work.now) other.new.me.0 list.items) }
{
    let mut front = || -> Result<Vec<(u64, W::Out)>, AllocError>
        requires { IsSync L.row × IsSync R.row × IsSync W.row × IsSync G.row × IsSend W.Out.row
            × MayShare table.now.table_id (W.listed work.now) low seat.now }
        ensures { IsForSame seat.entry.now seat.exit.now × IfOk result
            (λ list. AreAllResults (W.gives work.entry.now) seat.exit.now.me.0 list.items) }
    { share(rt, alloc, table, seat, low, work, gate) };
    let mut back = || -> Result<Vec<(u64, W::Out)>, AllocError>
        requires { IsSync L.row × IsSync R.row × IsSync W.row × IsSync G.row × IsSend W.Out.row
            × MayShare table.now.table_id (W.listed work.now) high other.now }
        ensures { IsForSame other.entry.now other.exit.now × IfOk result
            (λ list. AreAllResults (W.gives work.entry.now) other.exit.now.me.0 list.items) }
    { share(rt, alloc, table, other, high, work, gate) };
    join_mut(rt, &mut front, &mut back)
}
