//! The steps of one worker.

ghost use Rattle.std.specs.Prelude.{◌<◌, List, length, OnOk, IfOk};
ghost use Rattle.claim_board.specs.Steps.{IsSeatAt, worker_of};
ghost use Rattle.claim_board.specs.Work.{IsAt, HasEnded, AreResults, AreAllResults, IsForSame, MayShare};
ghost use Rattle.claim_board.specs.declared.job.JobState.TheVariants.{Held};
ghost use Rattle.claim_board.specs.declared.view.ClaimedJob.{ClaimedJob};

use crate::laws::{claim, look, lower};
use crate::seat::{BoardTable, JobList, WorkerSeat};
use crate::work::{Gate, JobStop, Work};
use std::alloc::{AllocError, Global};

// Looks at the job that was claimed last. Unless the job is skipped, runs it, and lowers the fault
// word if it has a fault.
fn end_job<L: JobList, W: Work, G: Gate>(
    alloc: Global,
    table: &BoardTable<L>,
    seat: &mut WorkerSeat,
    work: &W,
    gate: &G,
    i: u64,
    results: &mut Vec<(u64, W::Out)>,
) -> Result<(), AllocError>
where
    W::Out: Drop,
    ghost rest: { List ClaimedJob }
    requires place { IsSeatAt table.now.table_id seat.old }
    requires held { IsAt (W.listed work.now) i (Held (worker_of seat.old.me.0)) rest seat.old.me.0 }
    requires job { i < length (W.listed work.now) }
    requires results { AreResults (W.gives work.now) rest results.old.items }
    ensures same { IsForSame seat.old seat.new }
    ensures ended { OnOk result
        (HasEnded (W.listed work.now) (W.gives work.now) i rest seat.new.me.0 results.new.items) }
{
    if look(table, seat, work.start(i)) {
        return Ok(());
    }
    gate.enter(i);
    let outcome = work.run(alloc, i);
    gate.leave(i);
    match outcome {
        Ok(out) => {
            results.push((i, out))?;
            Ok(())
        }
        Err(JobStop::At(place)) => {
            lower(table, seat, place);
            Ok(())
        }
        Err(JobStop::Memory) => Err(AllocError),
    }
}

// All steps of one worker, up to the one that stops it.
pub(crate) fn work_alone<L: JobList, W: Work, G: Gate>(
    alloc: Global,
    table: &BoardTable<L>,
    seat: &mut WorkerSeat,
    work: &W,
    gate: &G,
) -> Result<Vec<(u64, W::Out)>, AllocError>
where
    W::Out: Drop,
    requires { MayShare table.now.table_id (W.listed work.now) 1 seat.old }
    ensures same { IsForSame seat.old seat.new }
    ensures done { IfOk result
        (λ list. AreAllResults (W.gives work.now) seat.new.me.0 list.items) }
{
    let jobs = work.jobs();
    let mut results = Vec::new(alloc);
    while let Some(i) = claim(table, seat, jobs) {
        end_job(alloc, table, seat, work, gate, i, &mut results)?;
    }
    Ok(results)
}
