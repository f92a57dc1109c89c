//! The steps of workers that share the two words, each of which is a step of the board on the view
//! of the worker's seat; and the law of the board.

ghost use Rattle.std.specs.Prelude.{◌≡◌, length};
ghost use Rattle.claim_board.specs.Orders.{AllOrders};
ghost use Rattle.claim_board.specs.Steps.{IsSeatAt, IsSameSeat, MayClaimNext, HoldsJob, HasFaultyJob, ClaimsNext, LooksAtLeast, LowersLeast};

use crate::seat::{ClaimPlay, LookPlay, LowerPlay};
pub use crate::seat::{BoardTable, JobList, WorkerSeat};
pub use crate::share::share;

/// Whatever the order of the workers' steps on the board, at most three steps for each job and one
/// for each worker are possible. Once all workers have stopped, each job is Done, Skipped or
/// Lowered by exactly one of them. If no job has a fault, all jobs are Done. Otherwise the least
/// place is the least fault of all jobs.
pub fn all_orders()
    ensures { AllOrders }
{}

/// Claims the next job, by one `fetch_add` on the claim word. `None` if no job is left; the worker
/// has then stopped.
pub fn claim<L: JobList>(table: &BoardTable<L>, seat: &mut WorkerSeat, jobs: u64) -> Option<u64>
    requires place { IsSeatAt table.now.table_id seat.old }
    requires worker { MayClaimNext seat.old.me.0 }
    requires jobs { jobs ≡ length seat.old.me.0.jobs }
    ensures same { IsSameSeat seat.old seat.new }
    ensures step { ClaimsNext seat.old.me.0 seat.new.me.0 result }
{
    let found = table.fetch_add::<ClaimPlay>(seat, 0, 1);
    if found < jobs { Some(found) } else { None }
}

/// Looks at the fault word, by one load, for the job that was claimed last, which starts at
/// `start`. True means that the job is skipped.
pub fn look<L: JobList>(table: &BoardTable<L>, seat: &mut WorkerSeat, start: u64) -> bool
    requires place { IsSeatAt table.now.table_id seat.old }
    requires worker { HoldsJob seat.old.me.0 start }
    ensures same { IsSameSeat seat.old seat.new }
    ensures step { LooksAtLeast seat.old.me.0 seat.new.me.0 start result }
{
    let found = table.load::<LookPlay>(seat, 1);
    found < start
}

/// Lowers the fault word, by one `fetch_min`, to the fault of the job that was claimed last.
pub fn lower<L: JobList>(table: &BoardTable<L>, seat: &mut WorkerSeat, place: u64)
    requires place { IsSeatAt table.now.table_id seat.old }
    requires worker { HasFaultyJob seat.old.me.0 place }
    ensures same { IsSameSeat seat.old seat.new }
    ensures step { LowersLeast seat.old.me.0 seat.new.me.0 place }
{
    table.fetch_min::<LowerPlay>(seat, 1, place);
}
