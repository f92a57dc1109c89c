//! What workers share: a table of two words under the running rule, and the seats that step on it.

ghost use Rattle.std.specs.Prelude.{List, []};
ghost use Rattle.claim_board.specs.declared.job.Job.{Job};

use crate::view::View;
use atomic_table::{Join, Play, Seat, Shared, Split, TableRule};
use std::marker::{Brand, PhantomData};

/// The jobs of a table. Only clauses read them.
pub trait JobList {
    ghost jobs: { List Job };
}

/// `run_all` uses a brand, and picks the jobs of its work for it in place of these.
impl JobList for Brand {
    ghost jobs = { [] };
}

/// The running rule, over both words and all views.
pub struct BoardRule<L: JobList> {
    of: PhantomData<L>,
}

/// The number of workers is the table's key, which it gets when it is made.
impl<L: JobList> TableRule<(), View, u64> for BoardRule<L> {
    ghost use Rattle.claim_board.specs.Running.{IsRuled, opening_view};

    ghost holds = { λ workers. IsRuled L.jobs workers };

    ghost first = { λ workers. opening_view L.jobs workers };
}

/// The claim word and the fault word, under the running rule.
pub type BoardTable<L> = Shared<(), View, u64, BoardRule<L>>;

/// What one or more workers make their steps with. It takes no bytes.
pub type WorkerSeat = Seat<(), View>;

/// A step on the claim word.
pub struct ClaimPlay;

impl Play<(), View> for ClaimPlay {
    ghost use Rattle.claim_board.specs.Steps.{TellsClaim};

    ghost then = { TellsClaim };
}

/// A load of the fault word.
pub struct LookPlay;

impl Play<(), View> for LookPlay {
    ghost use Rattle.claim_board.specs.Steps.{TellsLook};

    ghost then = { TellsLook };
}

/// A minimum on the fault word.
pub struct LowerPlay;

impl Play<(), View> for LowerPlay {
    ghost use Rattle.claim_board.specs.Steps.{TellsLower};

    ghost then = { TellsLower };
}

/// Splits a seat: each half of its workers gets a seat.
pub struct HalfCrews;

impl Split<View> for HalfCrews {
    ghost use Rattle.claim_board.specs.Steps.{left_view, right_view};

    ghost left = { left_view };

    ghost right = { right_view };
}

/// Joins two seats to one.
pub struct WholeCrew;

impl Join<View> for WholeCrew {
    ghost use Rattle.claim_board.specs.Running.{spent_view};
    ghost use Rattle.claim_board.specs.Steps.{joined_view};

    ghost both = { joined_view };

    ghost spent = { spent_view };
}
