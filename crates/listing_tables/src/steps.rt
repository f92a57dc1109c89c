//! The records of each thread that leave a mark, of which the calls of the thread are found.

ghost use Rattle.std.specs.Prelude.{◌≡◌, IsTrue, OnOk};
ghost use Rattle.capture_frame.specs.Envelope.{placed_frame};
ghost use Rattle.record_view.specs.State.{placed_record};
ghost use Rattle.transaction_view.specs.Transaction.{has_transaction_data};
ghost use Rattle.event_core.specs.Brackets.{is_oneway};
ghost use Rattle.event_core.specs.Oneway.{has_one_way};
ghost use Rattle.listing_tables.specs.Steps.{AddsMarked, AnySteps, HasSteps, IsKept, any_halves, marked_of};

use crate::calls::CallStep;
use crate::numbered::narrow;
use binder_code::Kind;
use capture_frame::{Frame, Thread};
use event_core::mark_of;
use listing_fields::{Outcome, thread_of};
use record_view::Record;
use std::alloc::{AllocError, Global};
use summary_law::{InOrder, Summary};
use transaction_view::Transaction;

/// TF_ONE_WAY.
const ONE_WAY: u32 = 0x01;

/// The records of a thread that leave a mark, in order.
#[derive(Drop)]
pub(crate) struct StepList {
    pub list: Vec<CallStep>,
}

impl Summary for StepList {
    type Item = CallStep;

    ghost fits = { AnySteps };

    ghost sums = { HasSteps };

    fn empty(alloc: Global) -> StepList {
        StepList {
            list: Vec::new(alloc),
        }
    }

    fn add(&mut self, item: CallStep) -> Result<(), AllocError> {
        self.list.push(item)?;
        Ok(())
    }

    fn join(self, later: StepList) -> Result<StepList, AllocError> {
        let StepList { mut list } = self;
        list.extend_from_slice(later.list.as_slice())?;
        Ok(StepList { list })
    }

    ghost fits_halves = { any_halves };
}

/// Of each thread that has such records, its list of them.
pub(crate) type Steps = InOrder<Thread, StepList>;

/// Adds a record of a frame to the list of its thread, if it leaves a mark. `before` messages come
/// before it.
pub(crate) fn add_step(
    steps: &mut Steps,
    frame: Frame<'_>,
    record: Record<'_>,
    before: u32,
) -> Outcome
    requires { IsKept steps.old.entries.entries }
    ensures { OnOk result (AddsMarked steps.old.entries.entries steps.new.entries.entries
        (marked_of (placed_frame frame.entry) (placed_record «record».entry))) }
{
    let kind = record.kind;
    let oneway = is_oneway(record);
    if mark_of(kind, oneway).is_none() {
        return Ok(());
    }
    let step = CallStep {
        place: narrow(record.place)?,
        before,
        kind,
        oneway,
    };
    steps.add((thread_of(frame), step))?;
    Ok(())
}

/// Whether a record is a transaction with TF_ONE_WAY. On a reply the flag says nothing.
pub(crate) fn is_oneway(record: Record<'_>) -> bool
    ensures { result ≡ is_oneway «record».entry.kind «record».entry.payload.now }
{
    match record.kind {
        Kind::BcTransaction
        | Kind::BcTransactionSg
        | Kind::BrTransaction
        | Kind::BrTransactionSecCtx => has_one_way(record),
        _ => false,
    }
}

fn has_one_way(record: Record<'_>) -> bool
    requires { IsTrue (has_transaction_data «record».kind) }
    ensures { result ≡ has_one_way «record».entry.payload.now }
{
    Transaction::of(record).unwrap().flags() & ONE_WAY != 0
}
