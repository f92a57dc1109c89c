//! Opens and closes that the ledgers of processes pair by key, and those without a partner.

ghost use Rattle.std.specs.Prelude.{◌≡◌, List, IfOk};
ghost use Rattle.capture_frame.specs.Envelope.{PlacedFrame};
ghost use Rattle.event_core.specs.Events.{events_of_frames};
ghost use Rattle.audit_findings.specs.EachProcess.{SumsEach};
ghost use Rattle.audit_findings.specs.Kept.{pairs_at_places};
ghost use Rattle.audit_findings.specs.Places.{RiseInPlace, open_and_stray};

use crate::open_and_stray::OpenAndStray;
use crate::places::{ListsPlaces, places_of};
use crate::processes::Processes;
use crate::rows::Rows;
use pending_ledger::Pending;
use process_ledgers::ProcessLedgers;
use std::alloc::{AllocError, Global};
use std::marker::PhantomData;

/// A ledger of opens and closes among those of a process.
pub(crate) trait OpensAndCloses {
    ghost use Rattle.std.specs.Ordering.{nat_cmp};
    ghost use Rattle.std.specs.Prelude.{ℕ, List, Option};
    ghost use Rattle.capture_frame.specs.declared.process.Process.{Process};
    ghost use Rattle.event_core.specs.Events.{EventRead};
    ghost use Rattle.event_core.specs.declared.pending.KeyEvent.{KeyEvent};
    ghost use Rattle.pending_ledger.specs.Pending.{place_of};
    ghost use Rattle.pending_ledger.specs.Sums.{PendingSums};
    ghost use Rattle.process_ledgers.specs.EachProcess.{AreLedgersOf};
    ghost use Rattle.process_ledgers.specs.Items.{KeepsPlace};
    ghost use Rattle.process_ledgers.specs.Processes.{items_of_process};

    /// The open or the close that an event is.
    ghost read: { EventRead → Option (ℕ × KeyEvent) };

    /// It has the event's place.
    ghost keeps: { KeepsPlace place_of read };

    /// The ledger.
    fn ledger<'l>(ledgers: &'l ProcessLedgers<'_>) -> &'l Pending<u64>
        ensures { (events : List EventRead) (process : Process) →
            AreLedgersOf ledgers.now events process →
            PendingSums nat_cmp result.now (items_of_process read process events) };
}

/// The opens that nothing closes, as a list.
pub(crate) struct Unclosed<P>(PhantomData<P>);

impl<P: OpensAndCloses> ListsPlaces for Unclosed<P> {
    ghost use Rattle.audit_findings.specs.Places.{is_unclosed};

    ghost test = { is_unclosed P.read };

    fn places(ledgers: &ProcessLedgers<'_>) -> Result<Vec<u64>, AllocError> {
        P::ledger(ledgers).outstanding()
    }
}

/// The closes of what is not open, as a list.
pub(crate) struct Strays<P>(PhantomData<P>);

impl<P: OpensAndCloses> ListsPlaces for Strays<P> {
    ghost use Rattle.audit_findings.specs.Places.{is_stray_close};

    ghost test = { is_stray_close P.read };

    fn places(ledgers: &ProcessLedgers<'_>) -> Result<Vec<u64>, AllocError> {
        P::ledger(ledgers).strays()
    }
}

/// The unclosed opens and the stray closes of all processes.
pub(crate) fn open_and_stray_of<P: OpensAndCloses>(
    alloc: Global,
    processes: Processes<'_, '_>,
) -> Result<OpenAndStray<u64>, AllocError>
    ensures { IfOk result (λ found. (frames : List PlacedFrame) →
        SumsEach processes.entry frames →
        RiseInPlace (events_of_frames frames) →
        found ≡ pairs_at_places (open_and_stray P.read (events_of_frames frames))) }
{
    let mut places = places_of::<Unclosed<P>>(alloc, processes)?;
    let closes = places_of::<Strays<P>>(alloc, processes)?;
    let opens = places.len();
    places.extend_from_slice(closes.as_slice())?;
    places.sort_unstable();
    Ok(OpenAndStray {
        unclosed: opens as u64,
        strays: closes.len() as u64,
        rows: Rows::of(places),
    })
}
