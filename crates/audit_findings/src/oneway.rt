//! The rows of the section `oneway`.

ghost use Rattle.std.specs.Prelude.{◌≡◌, List, IfOk};
ghost use Rattle.capture_frame.specs.Envelope.{PlacedFrame};
ghost use Rattle.event_core.specs.Events.{events_of_frames};
ghost use Rattle.process_ledgers.specs.Processes.{processes_of};
ghost use Rattle.audit_findings.specs.EachProcess.{SumsEach};
ghost use Rattle.audit_findings.specs.InTurn.{in_turn};
ghost use Rattle.audit_findings.specs.Oneway.{oneway_of};

use crate::in_turn::{ByProcess, ProcessRow, rows_in_turn};
use crate::processes::Processes;
use crate::rows::Rows;
use event_core::OnewayKey;
use process_ledgers::ProcessLedgers;
use std::alloc::{AllocError, Global};

/// The oneway transactions that a process sends to a handle, or those that it receives: the key,
/// how many there are, and the sum of their data_size.
pub type OnewayRow = (OnewayKey, u64, u128);

/// The rows of the oneway transactions of a process.
struct Oneway;

impl ByProcess for Oneway {
    ghost use Rattle.audit_findings.specs.Oneway.{oneway_of};

    type Row = OnewayRow;

    ghost rows_of = { oneway_of };

    fn rows(ledgers: &ProcessLedgers<'_>) -> Result<Vec<OnewayRow>, AllocError> {
        ledgers.oneway.own.rows()
    }
}

/// The rows of the section: those of each process in turn.
pub(crate) fn oneway_rows(
    alloc: Global,
    processes: Processes<'_, '_>,
) -> Result<Rows<ProcessRow<OnewayRow>>, AllocError>
    ensures { IfOk result (λ rows. (frames : List PlacedFrame) →
        SumsEach processes.entry frames →
        rows ≡ in_turn (oneway_of (events_of_frames frames)) (processes_of frames)) }
{
    Ok(Rows::of(rows_in_turn::<Oneway>(alloc, processes)?))
}
