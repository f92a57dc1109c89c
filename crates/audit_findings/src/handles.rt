//! The section `handles`.

ghost use Rattle.std.specs.Prelude.{◌≡◌, List, map, IfOk};
ghost use Rattle.capture_frame.specs.Envelope.{PlacedFrame};
ghost use Rattle.handle_ledger.specs.declared.held_row.HeldRow.{HeldRow};
ghost use Rattle.audit_findings.specs.Frames.{AreGoodFrames};
ghost use Rattle.audit_findings.specs.Handles.{handle_references, handles_of_each};
ghost use Rattle.audit_findings.specs.InTurn.{process_row};
ghost use Rattle.audit_findings.specs.Ledgers.{GivesHandles};

use crate::entries::entries_at;
use crate::held::held_by;
use crate::in_turn::{ProcessRow, push_rows_of};
use crate::joined::joined;
use crate::references::{Balance, References, references_of};
use capture_frame::{FrameSlice, Process};
use handle_ledger::HeldRow;
use process_ledgers::ProcessLedgers;
use std::alloc::{AllocError, Global};

/// The rows of handles of one process.
pub type ProcessHandles = Vec<ProcessRow<HeldRow>>;

/// The same rows without the process. `unfreed` are the places of its leaked deliveries; what these
/// hold is read again from the frames.
fn handles_of_process(
    alloc: Global,
    frames: &FrameSlice<'_, '_>,
    ledgers: &ProcessLedgers<'_>,
    unfreed: &[u64],
) -> Result<Vec<HeldRow>, AllocError>
    requires { AreGoodFrames frames.now }
    ensures { IfOk result
        (λ rows. GivesHandles ledgers.now frames.now unfreed.now rows.items) }
{
    let entries = entries_at(alloc, frames, unfreed)?;
    let held = held_by(alloc, entries.as_slice())?;
    ledgers.handles.own.rows_held(&held)
}

/// The rows of handles of this process.
pub(crate) fn listed_handles(
    alloc: Global,
    frames: &FrameSlice<'_, '_>,
    process: Process,
    ledgers: &ProcessLedgers<'_>,
    unfreed: &[u64],
) -> Result<ProcessHandles, AllocError>
    requires { AreGoodFrames frames.now }
    ensures { IfOk result (λ rows. (own : List HeldRow)
        × GivesHandles ledgers.now frames.now unfreed.now own
        × (rows.items ≡ map (process_row process) own)) }
{
    let own = handles_of_process(alloc, frames, ledgers, unfreed)?;
    let mut rows = Vec::with_capacity(alloc, own.len())?;
    push_rows_of(&mut rows, process, own.as_slice())?;
    Ok(rows)
}

/// The section, from the rows of each process in turn.
pub(crate) fn handles_of(
    alloc: Global,
    lists: &[ProcessHandles],
) -> Result<References<HeldRow>, AllocError>
    ensures { IfOk result (λ found. (frames : List PlacedFrame) →
        map (λ list. list.items) lists.now ≡ handles_of_each frames →
        found ≡ handle_references frames) }
{
    Ok(references_of(joined(alloc, lists)?))
}

impl Balance for HeldRow {
    ghost use Rattle.audit_findings.specs.Handles.{is_unbalanced_handle};

    ghost unbalanced = { is_unbalanced_handle };

    fn is_unbalanced(&self) -> bool {
        self.taken.strong.sum != 0 || self.taken.weak.sum != 0
    }
}
