//! Rows of each process in turn.

ghost use Rattle.std.specs.Prelude.{◌≡◌, ◌++◌, List, map, IfOk, OnOk};
ghost use Rattle.capture_frame.specs.Envelope.{PlacedFrame};
ghost use Rattle.event_core.specs.Events.{EventRead, events_of_frames};
ghost use Rattle.process_ledgers.specs.EachProcess.{AreLedgersOf};
ghost use Rattle.process_ledgers.specs.Processes.{processes_of};
ghost use Rattle.audit_findings.specs.EachProcess.{SumsEach};
ghost use Rattle.audit_findings.specs.InTurn.{in_turn, process_row};

use crate::processes::Processes;
use capture_frame::Process;
use process_ledgers::ProcessLedgers;
use std::alloc::{AllocError, Global};

/// A row of one process, as its ledger gives it.
#[derive(Clone, Copy, Debug)]
pub struct ProcessRow<R> {
    pub process: Process,
    pub row: R,
}

/// What the ledgers of a process list as rows.
pub(crate) trait ByProcess {
    ghost use Rattle.std.specs.Prelude.{◌≡◌, List, IfOk};
    ghost use Rattle.capture_frame.specs.declared.process.Process.{Process};
    ghost use Rattle.event_core.specs.Events.{EventRead};
    ghost use Rattle.process_ledgers.specs.EachProcess.{AreLedgersOf};

    type Row: Copy;

    /// The rows of a process among these events.
    ghost rows_of: { List EventRead → Process → List Self.Row };

    /// The rows of the process whose ledgers these are.
    fn rows(ledgers: &ProcessLedgers<'_>) -> Result<Vec<Self::Row>, AllocError>
        ensures { IfOk result (λ rows. (events : List EventRead) (process : Process) →
            AreLedgersOf ledgers.now events process → rows.items ≡ rows_of events process) };
}

/// The rows of each process in turn.
pub(crate) fn rows_in_turn<S: ByProcess>(
    alloc: Global,
    processes: Processes<'_, '_>,
) -> Result<Vec<ProcessRow<S::Row>>, AllocError>
    ensures { IfOk result (λ rows. (frames : List PlacedFrame) →
        SumsEach processes.entry frames →
        rows.items ≡ in_turn (S.rows_of (events_of_frames frames)) (processes_of frames)) }
{
    let mut rows = Vec::new(alloc);
    let mut guess = 0;
    for (process, _nothing) in &processes.order.entries {
        let ledgers = processes.ledgers(*process, &mut guess);
        push_next::<S>(&mut rows, *process, ledgers)?;
    }
    Ok(rows)
}

/// Pushes the rows of the process with these ledgers.
fn push_next<S: ByProcess>(
    rows: &mut Vec<ProcessRow<S::Row>>,
    process: Process,
    ledgers: &ProcessLedgers<'_>,
) -> Result<(), AllocError>
    ensures { OnOk result ((own : List S.Row)
        × ((events : List EventRead) → AreLedgersOf ledgers.now events process →
        own ≡ S.rows_of events process)
        × (rows.new.items ≡ rows.old.items ++ map (process_row process) own)) }
{
    let own = S::rows(ledgers)?;
    push_rows_of(rows, process, own.as_slice())
}

/// Pushes the rows of one process.
pub(crate) fn push_rows_of<R: Copy>(
    rows: &mut Vec<ProcessRow<R>>,
    process: Process,
    own: &[R],
) -> Result<(), AllocError>
    ensures { OnOk result
        (rows.new.items ≡ rows.old.items ++ map (process_row process) own.now) }
{
    for row in own {
        rows.push(ProcessRow { process, row: *row })?;
    }
    Ok(())
}
