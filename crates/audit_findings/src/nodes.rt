//! The section `nodes`.

ghost use Rattle.std.specs.Prelude.{◌≡◌, List, IfOk};
ghost use Rattle.capture_frame.specs.Envelope.{PlacedFrame};
ghost use Rattle.audit_findings.specs.EachProcess.{SumsEach};
ghost use Rattle.audit_findings.specs.Nodes.{node_references};

use crate::in_turn::{ByProcess, rows_in_turn};
use crate::processes::Processes;
use crate::references::{Balance, References, references_of};
use handle_ledger::NodeRow;
use process_ledgers::ProcessLedgers;
use std::alloc::{AllocError, Global};

/// The rows of the nodes of a process.
struct Nodes;

impl ByProcess for Nodes {
    ghost use Rattle.audit_findings.specs.Nodes.{nodes_in};

    type Row = NodeRow;

    ghost rows_of = { nodes_in };

    fn rows(ledgers: &ProcessLedgers<'_>) -> Result<Vec<NodeRow>, AllocError> {
        ledgers.nodes.own.rows()
    }
}

/// The section, from the rows of each process in turn.
pub(crate) fn nodes_of(
    alloc: Global,
    processes: Processes<'_, '_>,
) -> Result<References<NodeRow>, AllocError>
    ensures { IfOk result (λ found. (frames : List PlacedFrame) →
        SumsEach processes.entry frames → found ≡ node_references frames) }
{
    let rows = rows_in_turn::<Nodes>(alloc, processes)?;
    Ok(references_of(rows))
}

impl Balance for NodeRow {
    ghost use Rattle.audit_findings.specs.Nodes.{is_unbalanced_node};

    ghost unbalanced = { is_unbalanced_node };

    fn is_unbalanced(&self) -> bool {
        let counts = &self.counts;
        counts.strong.sum != 0
            || counts.weak.sum != 0
            || counts.strong_due != 0
            || counts.weak_due != 0
    }
}
