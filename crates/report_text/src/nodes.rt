//! The section `nodes`.

use crate::line::{Row, push_hex_number, push_signed};
use crate::process_row::{process_start, push_count, unbalanced_head};
use crate::whole_rows::WholeSection;
use audit_findings::{Findings, ProcessRow};
use handle_ledger::NodeRow;

/// The section.
#[derive(Clone, Copy)]
pub(crate) struct Nodes;

impl WholeSection for Nodes {
    ghost use Rattle.report_text.specs.Nodes.{nodes_section};

    type Kept = ProcessRow<NodeRow>;

    ghost section = { nodes_section };

    fn head(&self, found: &Findings<'_>, rows: usize) -> Row {
        unbalanced_head("nodes", rows, found.sections().processes.nodes.unbalanced)
    }

    fn rows<'f>(&self, found: &'f Findings<'_>) -> &'f [ProcessRow<NodeRow>] {
        found.sections().processes.nodes.rows.as_slice()
    }

    fn line(&self, of: &ProcessRow<NodeRow>) -> Row {
        let row = &of.row;
        let counts = &row.counts;
        let mut line = process_start(of.process);
        line.push_str(" ");
        push_hex_number(&mut line, row.key.ptr);
        line.push_str(" ");
        push_hex_number(&mut line, row.key.cookie);
        push_count(&mut line, counts.strong.sum, counts.strong.low);
        push_count(&mut line, counts.weak.sum, counts.weak.low);
        line.push_str(" ");
        push_signed(&mut line, counts.strong_due);
        line.push_str(" ");
        push_signed(&mut line, counts.weak_due);
        line
    }
}
