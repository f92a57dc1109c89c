//! The section `handles`.

use crate::line::{Row, push_counted};
use crate::process_row::{process_start, push_count, unbalanced_head};
use crate::whole_rows::WholeSection;
use audit_findings::{Findings, ProcessRow};
use handle_ledger::HeldRow;

/// The section.
#[derive(Clone, Copy)]
pub(crate) struct Handles;

impl WholeSection for Handles {
    ghost use Rattle.report_text.specs.Handles.{handles_section};

    type Kept = ProcessRow<HeldRow>;

    ghost section = { handles_section };

    fn head(&self, found: &Findings<'_>, rows: usize) -> Row {
        unbalanced_head(
            "handles",
            rows,
            found.sections().processes.handles.unbalanced,
        )
    }

    fn rows<'f>(&self, found: &'f Findings<'_>) -> &'f [ProcessRow<HeldRow>] {
        found.sections().processes.handles.rows.as_slice()
    }

    fn line(&self, of: &ProcessRow<HeldRow>) -> Row {
        let row = &of.row;
        let mut line = process_start(of.process);
        push_counted(&mut line, " ", u64::from(row.handle));
        let taken = &row.taken;
        push_count(&mut line, taken.strong.sum, taken.strong.low);
        push_count(&mut line, taken.weak.sum, taken.weak.low);
        push_counted(&mut line, " ", row.held_strong);
        push_counted(&mut line, " ", row.held_weak);
        line
    }
}
