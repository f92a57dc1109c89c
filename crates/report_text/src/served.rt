//! The section `served`.

use crate::call_row::CallSection;
use crate::line::{Row, push_counted, push_signed};
use audit_findings::Findings;
use call_stacks::Opener;
use transaction_view::Transaction;

/// The section.
#[derive(Clone, Copy)]
pub(crate) struct Served;

impl CallSection for Served {
    ghost use Rattle.std.specs.Prelude.{refl};
    ghost use Rattle.audit_findings.specs.Calls.{is_served};
    ghost use Rattle.audit_findings.proofs.RowsThere.{lacking_there};
    ghost use Rattle.report_text.specs.Served.{served_section, sender_field};

    ghost section = { served_section };

    ghost events = { lacking_there is_served };

    ghost field = { sender_field };

    ghost tells = { λ call. refl };

    fn head(&self, found: &Findings<'_>, _rows: usize) -> Row {
        let served = &found.sections().calls.served;
        let mut line = Row::new();
        push_counted(&mut line, "served ", served.all);
        push_counted(&mut line, " replied ", served.replied);
        push_counted(&mut line, " crossed ", served.crossed);
        push_counted(&mut line, " open ", served.left_open);
        line
    }

    fn calls<'f>(&self, found: &'f Findings<'_>) -> &'f [Opener<u64>] {
        found.sections().calls.served.rows.as_slice()
    }

    // sender_pid: the process id of the caller.
    fn push_field(&self, line: &mut Row, transaction: Transaction<'_>) {
        push_signed(line, i64::from(transaction.sender_pid()));
    }
}
