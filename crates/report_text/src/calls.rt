//! The section `calls`.

use crate::call_row::CallSection;
use crate::line::{Row, push_counted, push_decimal};
use audit_findings::Findings;
use call_stacks::Opener;
use transaction_view::Transaction;

/// The section.
#[derive(Clone, Copy)]
pub(crate) struct Calls;

impl CallSection for Calls {
    ghost use Rattle.std.specs.Prelude.{refl};
    ghost use Rattle.audit_findings.specs.Calls.{is_made};
    ghost use Rattle.audit_findings.proofs.RowsThere.{lacking_there};
    ghost use Rattle.report_text.specs.Calls.{calls_section, target_field};

    ghost section = { calls_section };

    ghost events = { lacking_there is_made };

    ghost field = { target_field };

    ghost tells = { λ call. refl };

    fn head(&self, found: &Findings<'_>, _rows: usize) -> Row {
        let calls = &found.sections().calls.calls;
        let mut line = Row::new();
        push_counted(&mut line, "calls ", calls.all);
        push_counted(&mut line, " answered ", calls.answered);
        push_counted(&mut line, " failed ", calls.failed);
        push_counted(&mut line, " unanswered ", calls.unanswered);
        line
    }

    fn calls<'f>(&self, found: &'f Findings<'_>) -> &'f [Opener<u64>] {
        found.sections().calls.calls.rows.as_slice()
    }

    // The target handle of a call.
    fn push_field(&self, line: &mut Row, transaction: Transaction<'_>) {
        push_decimal(line, u64::from(transaction.target_handle()));
    }
}
