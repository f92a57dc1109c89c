//! The section `refused`.

use crate::events::{EventSection, kind_row};
use crate::line::{Row, push_counted};
use audit_findings::Findings;
use event_core::Event;

/// The section, whose rows end with the kind of the error reply.
#[derive(Clone, Copy)]
pub(crate) struct Refused;

impl EventSection for Refused {
    ghost use Rattle.std.specs.Prelude.{refl, true};
    ghost use Rattle.audit_findings.proofs.RowsThere.{refused_there};
    ghost use Rattle.report_text.specs.Refused.{refused_section};

    ghost section = { refused_section };

    ghost kinds = { λ _. true };

    ghost events = { refused_there };

    ghost bare = { λ e. refl };

    fn head(&self, _found: &Findings<'_>, rows: usize) -> Row {
        let mut line = Row::new();
        push_counted(&mut line, "refused ", rows as u64);
        line
    }

    fn places<'f>(&self, found: &'f Findings<'_>) -> &'f [u64] {
        found.sections().calls.refused.rows.as_slice()
    }

    fn line(&self, event: Event<'_>) -> Row {
        kind_row(event)
    }
}
