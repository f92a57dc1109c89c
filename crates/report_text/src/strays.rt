//! The section `strays`.

use crate::events::{EventSection, kind_row};
use crate::line::{Row, push_counted};
use audit_findings::Findings;
use event_core::Event;

/// The section, whose rows end with the kind of the stray.
#[derive(Clone, Copy)]
pub(crate) struct Strays;

impl EventSection for Strays {
    ghost use Rattle.std.specs.Prelude.{refl, true};
    ghost use Rattle.audit_findings.proofs.RowsThere.{strays_there};
    ghost use Rattle.report_text.specs.Strays.{strays_section};

    ghost section = { strays_section };

    ghost kinds = { λ _. true };

    ghost events = { strays_there };

    ghost bare = { λ e. refl };

    fn head(&self, _found: &Findings<'_>, rows: usize) -> Row {
        let mut line = Row::new();
        push_counted(&mut line, "strays ", rows as u64);
        line
    }

    fn places<'f>(&self, found: &'f Findings<'_>) -> &'f [u64] {
        found.sections().calls.strays.as_slice()
    }

    fn line(&self, event: Event<'_>) -> Row {
        kind_row(event)
    }
}
