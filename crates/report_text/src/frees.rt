//! The section `frees`.

use crate::events::{EventSection, row_start};
use crate::line::{Row, push_counted, push_hex_number};
use audit_findings::Findings;
use capture_frame::u64_at;
use event_core::Event;

/// The section.
#[derive(Clone, Copy)]
pub(crate) struct Frees;

impl EventSection for Frees {
    ghost use Rattle.std.specs.Prelude.{refl};
    ghost use Rattle.audit_findings.proofs.RowsThere.{frees_there, is_free};
    ghost use Rattle.report_text.specs.Frees.{frees_section};

    ghost section = { frees_section };

    ghost kinds = { is_free };

    ghost events = { frees_there };

    ghost bare = { λ e. refl };

    fn head(&self, found: &Findings<'_>, rows: usize) -> Row {
        let mut line = Row::new();
        push_counted(&mut line, "frees ", found.sections().events.counts.frees);
        push_counted(&mut line, " stray ", rows as u64);
        line
    }

    fn places<'f>(&self, found: &'f Findings<'_>) -> &'f [u64] {
        found.sections().processes.stray_frees.as_slice()
    }

    fn line(&self, event: Event<'_>) -> Row {
        let mut line = row_start(event);
        line.push_str(" ");
        push_hex_number(&mut line, u64_at(event.payload, 0));
        line
    }
}
