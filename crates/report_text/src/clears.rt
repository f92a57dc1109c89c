//! The section `clears`.

use crate::events::EventSection;
use crate::line::Row;
use crate::open_and_stray::{open_and_stray_head, open_and_stray_row};
use audit_findings::Findings;
use binder_code::Kind;
use capture_frame::u64_at;
use event_core::Event;

/// The section.
#[derive(Clone, Copy)]
pub(crate) struct Clears;

impl EventSection for Clears {
    ghost use Rattle.std.specs.Prelude.{refl};
    ghost use Rattle.audit_findings.proofs.RowsThere.{clears_there, is_of_clear};
    ghost use Rattle.report_text.specs.Clears.{clears_section};

    ghost section = { clears_section };

    ghost kinds = { is_of_clear };

    ghost events = { clears_there };

    ghost bare = { λ e. refl };

    fn head(&self, found: &Findings<'_>, _rows: usize) -> Row {
        let sections = found.sections();
        open_and_stray_head(
            "clears",
            "unconfirmed",
            sections.events.counts.clears,
            &sections.processes.clears,
        )
    }

    fn places<'f>(&self, found: &'f Findings<'_>) -> &'f [u64] {
        found.sections().processes.clears.rows.as_slice()
    }

    fn line(&self, event: Event<'_>) -> Row {
        if event.kind == Kind::BcClearDeathNotification {
            open_and_stray_row(event, u64_at(event.payload, 4), "unconfirmed")
        } else {
            open_and_stray_row(event, u64_at(event.payload, 0), "stray")
        }
    }
}
