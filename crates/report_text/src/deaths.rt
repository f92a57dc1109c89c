//! The section `deaths`.

use crate::events::EventSection;
use crate::line::Row;
use crate::open_and_stray::{open_and_stray_head, open_and_stray_row};
use audit_findings::Findings;
use binder_code::Kind;
use capture_frame::u64_at;
use event_core::Event;

/// The section.
#[derive(Clone, Copy)]
pub(crate) struct Deaths;

impl EventSection for Deaths {
    ghost use Rattle.std.specs.Prelude.{refl};
    ghost use Rattle.audit_findings.proofs.RowsThere.{deaths_there, is_of_death};
    ghost use Rattle.report_text.specs.Deaths.{deaths_section};

    ghost section = { deaths_section };

    ghost kinds = { is_of_death };

    ghost events = { deaths_there };

    ghost bare = { λ e. refl };

    fn head(&self, found: &Findings<'_>, _rows: usize) -> Row {
        let sections = found.sections();
        open_and_stray_head(
            "deaths",
            "unacknowledged",
            sections.events.counts.deaths,
            &sections.processes.deaths,
        )
    }

    fn places<'f>(&self, found: &'f Findings<'_>) -> &'f [u64] {
        found.sections().processes.deaths.rows.as_slice()
    }

    fn line(&self, event: Event<'_>) -> Row {
        let dies = event.kind == Kind::BrDeadBinder;
        let word = if dies { "unacknowledged" } else { "stray" };
        open_and_stray_row(event, u64_at(event.payload, 0), word)
    }
}
