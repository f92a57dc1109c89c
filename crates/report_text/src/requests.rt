//! The section `requests`.

use crate::events::{EventSection, row_start};
use crate::line::{Row, push_counted, push_hex_number};
use audit_findings::Findings;
use capture_frame::{u32_at, u64_at};
use event_core::Event;

/// The section.
#[derive(Clone, Copy)]
pub(crate) struct Requests;

impl EventSection for Requests {
    ghost use Rattle.std.specs.Prelude.{refl};
    ghost use Rattle.audit_findings.proofs.RowsThere.{is_request, requests_there};
    ghost use Rattle.report_text.specs.Requests.{requests_section};

    ghost section = { requests_section };

    ghost kinds = { is_request };

    ghost events = { requests_there };

    ghost bare = { λ e. refl };

    fn head(&self, found: &Findings<'_>, rows: usize) -> Row {
        let mut line = Row::new();
        push_counted(
            &mut line,
            "requests ",
            found.sections().events.counts.requests,
        );
        push_counted(&mut line, " standing ", rows as u64);
        line
    }

    fn places<'f>(&self, found: &'f Findings<'_>) -> &'f [u64] {
        found.sections().processes.standing.as_slice()
    }

    fn line(&self, event: Event<'_>) -> Row {
        let mut line = row_start(event);
        push_counted(&mut line, " ", u64::from(u32_at(event.payload, 0)));
        line.push_str(" ");
        push_hex_number(&mut line, u64_at(event.payload, 4));
        line
    }
}
