//! The section `flags`.

ghost use Rattle.std.specs.Prelude.{◌≡◌};
ghost use Rattle.event_core.specs.Reading.{event_text};
ghost use Rattle.audit_findings.specs.Flags.{unknown_flags};

use crate::events::{EventSection, row_start};
use crate::line::{Row, push_counted, push_hex_word};
use audit_findings::Findings;
use binder_code::unknown_bits;
use event_core::Event;

/// The section.
#[derive(Clone, Copy)]
pub(crate) struct Flags;

impl EventSection for Flags {
    ghost use Rattle.std.specs.Prelude.{refl, true};
    ghost use Rattle.audit_findings.proofs.RowsThere.{flagged_there};
    ghost use Rattle.report_text.specs.Flags.{flags_section};

    ghost section = { flags_section };

    ghost kinds = { λ _. true };

    ghost events = { flagged_there };

    ghost bare = { λ e. refl };

    fn head(&self, _found: &Findings<'_>, rows: usize) -> Row {
        let mut line = Row::new();
        push_counted(&mut line, "flags ", rows as u64);
        line
    }

    fn places<'f>(&self, found: &'f Findings<'_>) -> &'f [u64] {
        found.sections().events.flags.as_slice()
    }

    fn line(&self, event: Event<'_>) -> Row {
        let mut line = row_start(event);
        line.push_str(" ");
        push_hex_word(&mut line, unknown_flags(event));
        line
    }
}

/// The unknown flags of an event's record; 0 if it is not a transaction or a reply.
fn unknown_flags(event: Event<'_>) -> u32
    ensures { result ≡ unknown_flags (event_text event.entry) }
{
    match event.transaction {
        Some(transaction) => unknown_bits(transaction.flags()),
        None => 0,
    }
}
