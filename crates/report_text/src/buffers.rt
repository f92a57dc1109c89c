//! The section `buffers`.

use crate::events::{EventSection, fields, row_start};
use crate::line::{Row, push_counted, push_hex_number};
use audit_findings::Findings;
use event_core::Event;

/// The section.
#[derive(Clone, Copy)]
pub(crate) struct Buffers;

impl EventSection for Buffers {
    ghost use Rattle.std.specs.Prelude.{refl};
    ghost use Rattle.transaction_view.specs.Transaction.{has_transaction_data};
    ghost use Rattle.audit_findings.proofs.RowsThere.{leaked_there};
    ghost use Rattle.report_text.specs.Buffers.{buffers_section};

    ghost section = { buffers_section };

    ghost kinds = { has_transaction_data };

    ghost events = { leaked_there };

    ghost bare = { λ e. refl };

    fn head(&self, found: &Findings<'_>, rows: usize) -> Row {
        let mut line = Row::new();
        push_counted(
            &mut line,
            "buffers ",
            found.sections().events.counts.deliveries,
        );
        push_counted(&mut line, " leaked ", rows as u64);
        line
    }

    fn places<'f>(&self, found: &'f Findings<'_>) -> &'f [u64] {
        found.sections().processes.leaked.as_slice()
    }

    fn line(&self, event: Event<'_>) -> Row {
        let delivery = fields(event);
        let mut line = row_start(event);
        line.push_str(" ");
        push_hex_number(&mut line, delivery.buffer());
        push_counted(&mut line, " ", delivery.data_size());
        line.push_str(" ");
        line.push_str(event.kind.name());
        line
    }
}
