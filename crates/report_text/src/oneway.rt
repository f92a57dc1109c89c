//! The section `oneway`.

ghost use Rattle.std.specs.Prelude.{◌≡◌, ◌≤◌, ◌+◌, ◌++◌};
ghost use Rattle.arrayvec.specs.ArrayString.{array_string_len};
ghost use Rattle.report_text.specs.Oneway.{oneway_fields};

use crate::line::{Row, push_counted, push_wide};
use crate::process_row::process_start;
use crate::whole_rows::WholeSection;
use audit_findings::{Findings, OnewayRow, ProcessRow};
use event_core::OnewayKey;

/// The section.
#[derive(Clone, Copy)]
pub(crate) struct Oneway;

impl WholeSection for Oneway {
    ghost use Rattle.report_text.specs.Oneway.{oneway_section};

    type Kept = ProcessRow<OnewayRow>;

    ghost section = { oneway_section };

    fn head(&self, found: &Findings<'_>, _rows: usize) -> Row {
        let sections = found.sections();
        let mut line = Row::new();
        push_counted(&mut line, "oneway sent ", sections.events.oneway.sent);
        push_counted(&mut line, " received ", sections.events.oneway.received);
        push_counted(&mut line, " refused ", sections.calls.refused.oneway);
        line
    }

    fn rows<'f>(&self, found: &'f Findings<'_>) -> &'f [ProcessRow<OnewayRow>] {
        found.sections().processes.oneway.as_slice()
    }

    fn line(&self, of: &ProcessRow<OnewayRow>) -> Row {
        let (key, count, sum) = of.row;
        let mut line = process_start(of.process);
        line.push_str(" ");
        push_key(&mut line, key);
        push_counted(&mut line, " ", count);
        line.push_str(" ");
        push_wide(&mut line, sum);
        line
    }
}

/// Pushes `sent` and the handle, or `received`.
fn push_key(line: &mut Row, key: OnewayKey)
    requires { array_string_len line.old + 25 ≤ 256 }
    ensures text { line.new.bytes ≡ line.old.bytes ++ oneway_fields key }
    ensures short { array_string_len line.new ≤ array_string_len line.old + 25 }
{
    match key {
        OnewayKey::Sent(handle) => push_counted(line, "sent ", u64::from(handle)),
        OnewayKey::Received => line.push_str("received"),
    }
}
