//! Sections whose rows are events, which are read again from the capture.

ghost use Rattle.std.specs.Prelude.{◌≡◌, ◌≤◌, IsTrue};
ghost use Rattle.arrayvec.specs.ArrayString.{array_string_len};
ghost use Rattle.event_core.specs.Reading.{event_text};
ghost use Rattle.transaction_view.specs.Transaction.{has_transaction_data};
ghost use Rattle.report_text.specs.EventRow.{row_start, thread_start, kind_row};

use crate::line::{Row, push_counted};
use crate::process::{push_process, push_thread};
use crate::section::Section;
use audit_findings::Findings;
use event_core::Event;
use transaction_view::Transaction;

/// A section of events. Of each event the place of its record is kept.
pub(crate) trait EventSection {
    ghost use Rattle.std.specs.Prelude.{◌≡◌, Bool, IsTrue, None};
    ghost use Rattle.binder_code.specs.declared.record_kind.Kind.{Kind};
    ghost use Rattle.event_core.specs.Events.{EventRead};
    ghost use Rattle.event_core.specs.Reading.{event_text};
    ghost use Rattle.audit_findings.specs.Findings.{findings_of};
    ghost use Rattle.audit_findings.specs.Kept.{places_of};
    ghost use Rattle.report_text.specs.Pushed.{HaveEvents};
    ghost use Rattle.report_text.specs.Section.{SectionText};

    /// The section.
    ghost section: { SectionText EventRead };

    /// The kinds that the records of its rows can have.
    ghost kinds: { Kind → Bool };

    /// Its rows are events of the frames, with records of these kinds.
    ghost events: { HaveEvents section (λ e. e) kinds };

    /// A row says nothing of an attachment.
    ghost bare: { (e : EventRead) → section.line (record e { entry = None }) ≡ section.line e };

    /// The head, without its line feed.
    fn head(&self, found: &Findings<'_>, rows: usize) -> Row
        ensures { result.bytes ≡ section.head (findings_of found.now) rows };

    /// The places of the rows' records.
    fn places<'f>(&self, found: &'f Findings<'_>) -> &'f [u64]
        ensures { result.now ≡ places_of (section.rows (findings_of found.now)) };

    /// The row of an event, without its line feed.
    fn line(&self, event: Event<'_>) -> Row
        requires { IsTrue (kinds event.kind) }
        ensures { result.bytes ≡ section.line (event_text event.entry) };
}

/// An `EventSection`, as a `Section`.
#[derive(Clone, Copy)]
pub(crate) struct OfEvents<S>(pub S);

impl<S: EventSection> Section for OfEvents<S> {
    ghost use Rattle.report_text.specs.Pushed.{IsRowAt, ShowsEvent};
    ghost use Rattle.report_text.specs.Section.{lines_of};

    type Kept = u64;

    ghost lines = { lines_of S.section };

    ghost head_of = { S.section.head };

    ghost can_show = { IsRowAt S.kinds };

    ghost shows = { ShowsEvent S.section.line };

    fn head(&self, found: &Findings<'_>, rows: usize) -> Row {
        self.0.head(found, rows)
    }

    fn rows<'f>(&self, found: &'f Findings<'_>) -> &'f [u64] {
        self.0.places(found)
    }

    fn line(&self, found: &Findings<'_>, kept: &u64) -> Row {
        self.0.line(found.record_at(*kept))
    }
}

/// The beginning of a row: the place and the process of its event.
pub(crate) fn row_start(event: Event<'_>) -> Row
    ensures text { result.bytes ≡ row_start (event_text event.entry) }
    ensures short { array_string_len result ≤ 64 }
{
    let mut line = Row::new();
    push_counted(&mut line, "  ", event.place);
    line.push_str(" ");
    push_process(&mut line, event.of_process());
    line
}

/// The beginning of a row: the place, the process and the thread of its event.
pub(crate) fn thread_start(event: Event<'_>) -> Row
    ensures text { result.bytes ≡ thread_start (event_text event.entry) }
    ensures short { array_string_len result ≤ 85 }
{
    let mut line = row_start(event);
    line.push_str(" ");
    push_thread(&mut line, event.thread);
    line
}

/// A row: the place, the process, the thread and the kind of its event.
pub(crate) fn kind_row(event: Event<'_>) -> Row
    ensures { result.bytes ≡ kind_row (event_text event.entry) }
{
    let mut line = thread_start(event);
    line.push_str(" ");
    line.push_str(event.kind.name());
    line
}

/// The fields of an event that is a transaction or a reply.
pub(crate) fn fields(event: Event<'_>) -> Transaction<'_>
    requires { IsTrue (has_transaction_data event.kind) }
    ensures { result.carrier.payload.now ≡ event.entry.payload.now }
{
    event.transaction.unwrap()
}
