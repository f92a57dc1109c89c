//! What the sections `calls` and `served` have in common: the row of a call.

ghost use Rattle.std.specs.Prelude.{◌≡◌, ◌≤◌, ◌+◌, ◌++◌, length, IsTrue};
ghost use Rattle.arrayvec.specs.ArrayString.{array_string_len};
ghost use Rattle.event_core.specs.Reading.{event_text};
ghost use Rattle.transaction_view.specs.Transaction.{has_transaction_data};
ghost use Rattle.report_text.specs.CallRow.{verdict_name, closer_field, record_fields, row_of_kept};

use crate::events::{fields, thread_start};
use crate::line::{Row, push_counted, push_decimal};
use crate::section::Section;
use audit_findings::Findings;
use call_stacks::{Opener, Verdict};
use event_core::Event;
use transaction_view::Transaction;

/// A section of calls. Of each call the place of its record, its verdict and the place of its
/// closer are kept.
pub(crate) trait CallSection {
    ghost use Rattle.std.specs.Prelude.{◌≡◌, ◌≤◌, ◌+◌, ◌++◌, ℕ, List, map};
    ghost use Rattle.arrayvec.specs.ArrayString.{array_string_len};
    ghost use Rattle.event_core.specs.Events.{EventRead};
    ghost use Rattle.call_stacks.specs.declared.opener.Opener.{Opener};
    ghost use Rattle.transaction_view.specs.Transaction.{has_transaction_data};
    ghost use Rattle.audit_findings.specs.Findings.{findings_of};
    ghost use Rattle.audit_findings.specs.Kept.{call_at_place};
    ghost use Rattle.report_text.specs.CallRow.{call_row};
    ghost use Rattle.report_text.specs.Pushed.{HaveEvents};
    ghost use Rattle.report_text.specs.Section.{SectionText};

    /// The section.
    ghost section: { SectionText (Opener EventRead) };

    /// The events of its calls are events of the frames, and are transactions.
    ghost events: { HaveEvents section (λ call. call.event) has_transaction_data };

    /// What a row says of the other side of a call, from the payload of the call's record.
    ghost field: { List ℕ → List ℕ };

    /// The line of a row has that field.
    ghost tells: { (call : Opener EventRead) → call_row field call ≡ section.line call };

    /// The head, without its line feed.
    fn head(&self, found: &Findings<'_>, rows: usize) -> Row
        ensures { result.bytes ≡ section.head (findings_of found.now) rows };

    /// What is kept of the calls.
    fn calls<'f>(&self, found: &'f Findings<'_>) -> &'f [Opener<u64>]
        ensures { result.now ≡ map call_at_place (section.rows (findings_of found.now)) };

    /// Pushes the field.
    fn push_field(&self, line: &mut Row, transaction: Transaction<'_>)
        requires { array_string_len line.old + 20 ≤ 256 }
        ensures text { line.new.bytes ≡ line.old.bytes
            ++ field transaction.entry.carrier.payload.now }
        ensures short { array_string_len line.new ≤ array_string_len line.old + 20 };
}

/// A `CallSection`, as a `Section`.
#[derive(Clone, Copy)]
pub(crate) struct OfCalls<S>(pub S);

impl<S: CallSection> Section for OfCalls<S> {
    ghost use Rattle.transaction_view.specs.Transaction.{has_transaction_data};
    ghost use Rattle.report_text.specs.CallRow.{row_of_kept};
    ghost use Rattle.report_text.specs.Pushed.{IsRowAt, ShowsEvent};
    ghost use Rattle.report_text.specs.Section.{lines_of};

    type Kept = Opener<u64>;

    ghost lines = { lines_of S.section };

    ghost head_of = { S.section.head };

    ghost can_show = { λ frames call. IsRowAt has_transaction_data frames call.event };

    ghost shows = { λ frames call line.
        ShowsEvent (row_of_kept S.field call) frames call.event line };

    fn head(&self, found: &Findings<'_>, rows: usize) -> Row {
        self.0.head(found, rows)
    }

    fn rows<'f>(&self, found: &'f Findings<'_>) -> &'f [Opener<u64>] {
        self.0.calls(found)
    }

    fn line(&self, found: &Findings<'_>, kept: &Opener<u64>) -> Row {
        call_row(&self.0, found.record_at(kept.event), *kept)
    }
}

fn call_row<S: CallSection>(section: &S, event: Event<'_>, call: Opener<u64>) -> Row
    requires { IsTrue (has_transaction_data event.kind) }
    ensures { result.bytes ≡ row_of_kept S.field call (event_text event.entry) }
{
    let mut line = thread_start(event);
    push_record(section, &mut line, event);
    line.push_str(" ");
    line.push_str(verdict_name(call.verdict));
    line.push_str(" ");
    push_closer(&mut line, call.closer);
    line
}

/// Pushes what a row says of the call's record.
fn push_record<S: CallSection>(section: &S, line: &mut Row, event: Event<'_>)
    requires room { array_string_len line.old ≤ 85 }
    requires fields { IsTrue (has_transaction_data event.kind) }
    ensures text { line.new.bytes ≡ line.old.bytes
        ++ record_fields S.field event.entry.payload.now }
    ensures short { array_string_len line.new ≤ array_string_len line.old + 42 }
{
    let transaction = fields(event);
    line.push_str(" ");
    section.push_field(line, transaction);
    push_counted(line, " ", u64::from(transaction.code()));
}

/// Pushes the place of a closer, or `-` if there is none.
fn push_closer(line: &mut Row, closer: Option<u64>)
    requires { array_string_len line.old + 20 ≤ 256 }
    ensures { line.new.bytes ≡ line.old.bytes ++ closer_field closer }
{
    match closer {
        Some(place) => push_decimal(line, place),
        None => line.push_str("-"),
    }
}

/// A verdict, as it is printed.
fn verdict_name(verdict: Verdict) -> &'static str
    ensures name { result.now ≡ verdict_name verdict }
    ensures short { length result.now ≤ 8 }
{
    match verdict {
        Verdict::Answered => "answered",
        Verdict::Failed => "failed",
        Verdict::Replied => "replied",
        Verdict::Crossed => "crossed",
        Verdict::Open => "open",
    }
}
