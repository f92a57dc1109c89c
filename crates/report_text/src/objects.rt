//! The section `objects`.

ghost use Rattle.std.specs.Prelude.{◌≡◌, ◌≤◌, length};
ghost use Rattle.event_core.specs.Reading.{event_text};
ghost use Rattle.report_text.specs.Objects.{objects_row, cause_name};

use crate::events::row_start;
use crate::line::{Row, push_counted};
use crate::section::Section;
use audit_findings::{BadRow, Findings};
use event_core::Event;
use object_view::{BadObject, Cause};

/// The section. Of each row the place of its record and the bad object are kept.
#[derive(Clone, Copy)]
pub(crate) struct Objects;

impl Section for Objects {
    ghost use Rattle.std.specs.Prelude.{true};
    ghost use Rattle.report_text.specs.Objects.{objects_row, objects_section};
    ghost use Rattle.report_text.specs.Pushed.{IsRowAt, ShowsEvent};
    ghost use Rattle.report_text.specs.Section.{lines_of};

    type Kept = BadRow<u64>;

    ghost lines = { lines_of objects_section };

    ghost head_of = { objects_section.head };

    ghost can_show = { λ frames row. IsRowAt (λ _. true) frames row.owner };

    ghost shows = { λ frames row line.
        ShowsEvent (λ e. objects_row (record { owner = e; bad = row.bad })) frames row.owner line };

    fn head(&self, found: &Findings<'_>, rows: usize) -> Row {
        let counts = found.sections().events.objects;
        let mut line = Row::new();
        push_counted(&mut line, "objects binder ", counts.binder);
        push_counted(&mut line, " weak_binder ", counts.weak_binder);
        push_counted(&mut line, " handle ", counts.handle);
        push_counted(&mut line, " weak_handle ", counts.weak_handle);
        push_counted(&mut line, " fd ", counts.fd);
        push_counted(&mut line, " fda ", counts.fda);
        push_counted(&mut line, " ptr ", counts.ptr);
        push_counted(&mut line, " bad ", rows as u64);
        line
    }

    fn rows<'f>(&self, found: &'f Findings<'_>) -> &'f [BadRow<u64>] {
        found.sections().events.bad_objects.as_slice()
    }

    fn line(&self, found: &Findings<'_>, kept: &BadRow<u64>) -> Row {
        objects_row(found.record_at(kept.owner), kept.bad)
    }
}

fn objects_row(owner: Event<'_>, bad: BadObject) -> Row
    ensures { result.bytes ≡ objects_row (record { owner = event_text owner.entry; bad = bad }) }
{
    let mut line = row_start(owner);
    push_counted(&mut line, " ", bad.index);
    push_counted(&mut line, " ", bad.offset);
    line.push_str(" ");
    line.push_str(cause_name(bad.cause));
    line
}

/// The name of a cause, as it is printed.
fn cause_name(cause: Cause) -> &'static str
    ensures name { result.now ≡ cause_name cause }
    ensures short { length result.now ≤ 11 }
{
    match cause {
        Cause::ListLength => "ListLength",
        Cause::Misaligned => "Misaligned",
        Cause::Overlap => "Overlap",
        Cause::Short => "Short",
        Cause::UnknownSort => "UnknownSort",
    }
}
