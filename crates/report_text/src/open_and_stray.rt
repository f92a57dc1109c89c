//! What the sections `deaths` and `clears` have in common.

ghost use Rattle.std.specs.Prelude.{◌≡◌, ◌≤◌, length};
ghost use Rattle.event_core.specs.Reading.{event_text};
ghost use Rattle.report_text.specs.OpenAndStray.{open_and_stray_head, open_and_stray_row};

use crate::events::row_start;
use crate::line::{Row, push_counted, push_hex_number};
use audit_findings::OpenAndStray;
use event_core::Event;

/// The head of a section with this name and this word for an unclosed open. `all` is the number of
/// opens.
pub(crate) fn open_and_stray_head(name: &str, word: &str, all: u64, kept: &OpenAndStray<u64>) -> Row
    requires name { length name.now ≤ 16 }
    requires word { length word.now ≤ 16 }
    ensures { result.bytes ≡ open_and_stray_head name.now word.now all kept.now.unclosed
        kept.now.strays }
{
    let mut line = Row::new();
    line.push_str(name);
    push_counted(&mut line, " ", all);
    line.push_str(" ");
    line.push_str(word);
    push_counted(&mut line, " ", kept.unclosed);
    push_counted(&mut line, " stray ", kept.strays);
    line
}

/// The row of an event with this cookie and this word.
pub(crate) fn open_and_stray_row(event: Event<'_>, cookie: u64, word: &str) -> Row
    requires { length word.now ≤ 16 }
    ensures { result.bytes ≡ open_and_stray_row word.now cookie (event_text event.entry) }
{
    let mut line = row_start(event);
    line.push_str(" ");
    push_hex_number(&mut line, cookie);
    line.push_str(" ");
    line.push_str(word);
    line
}
