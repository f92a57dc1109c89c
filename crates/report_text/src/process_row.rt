//! What `handles`, `nodes` and `oneway`, whose rows go by processes, have in common.

ghost use Rattle.std.specs.Prelude.{◌≡◌, ◌≤◌, ◌+◌, ◌++◌, length};
ghost use Rattle.arrayvec.specs.ArrayString.{array_string_len};
ghost use Rattle.report_text.specs.ProcessRow.{process_start, count_fields, unbalanced_head};

use crate::line::{Row, push_counted, push_signed};
use crate::process::push_process;
use capture_frame::Process;

/// The beginning of a row: its process.
pub(crate) fn process_start(process: Process) -> Row
    ensures text { result.bytes ≡ process_start process }
    ensures short { array_string_len result ≤ 43 }
{
    let mut line = Row::new();
    line.push_str("  ");
    push_process(&mut line, process);
    line
}

/// Pushes a count of references, and its low.
pub(crate) fn push_count(line: &mut Row, count: i64, low: i64)
    requires { array_string_len line.old + 42 ≤ 256 }
    ensures text { line.new.bytes ≡ line.old.bytes ++ count_fields count low }
    ensures short { array_string_len line.new ≤ array_string_len line.old + 42 }
{
    line.push_str(" ");
    push_signed(line, count);
    line.push_str(" ");
    push_signed(line, low);
}

/// The head of a section with this name.
pub(crate) fn unbalanced_head(name: &str, rows: usize, unbalanced: u64) -> Row
    requires { length name.now ≤ 16 }
    ensures { result.bytes ≡ unbalanced_head name.now rows unbalanced }
{
    let mut line = Row::new();
    line.push_str(name);
    push_counted(&mut line, " ", rows as u64);
    push_counted(&mut line, " unbalanced ", unbalanced);
    line
}
