//! How a process and a thread are spelled in a row, whatever the section.

ghost use Rattle.std.specs.Prelude.{◌≡◌, ◌≤◌, ◌+◌, ◌++◌};
ghost use Rattle.arrayvec.specs.ArrayString.{array_string_len};
ghost use Rattle.report_text.specs.Process.{process_field, thread_field};

use crate::line::{Row, push_decimal};
use capture_frame::Process;

/// Pushes the device and the number of a process.
pub(crate) fn push_process(line: &mut Row, process: Process)
    requires { array_string_len line.old + 41 ≤ 256 }
    ensures text { line.new.bytes ≡ line.old.bytes ++ process_field process }
    ensures short { array_string_len line.new ≤ array_string_len line.old + 41 }
{
    push_decimal(line, u64::from(process.device));
    line.push_str(" ");
    push_decimal(line, u64::from(process.number));
}

/// Pushes the number of a thread, whose process is spelled before it.
pub(crate) fn push_thread(line: &mut Row, thread: u32)
    requires { array_string_len line.old + 20 ≤ 256 }
    ensures text { line.new.bytes ≡ line.old.bytes ++ thread_field thread }
    ensures short { array_string_len line.new ≤ array_string_len line.old + 20 }
{
    push_decimal(line, u64::from(thread));
}
