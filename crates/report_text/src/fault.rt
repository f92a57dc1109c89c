//! The line that names a fault.

ghost use Rattle.std.specs.Prelude.{◌≡◌, ◌≤◌, length};
ghost use Rattle.arrayvec.specs.ArrayString.{array_string_len};
ghost use Rattle.report_text.specs.Fault.{fault_name, fault_line, fault_words, part_fault_line};

use crate::line::{Row, push_counted, push_decimal};
use capture_frame::{Fault, FaultKind, PartFault};

/// The line that names a fault, with its line feed. It takes no memory.
pub fn fault_text(fault: Fault) -> Row
    ensures line { result.bytes ≡ fault_line fault }
    ensures short { length result.bytes ≤ 256 }
{
    let mut line = fault_words(fault);
    line.push_str("\n");
    line
}

/// The line that names the first fault of a capture in `parts` parts, with its line feed. For a
/// single part it is the line of a capture. Otherwise it names the part that the place is in, from
/// 1. It takes no memory.
pub fn part_fault_text(found: PartFault, parts: usize) -> Row
    ensures line { result.bytes ≡ part_fault_line parts found }
    ensures short { length result.bytes ≤ 256 }
{
    if parts == 1 {
        return fault_text(found.fault);
    }
    let mut line = fault_words(found.fault);
    push_counted(&mut line, " in part ", u64::from(found.part));
    line.push_str("\n");
    line
}

/// What is wrong, and at which place.
fn fault_words(fault: Fault) -> Row
    ensures words { result.bytes ≡ fault_words fault }
    ensures short { array_string_len result ≤ 49 }
{
    let mut line = Row::new();
    line.push_str("malformed ");
    line.push_str(fault_name(fault.kind));
    line.push_str(" at ");
    push_decimal(&mut line, fault.place);
    line
}

/// The name of a kind of fault, as it is printed.
fn fault_name(kind: FaultKind) -> &'static str
    ensures name { result.now ≡ fault_name kind }
    ensures short { length result.now ≤ 15 }
{
    match kind {
        FaultKind::HeaderShort => "HeaderShort",
        FaultKind::HeaderMagic => "HeaderMagic",
        FaultKind::HeaderProtocol => "HeaderProtocol",
        FaultKind::HeaderReserved => "HeaderReserved",
        FaultKind::FrameShort => "FrameShort",
        FaultKind::FrameSequence => "FrameSequence",
        FaultKind::FrameDirection => "FrameDirection",
        FaultKind::FrameReserved => "FrameReserved",
        FaultKind::FrameLength => "FrameLength",
        FaultKind::RecordShort => "RecordShort",
        FaultKind::RecordDirection => "RecordDirection",
        FaultKind::RecordSize => "RecordSize",
        FaultKind::AttachShort => "AttachShort",
        FaultKind::AttachRecord => "AttachRecord",
        FaultKind::AttachSize => "AttachSize",
    }
}
