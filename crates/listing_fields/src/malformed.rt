//! The line that names a fault.

use crate::text::push_counted;
use capture_frame::PartFault;
use std::alloc::AllocError;

/// Pushes the line that names a fault, in the auditor's form. If the capture has several parts, the
/// line has the number of the part.
pub fn push_fault(text: &mut String, found: PartFault, parts: u64) -> Result<(), AllocError> {
    let PartFault { part, fault } = found;
    let kind = fault.kind;
    write!(text, "malformed {kind:?}")?;
    push_counted(text, " at ", fault.place)?;
    if parts > 1 {
        push_counted(text, " in part ", u64::from(part))?;
    }
    text.push_str("\n")
}
