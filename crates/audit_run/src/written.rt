//! What a run writes.

use capture_frame::{Fault, PartFault};

/// What a run has written about a capture. `PartsWritten`, of a capture in parts, is
/// `Written<PartFault>`.
#[derive(Clone, Copy, Debug, PartialEq, Eq)]
pub enum Written<F = Fault> {
    /// The report.
    Report,
    /// The line that names the first fault, and the part that has it if there are several.
    Malformed(F),
}

/// What a run has written about a capture in parts.
pub type PartsWritten = Written<PartFault>;
