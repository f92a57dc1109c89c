//! The bounds on what is audited.

/// The most bytes that a capture may have, all its parts together.
pub const CAPTURE_LIMIT: usize = 1_073_741_824;
