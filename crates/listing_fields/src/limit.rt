//! How much a program of the listing reads.

/// The most bytes that a part of a capture may have; where parts are read together, all of them.
pub const FILE_LIMIT: usize = 1_073_741_824;
