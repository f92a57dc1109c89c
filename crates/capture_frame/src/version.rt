//! The versions of the envelope.

/// The versions of the envelope that are read. They differ in their first eight bytes, and in four
/// bytes of each frame header: version 1 has zeros where version 2 has the device.
#[derive(Clone, Copy)]
pub enum Version {
    /// `BNDRCAP1`.
    One,
    /// `BNDRCAP2`.
    Two,
}
