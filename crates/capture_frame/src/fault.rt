//! What makes a capture malformed.

/// The fifteen kinds of fault, in the order of their numbers. Where several apply at one place, the
/// first is named, with one exception: a payload that passes the command bytes is judged after the
/// direction and the size of the code word. The program prints these names.
#[derive(Clone, Copy, Debug, PartialEq, Eq)]
pub enum FaultKind {
    /// The part has fewer than 16 bytes.
    HeaderShort,
    /// The part begins neither with `BNDRCAP1` nor with `BNDRCAP2`.
    HeaderMagic,
    /// The protocol version is not 8.
    HeaderProtocol,
    /// The last field of the file header is not 0.
    HeaderReserved,
    /// 1 to 31 bytes are left for a frame header of 32.
    FrameShort,
    /// The sequence is not above that of the frame before.
    FrameSequence,
    /// The direction is neither 1, a write, nor 2, a read.
    FrameDirection,
    /// A reserved field of the frame header is not 0; in version 1 the device is reserved too.
    FrameReserved,
    /// The command and attachment bytes are more than what follows the frame header.
    FrameLength,
    /// 1 to 3 bytes are left for a code word, or the payload passes the end of the command bytes.
    RecordShort,
    /// The code's letter or direction bits are not those of the frame's direction.
    RecordDirection,
    /// The code's number is listed, with another size.
    RecordSize,
    /// 1 to 11 bytes are left for the first 12 of an entry, or its lengths pass the end of the
    /// attachment bytes.
    AttachShort,
    /// No transaction or reply record begins at the offset, or the offset is not above that of the
    /// entry before.
    AttachRecord,
    /// The lengths are not the record's data_size and offsets_size.
    AttachSize,
}

/// A malformed unit.
#[derive(Clone, Copy, Debug, PartialEq, Eq)]
pub struct Fault {
    /// What is wrong.
    pub kind: FaultKind,
    /// Where the unit begins, in bytes from the first byte of what is read: a capture, or a part.
    pub place: u64,
}

/// A malformed unit of a part of a capture.
#[derive(Clone, Copy, Debug, PartialEq, Eq)]
pub struct PartFault {
    /// Which part it is in, counted from 1.
    pub part: u32,
    /// What is wrong, and where in this part.
    pub fault: Fault,
}
