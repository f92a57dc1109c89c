/// Why no good object begins at an offset, in the order in which causes are looked for. `Short` is
/// looked for twice, before `UnknownSort` and after it.
#[derive(Clone, Copy, Debug)]
pub enum Cause {
    /// The length of the list of offsets is not a multiple of 8.
    ListLength,
    /// The offset is not a multiple of 4.
    Misaligned,
    /// The offset is below the end of the object before.
    Overlap,
    /// Fewer than four bytes of data are left there, or fewer than the sort has.
    Short,
    /// The four bytes there name no sort.
    UnknownSort,
}

/// The first bad object of an attachment. The objects after it are not read.
#[derive(Clone, Copy, Debug)]
pub struct BadObject {
    /// Its number in the list of offsets, from 0; 0 where the list's length is wrong.
    pub index: u64,
    /// Its offset in the data, in bytes; 0 where the list's length is wrong.
    pub offset: u64,
    /// What is wrong.
    pub cause: Cause,
}
