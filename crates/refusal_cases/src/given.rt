use std::alloc::Global;

/// What a call is made with, and the bytes on which it is made.
#[derive(Drop)]
pub(crate) struct Given<'g, T> {
    pub(crate) rt: &'g T,
    pub(crate) alloc: Global,
    pub(crate) bytes: &'g [u8],
}
