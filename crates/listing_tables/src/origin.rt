//! Where a record is, and whose it is.

use crate::spans::{Upid, Utid};

/// Where a record is, and whose it is.
#[derive(Clone, Copy)]
pub(crate) struct Origin {
    pub place: u32,
    pub sequence: u64,
    pub device: u32,
    /// The number of its process in the frames.
    pub process: u32,
    pub upid: Upid,
    pub utid: Utid,
}
