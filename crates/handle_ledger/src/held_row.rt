//! What a ledger says of a handle, with the references that deliveries hold.

use crate::handle_counts::HandleCounts;

/// A handle of a process: a BC_ACQUIRE, BC_RELEASE, BC_INCREFS or BC_DECREFS of the process names
/// it, or a leaked delivery to the process holds it. A delivery is leaked if no later free of its
/// process has its address.
#[derive(Clone, Copy, Debug, PartialEq, Eq)]
pub struct HeldRow {
    pub handle: u32,
    /// The references that the process itself took and let go.
    pub taken: HandleCounts,
    /// How many strong references the leaked deliveries hold.
    pub held_strong: u64,
    /// How many weak references the leaked deliveries hold.
    pub held_weak: u64,
}
