//! Transactions and replies, the attachments of a frame, and the first fault of a whole capture.
#![tactic(auto)]

mod attachments;
mod check;
mod entry;
mod good_entries;
pub mod laws;
mod transaction;

pub use attachments::Attachments;
pub use capture_frame::{PartFault, u32_at, u64_at};
pub use check::{check_frame, first_fault, first_fault_parts};
pub use entry::Entry;
pub use good_entries::GoodEntries;
pub use transaction::Transaction;
