//! Reads a capture of Android Binder traffic, or its parts, from any readers, and writes the text
//! on it to any writer.
#![tactic(auto)]

mod answers;
mod part_runs;
mod runs;
mod store;
mod stretch_runs;
mod written;

pub use crate::answers::{answer, answer_files};
pub use crate::part_runs::{run_first_fault_parts, run_parts};
pub use crate::runs::{run, run_first_fault, run_gated, write_first_fault};
pub use crate::store::{HostFiles, Store};
pub use crate::written::{PartsWritten, Written};
pub use audit_join::{CAPTURE_LIMIT, Piece};
pub use audit_words::{Question, Request};
pub use claim_board::{Gate, NoGate, Workers};
pub use streams::{FoundFile, RunError, SharedFiles, read_capture, read_parts};
