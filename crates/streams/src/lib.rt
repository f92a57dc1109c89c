//! The two ends of a run: a reader read whole, a text written whole, and what ends the program
//! without an answer.
#![tactic(auto)]

mod failure;
mod host_files;
mod parts;
mod reading;
mod run_error;
mod stretches;
mod writing;

pub use crate::failure::Failure;
pub use crate::parts::read_parts;
pub use crate::reading::read_capture;
pub use crate::run_error::RunError;
pub use crate::stretches::{FoundFile, SharedFiles, read_stretches};
pub use crate::writing::write_text;
