//! The program as a library: from the words of a command line to two streams and a status.
#![tactic(auto)]

mod answers;
mod status;

pub use crate::status::{Ending, ended, program, program_on};
pub use streams::SharedFiles;
