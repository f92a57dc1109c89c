//! What the words of a command line ask for.
#![tactic(auto)]

mod command_line;
pub mod laws;
mod request;

pub use command_line::{WordsError, free, matches_of, request_of};
pub use request::{Question, Request};
