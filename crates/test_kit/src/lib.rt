//! What several crates of tests need: a gate at which jobs meet.
#![tactic(auto)]

mod meeting;

pub use meeting::{Meeting, is_set_in_time};
