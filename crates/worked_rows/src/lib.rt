//! Captures as bytes, and what is written of each.
#![tactic(auto)]

pub mod calls;
pub mod counts;
pub mod faults;
pub mod objects;
pub mod parts;
