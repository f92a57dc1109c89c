//! The records of a frame: each a code word of the Binder driver's protocol and its payload.
#![tactic(auto)]

pub mod laws;
mod protocol;
mod record;
mod records;

pub use record::Record;
pub use records::Records;
