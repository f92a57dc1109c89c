//! The ledgers of a process, and what they pick from its events.
#![tactic(auto)]

mod concerned;
mod process_ledgers;
mod readers;

pub use concerned::concerns;
pub use process_ledgers::ProcessLedgers;
pub use readers::{
    BufferItems, ClearItems, DeathItems, HandleItems, NodeItems, OnewayItems, RequestItems,
};
