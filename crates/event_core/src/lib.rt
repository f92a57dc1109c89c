//! The events of a frame: each record with its thread and its attachment; and what an event does to
//! each thing that the auditor counts.
#![tactic(auto)]

mod brackets;
mod buffer;
mod clear;
mod death;
mod event;
mod events;
mod handle;
pub mod laws;
mod lookup;
mod marks;
mod node;
mod oneway;
mod pending;
mod record_event;
mod records_and_entries;
mod request;
mod strength;

pub use brackets::{bracket, bracket_of, is_oneway, mark, mark_of};
pub use buffer::{BufferItem, buffer_step};
pub use clear::clear_step;
pub use death::death_step;
pub use event::Event;
pub use events::Events;
pub use handle::{HandleChange, handle_step};
pub use lookup::{event_at, event_without_attachment_at};
pub use marks::{Bracket, Mark};
pub use node::{NodeChange, NodeKey, node_step};
pub use oneway::{OnewayKey, oneway_step};
pub use pending::{KeyEvent, PendingChange};
pub use records_and_entries::RecordsAndEntries;
pub use request::{RequestChange, RequestItem, RequestKey, request_step};
pub use strength::Strength;
