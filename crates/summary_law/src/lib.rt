//! Summaries of lists: what it means to add an item to one and to join two, and the summaries that
//! ledgers are made of.
#![tactic(auto)]

mod amount;
mod by_key;
mod count;
mod fed;
mod guesses;
mod in_order;
pub mod laws;
mod list;
mod nothing;
mod picks;
mod summary;
mod tally;

pub use amount::Amount;
pub use by_key::{ByKey, Parts};
pub use count::Count;
pub use fed::Fed;
pub use in_order::InOrder;
pub use list::summary_of;
pub use nothing::Nothing;
pub use picks::Picks;
pub use summary::Summary;
pub use tally::Tally;
