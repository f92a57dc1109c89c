//! What is opened and never closed: buffers that are not freed, deaths that nobody acknowledges,
//! clears that are not confirmed, and standing requests. And what is closed while it is not open.
#![tactic(auto)]

mod cookie;
mod key;
mod opens;
mod pending;
mod places;
mod requests;
mod strays;

pub use pending::{Buffers, Clears, Deaths, Pending};
pub use requests::Requests;
