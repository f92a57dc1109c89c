//! The calls of the ledgers and of boards that take memory, each by a name: it prints its answer on a
//! capture.
#![tactic(auto)]

mod events;
mod fits;
mod jobs;
mod ledgers;
mod no_answer;
mod placed;
mod sums;
mod table;
mod told;

pub use no_answer::{NoAnswer, Printed};
pub use sums::{Way, summed};
pub use table::{list, of_ledgers};
pub use told::{kept_frames, opener, value};
