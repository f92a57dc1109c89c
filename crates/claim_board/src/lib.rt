//! Jobs that workers share through two atomic words. Whatever the order of their steps, they give
//! all results in the order of the jobs, or the least fault.
#![tactic(auto)]

mod board;
mod job;
pub mod laws;
mod results;
mod run;
mod seat;
mod share;
mod view;
mod work;
mod worker;
mod workers;

pub use board::Board;
pub use job::{Act, BoardFault, Job, JobState, Step};
pub use run::{Stop, run_all};
pub use work::{Gate, JobStop, NoGate, Work};
pub use workers::Workers;
