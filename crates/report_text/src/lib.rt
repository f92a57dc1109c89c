//! The findings of a capture as lines and as text, and the line that names a fault.
#![tactic(auto)]

mod buffers;
mod call_row;
mod calls;
mod clears;
mod codes;
mod deaths;
mod events;
mod fault;
mod flags;
mod frees;
mod handles;
mod line;
mod lines;
mod nodes;
mod objects;
mod oneway;
mod open_and_stray;
mod process;
mod process_row;
mod refused;
mod report;
mod requests;
mod section;
mod served;
mod strays;
mod whole_rows;

pub use fault::{fault_text, part_fault_text};
pub use line::Row;
pub use report::{rows, text};
