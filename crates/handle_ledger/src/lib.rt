//! References to handles and to nodes, counted per process.
#![tactic(auto)]

mod handle_counts;
mod handles;
mod held_row;
mod held_rows;
mod node_counts;
mod node_row;
mod nodes;

pub use handle_counts::HandleCounts;
pub use handles::HandleLedger;
pub use held_row::HeldRow;
pub use node_counts::NodeCounts;
pub use node_row::NodeRow;
pub use nodes::NodeLedger;
