//! What a ledger says of a node.

use crate::node_counts::NodeCounts;
use event_core::NodeKey;

/// A node of a process, and the counts of the references to it.
#[derive(Clone, Copy, Debug, PartialEq, Eq)]
pub struct NodeRow {
    pub key: NodeKey,
    pub counts: NodeCounts,
}
