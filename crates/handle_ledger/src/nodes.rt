//! The references that the driver asks a process to keep to its nodes.

ghost use Rattle.handle_ledger.specs.Nodes.{NodeLedgerSums, GivesNodeRows};
ghost use Rattle.std.specs.Prelude.{IfOk};
ghost use Rattle.summary_law.specs.Fits.{IsShort, short_halves};

use crate::node_counts::NodeCounts;
use crate::node_row::NodeRow;
use event_core::{NodeChange, NodeKey, Strength};
use std::alloc::{AllocError, Global};
use summary_law::{ByKey, Summary};

/// The counts of each node of one process that an item names. The caller separates the items of
/// processes.
#[derive(Drop)]
pub struct NodeLedger {
    nodes: ByKey<NodeKey, NodeCounts>,
}

impl NodeLedger {
    /// A row for each node that an item names, even if its counts are 0, by rising ptr and then by
    /// rising cookie.
    pub fn rows(&self) -> Result<Vec<NodeRow>, AllocError>
        ensures { IfOk result (λ rows. GivesNodeRows self.now rows.items) }
    {
        let mut rows = Vec::new(self.nodes.allocator());
        for (key, counts) in &self.nodes {
            rows.push(NodeRow {
                key: *key,
                counts: *counts,
            })?;
        }
        Ok(rows)
    }
}

/// An `add` takes at most two look-ups, and a `join` two for each node of the later ledger.
impl Summary for NodeLedger {
    type Item = (NodeKey, (Strength, NodeChange));

    ghost fits = { IsShort };

    ghost sums = { NodeLedgerSums };

    fn empty(alloc: Global) -> NodeLedger {
        NodeLedger {
            nodes: ByKey::empty(alloc),
        }
    }

    fn add(&mut self, item: (NodeKey, (Strength, NodeChange))) -> Result<(), AllocError> {
        self.nodes.add(item)
    }

    fn join(self, later: NodeLedger) -> Result<NodeLedger, AllocError> {
        let nodes = self.nodes.join(later.nodes)?;
        Ok(NodeLedger { nodes })
    }

    ghost fits_halves = { short_halves };
}
