//! The counts of one node.

ghost use Rattle.handle_ledger.specs.Nodes.{NodeCountsSum};
ghost use Rattle.summary_law.specs.Fits.{IsShort, short_halves};

use event_core::{NodeChange, Strength};
use std::alloc::{AllocError, Global};
use summary_law::{Count, Summary};

/// The counts of the references to one node of a process that the driver asks the process to keep.
#[derive(Clone, Copy, Debug, PartialEq, Eq)]
pub struct NodeCounts {
    /// BR_ACQUIRE raises it, and BR_RELEASE lowers it.
    pub strong: Count,
    /// BR_INCREFS raises it, and BR_DECREFS lowers it.
    pub weak: Count,
    /// How many strong references are due: BR_ACQUIRE less BC_ACQUIRE_DONE. It can be below 0.
    pub strong_due: i64,
    /// How many weak references are due: BR_INCREFS less BC_INCREFS_DONE. It can be below 0.
    pub weak_due: i64,
}

impl Summary for NodeCounts {
    type Item = (Strength, NodeChange);

    ghost fits = { IsShort };

    ghost sums = { NodeCountsSum };

    fn empty(_alloc: Global) -> NodeCounts {
        NodeCounts {
            strong: Count::new(),
            weak: Count::new(),
            strong_due: 0,
            weak_due: 0,
        }
    }

    fn add(&mut self, item: (Strength, NodeChange)) -> Result<(), AllocError> {
        match (item.0, item.1) {
            (Strength::Strong, NodeChange::Raise) => {
                self.strong.raise();
                self.strong_due += 1;
            }
            (Strength::Strong, NodeChange::Lower) => self.strong.lower(),
            (Strength::Strong, NodeChange::Done) => self.strong_due -= 1,
            (Strength::Weak, NodeChange::Raise) => {
                self.weak.raise();
                self.weak_due += 1;
            }
            (Strength::Weak, NodeChange::Lower) => self.weak.lower(),
            (Strength::Weak, NodeChange::Done) => self.weak_due -= 1,
        }
        Ok(())
    }

    fn join(self, later: NodeCounts) -> Result<NodeCounts, AllocError> {
        Ok(NodeCounts {
            strong: self.strong.then(later.strong),
            weak: self.weak.then(later.weak),
            strong_due: self.strong_due + later.strong_due,
            weak_due: self.weak_due + later.weak_due,
        })
    }

    ghost fits_halves = { short_halves };
}
