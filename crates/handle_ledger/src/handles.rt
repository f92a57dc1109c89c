//! The references that a process holds by handle.

ghost use Rattle.handle_ledger.specs.Handles.{HandleLedgerSums, GivesHandleRows};
ghost use Rattle.std.specs.Prelude.{IfOk};
ghost use Rattle.summary_law.specs.Fits.{IsShort, short_halves};

use crate::handle_counts::HandleCounts;
use event_core::{HandleChange, Strength};
use std::alloc::{AllocError, Global};
use summary_law::{ByKey, Summary};

/// The counts of each handle that one process named. The caller separates the items of processes.
#[derive(Drop)]
pub struct HandleLedger {
    pub(crate) handles: ByKey<u32, HandleCounts>,
}

impl HandleLedger {
    /// Each handle that an item names, with its counts, even if they are 0, handles rising.
    pub fn rows(&self) -> Result<Vec<(u32, HandleCounts)>, AllocError>
        ensures { IfOk result (λ rows. GivesHandleRows self.now rows.items) }
    {
        let mut rows = Vec::new(self.handles.allocator());
        for (handle, counts) in &self.handles {
            rows.push((*handle, *counts))?;
        }
        Ok(rows)
    }
}

/// An `add` takes at most two look-ups, and a `join` two for each handle of the later ledger.
impl Summary for HandleLedger {
    type Item = (u32, (Strength, HandleChange));

    ghost fits = { IsShort };

    ghost sums = { HandleLedgerSums };

    fn empty(alloc: Global) -> HandleLedger {
        HandleLedger {
            handles: ByKey::empty(alloc),
        }
    }

    fn add(&mut self, item: (u32, (Strength, HandleChange))) -> Result<(), AllocError> {
        self.handles.add(item)
    }

    fn join(self, later: HandleLedger) -> Result<HandleLedger, AllocError> {
        let handles = self.handles.join(later.handles)?;
        Ok(HandleLedger { handles })
    }

    ghost fits_halves = { short_halves };
}
