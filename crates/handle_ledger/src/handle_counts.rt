//! The counts of one handle.

ghost use Rattle.handle_ledger.specs.Handles.{HandleCountsSum};
ghost use Rattle.summary_law.specs.Fits.{IsShort, short_halves};

use event_core::{HandleChange, Strength};
use std::alloc::{AllocError, Global};
use summary_law::{Count, Summary};

/// The counts of a process's references to one handle, by the BC_ACQUIRE, BC_RELEASE, BC_INCREFS
/// and BC_DECREFS that name it.
#[derive(Clone, Copy, Debug, PartialEq, Eq)]
pub struct HandleCounts {
    /// BC_ACQUIRE raises it, and BC_RELEASE lowers it.
    pub strong: Count,
    /// BC_INCREFS raises it, and BC_DECREFS lowers it.
    pub weak: Count,
}

impl Summary for HandleCounts {
    type Item = (Strength, HandleChange);

    ghost fits = { IsShort };

    ghost sums = { HandleCountsSum };

    fn empty(_alloc: Global) -> HandleCounts {
        HandleCounts {
            strong: Count::new(),
            weak: Count::new(),
        }
    }

    fn add(&mut self, item: (Strength, HandleChange)) -> Result<(), AllocError> {
        match (item.0, item.1) {
            (Strength::Strong, HandleChange::Raise) => self.strong.raise(),
            (Strength::Strong, HandleChange::Lower) => self.strong.lower(),
            (Strength::Weak, HandleChange::Raise) => self.weak.raise(),
            (Strength::Weak, HandleChange::Lower) => self.weak.lower(),
        }
        Ok(())
    }

    fn join(self, later: HandleCounts) -> Result<HandleCounts, AllocError> {
        Ok(HandleCounts {
            strong: self.strong.then(later.strong),
            weak: self.weak.then(later.weak),
        })
    }

    ghost fits_halves = { short_halves };
}
