//! The opens of one key that no later close ends.

ghost use Rattle.pending_ledger.specs.Sums.{OpensSums};
ghost use Rattle.summary_law.specs.Fits.{IsShort, short_halves};

use crate::places::Places;
use event_core::{KeyEvent, PendingChange};
use std::alloc::{AllocError, Global};
use summary_law::Summary;

/// The opens of one key that no later close ends. A close ends all before it, and leaves no list.
#[derive(Drop)]
pub struct Opens {
    /// Their places, in order.
    pub places: Places,
    /// Whether there is a close among the events.
    pub has_close: bool,
}

/// A `join` takes a step for each open that it ends, and for each of the later value.
impl Summary for Opens {
    type Item = KeyEvent;

    ghost fits = { IsShort };

    ghost sums = { OpensSums };

    fn empty(alloc: Global) -> Opens {
        Opens {
            places: Places::new(alloc),
            has_close: false,
        }
    }

    #[inline(always)]
    fn add(&mut self, item: KeyEvent) -> Result<(), AllocError> {
        match item.change {
            PendingChange::Open => {
                self.places.push(item.place)?;
            }
            PendingChange::Close => {
                self.places = Places::new(self.places.allocator());
                self.has_close = true;
            }
        }
        Ok(())
    }

    fn join(self, later: Opens) -> Result<Opens, AllocError> {
        if later.has_close {
            return Ok(later);
        }
        let places = self.places.join(later.places)?;
        Ok(Opens {
            places,
            has_close: self.has_close,
        })
    }

    ghost fits_halves = { short_halves };
}
