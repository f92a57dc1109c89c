//! The opens and closes of one key.

ghost use Rattle.pending_ledger.specs.Sums.{KeySums};
ghost use Rattle.summary_law.specs.Fits.{IsShort, short_halves};

use crate::opens::Opens;
use crate::strays::Strays;
use event_core::KeyEvent;
use std::alloc::{AllocError, Global};
use summary_law::Summary;

/// The outstanding opens and the strays of one key.
#[derive(Drop)]
pub struct KeyLedger {
    pub opens: Opens,
    pub strays: Strays,
}

impl Summary for KeyLedger {
    type Item = KeyEvent;

    ghost fits = { IsShort };

    ghost sums = { KeySums };

    fn empty(alloc: Global) -> KeyLedger {
        KeyLedger {
            opens: Opens::empty(alloc),
            strays: Strays::empty(alloc),
        }
    }

    #[inline(always)]
    fn add(&mut self, item: KeyEvent) -> Result<(), AllocError> {
        self.opens.add(item)?;
        self.strays.add(item)
    }

    fn join(self, later: KeyLedger) -> Result<KeyLedger, AllocError> {
        let opens = self.opens.join(later.opens)?;
        let strays = self.strays.join(later.strays)?;
        Ok(KeyLedger { opens, strays })
    }

    ghost fits_halves = { short_halves };
}
