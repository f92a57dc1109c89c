//! What was opened and never closed, and what was closed while it was not open, by key.

ghost use Rattle.std.specs.Prelude.{IfOk};
ghost use Rattle.pending_ledger.specs.Pending.{place_of};
ghost use Rattle.pending_ledger.specs.Sums.{PendingSums, GivesOutstanding, GivesStrays};
ghost use Rattle.summary_law.specs.Fits.{IsPlaced, placed_halves};

use crate::key::KeyLedger;
use event_core::KeyEvent;
use std::alloc::{AllocError, Global};
use std::hash::Hash;
use summary_law::{ByKey, Summary};

/// The outstanding opens and the stray closes in a list of opens and closes of keys. The caller
/// feeds it items of one process only: no item names its process.
#[derive(Drop)]
pub struct Pending<K: Ord + Copy + Hash> {
    keys: ByKey<K, KeyLedger>,
}

/// Deliveries, by the address of their buffer: each is open until the process frees the buffer.
pub type Buffers = Pending<u64>;

/// Deaths that a process is notified of, by cookie: each is open until the process acknowledges it.
pub type Deaths = Pending<u64>;

/// Clears, by cookie: each is open until the driver confirms it.
pub type Clears = Pending<u64>;

impl<K: Ord + Copy + Hash> Pending<K> {
    /// The places of the outstanding opens, rising: no later close has their key.
    pub fn outstanding(&self) -> Result<Vec<u64>, AllocError>
        ensures { IfOk result (λ places. GivesOutstanding K.cmp self.now places.items) }
    {
        let mut places = Vec::new(self.keys.allocator());
        for (_key, ledger) in &self.keys {
            ledger.opens.places.push_to(&mut places)?;
        }
        places.sort_unstable();
        Ok(places)
    }

    /// The places of the stray closes, rising: their key was not open.
    pub fn strays(&self) -> Result<Vec<u64>, AllocError>
        ensures { IfOk result (λ places. GivesStrays K.cmp self.now places.items) }
    {
        let mut places = Vec::new(self.keys.allocator());
        for (_key, ledger) in &self.keys {
            places.extend_from_slice(ledger.strays.places.as_slice())?;
        }
        places.sort_unstable();
        Ok(places)
    }
}

impl<K: Ord + Copy + Hash> Summary for Pending<K> {
    type Item = (K, KeyEvent);

    ghost fits = { IsPlaced place_of };

    ghost sums = { PendingSums K.cmp };

    fn empty(alloc: Global) -> Pending<K> {
        Pending {
            keys: ByKey::empty(alloc),
        }
    }

    #[inline(always)]
    fn add(&mut self, item: (K, KeyEvent)) -> Result<(), AllocError> {
        self.keys.add(item)
    }

    fn join(self, later: Pending<K>) -> Result<Pending<K>, AllocError> {
        let keys = self.keys.join(later.keys)?;
        Ok(Pending { keys })
    }

    ghost fits_halves = { placed_halves place_of };
}
