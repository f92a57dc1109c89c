//! The count and the sum of the weights of each key.

ghost use Rattle.std.specs.Prelude.{IfOk};
ghost use Rattle.summary_law.specs.Fits.{IsShort, short_halves};
ghost use Rattle.summary_law.specs.Tally.{TallySums, GivesRows, GivesAmount};

use crate::amount::Amount;
use crate::by_key::ByKey;
use crate::summary::Summary;
use std::alloc::{AllocError, Global};
use std::hash::Hash;

/// The count and the sum of the weights of each key, over items that are a key and a weight.
#[derive(Drop)]
pub struct Tally<K: Ord + Copy + Hash> {
    amounts: ByKey<K, Amount>,
}

impl<K: Ord + Copy + Hash> Tally<K> {
    /// Each key with its count and its sum, the keys rising.
    pub fn rows(&self) -> Result<Vec<(K, u64, u128)>, AllocError>
        ensures { IfOk result (λ rows. GivesRows K.cmp self.now rows.items) }
    {
        let mut rows = Vec::new(self.amounts.allocator());
        for (key, amount) in &self.amounts {
            rows.push((*key, amount.count, amount.sum))?;
        }
        Ok(rows)
    }

    /// The count and the sum of the weights of a key, which are 0 if it has no item.
    pub fn amount(&self, key: K) -> Amount
        ensures { GivesAmount K.cmp self.now key result }
    {
        match self.amounts.get(key) {
            Some(amount) => *amount,
            None => Amount { count: 0, sum: 0 },
        }
    }
}

impl<K: Ord + Copy + Hash> Summary for Tally<K> {
    type Item = (K, u64);

    ghost fits = { IsShort };

    ghost sums = { TallySums K.cmp };

    fn empty(alloc: Global) -> Tally<K> {
        Tally {
            amounts: ByKey::empty(alloc),
        }
    }

    fn add(&mut self, item: (K, u64)) -> Result<(), AllocError> {
        self.amounts.add(item)
    }

    fn join(self, later: Tally<K>) -> Result<Tally<K>, AllocError> {
        let amounts = self.amounts.join(later.amounts)?;
        Ok(Tally { amounts })
    }

    ghost fits_halves = { short_halves };
}
