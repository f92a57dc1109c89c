//! The number of weights, and their sum.

ghost use Rattle.summary_law.specs.Amount.{IsAmount};
ghost use Rattle.summary_law.specs.Fits.{IsShort, short_halves};

use crate::summary::Summary;
use std::alloc::{AllocError, Global};

/// How many weights there are, and their sum. The sum takes at most 96 bits, so it never wraps.
#[derive(Clone, Copy, PartialEq, Eq)]
pub struct Amount {
    pub count: u64,
    pub sum: u128,
}

impl Summary for Amount {
    type Item = u64;

    ghost fits = { IsShort };

    ghost sums = { IsAmount };

    fn empty(_alloc: Global) -> Amount {
        Amount { count: 0, sum: 0 }
    }

    fn add(&mut self, item: u64) -> Result<(), AllocError> {
        self.count += 1;
        self.sum += u128::from(item);
        Ok(())
    }

    fn join(self, later: Amount) -> Result<Amount, AllocError> {
        Ok(Amount {
            count: self.count + later.count,
            sum: self.sum + later.sum,
        })
    }

    ghost fits_halves = { short_halves };
}
