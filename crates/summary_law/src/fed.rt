//! The summary of what a reader picks from things.

ghost use Rattle.std.specs.List.{filter_map};
ghost use Rattle.summary_law.specs.Fed.{SumsPicked, picked_halves};

use crate::picks::Picks;
use crate::summary::Summary;
use std::alloc::{AllocError, Global};
use std::marker::PhantomData;

/// The summary of the items that a reader picks from things. A thing from which it picks nothing
/// changes nothing. Where a `Fed` can't be used, `proofs/FedLaws.antt` proves the same of a field.
#[derive(Drop)]
pub struct Fed<R: Picks, S: Summary> {
    /// The summary of the items.
    pub own: S,
    things: PhantomData<R::Thing>,
}

impl<R: Picks, S: Summary<Item = R::Item>> Summary for Fed<R, S> {
    type Item = R::Thing;

    ghost fits = { λ things. S.fits (filter_map R.picks things) };

    ghost sums = { λ v things. SumsPicked R.picks S.sums v.own things };

    fn empty(alloc: Global) -> Fed<R, S> {
        Fed {
            own: S::empty(alloc),
            things: PhantomData,
        }
    }

    // Inlined, since most things are passed over and a thing may be large.
    #[inline(always)]
    fn add(&mut self, item: R::Thing) -> Result<(), AllocError> {
        match R::pick(item) {
            Some(found) => self.own.add(found),
            None => Ok(()),
        }
    }

    fn join(self, later: Fed<R, S>) -> Result<Fed<R, S>, AllocError> {
        let own = self.own.join(later.own)?;
        Ok(Fed {
            own,
            things: PhantomData,
        })
    }

    ghost fits_halves = { picked_halves R.picks S.fits S.fits_halves };
}
