//! How many buffers of each path are held, while the deliveries are gone through in order.

use crate::buffers::Buffers;
use crate::numbered::{Numbered, one_fewer, one_more};
use listing_fields::{ListingError, Outcome};
use std::alloc::Global;

/// How many buffers of each path, by its index, are not freed so far.
#[derive(Drop)]
pub(crate) struct HeldCounts {
    counts: Numbered<u32>,
    /// How many of the buffers that are freed are counted.
    freed: u32,
}

impl HeldCounts {
    pub(crate) fn new(alloc: Global) -> HeldCounts {
        HeldCounts {
            counts: Numbered::new(alloc),
            freed: 0,
        }
    }

    /// Takes off what is freed before this place.
    pub(crate) fn let_go(&mut self, buffers: &Buffers, place: u32) -> Outcome {
        for at in self.freed..buffers.freed.next()? {
            let buffer = buffers.freed_at(at)?;
            if buffer.freed.is_none_or(|freed| freed > place) {
                break;
            }
            let count = self.counts.at_mut(buffer.path)?;
            *count = one_fewer(*count)?;
            self.freed = one_more(at)?;
        }
        Ok(())
    }

    /// Counts a buffer of a path, and returns how many are held now.
    pub(crate) fn hold(&mut self, path: u32) -> Result<u32, ListingError> {
        if self.counts.next()? <= path {
            self.counts.all.resize(path as usize + 1, 0)?;
        }
        let count = self.counts.at_mut(path)?;
        *count = one_more(*count)?;
        Ok(*count)
    }
}
