//! The sends of each thread that wait to be confirmed.

ghost use Rattle.std.specs.Prelude.{IfOk, OnOk};
ghost use Rattle.listing_tables.specs.Settling.{AddsLast, TakesFirst, queues_of};

use crate::numbered::Numbered;
use crate::spans::Utid;
use listing_fields::{ListingError, Outcome};
use std::alloc::Global;
use std::collections::VecDeque;

/// Of each thread, the sends that wait to be confirmed, by their index among the messages.
#[derive(Drop)]
pub(crate) struct Sends {
    queues: Numbered<VecDeque<u32>>,
    alloc: Global,
}

impl Sends {
    pub(crate) fn new(alloc: Global) -> Sends {
        Sends {
            queues: Numbered::new(alloc),
            alloc,
        }
    }

    /// Takes a frame of a thread, before its records.
    pub(crate) fn add_frame(&mut self, utid: Utid) -> Outcome {
        if utid.index == self.queues.next()? {
            self.queues.push(VecDeque::new(self.alloc))?;
        }
        Ok(())
    }

    /// Takes a send.
    pub(crate) fn add(&mut self, utid: Utid, send: u32) -> Outcome
        ensures { OnOk result (
            AddsLast (queues_of self.old) utid.index send (queues_of self.new)) }
    {
        let at = utid.index as usize;
        if at >= self.queues.all.len() {
            return Err(ListingError::TooLarge);
        }
        self.queues.all[at].push_back(send)?;
        Ok(())
    }

    /// The first send of a thread that waits. Then it does not wait any more.
    pub(crate) fn take_first(&mut self, utid: Utid) -> Result<Option<u32>, ListingError>
        ensures { IfOk result (TakesFirst (queues_of self.old) utid.index (queues_of self.new)) }
    {
        let at = utid.index as usize;
        if at >= self.queues.all.len() {
            return Err(ListingError::TooLarge);
        }
        Ok(self.queues.all[at].pop_front())
    }
}
