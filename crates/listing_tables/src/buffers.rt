//! The buffers that processes get by deliveries, each with the record that frees it.

ghost use Rattle.std.specs.Prelude.{◌≡◌, map, [], length, OnOk, IfOk};
ghost use Rattle.listing_tables.specs.Buffers.{BuffersSum, Frees, SumsOneMore};
ghost use Rattle.listing_tables.specs.Buffers.{delivery_at, free_at, row_of_buffer};

use crate::numbered::{Numbered, difference};
use indexmap::IndexMap;
use listing_fields::{ListingError, Outcome};
use std::alloc::Global;

/// A buffer that a process got by a delivery.
#[derive(Clone, Copy)]
pub(crate) struct Buffer {
    /// The place of its delivery, and the index of that among the messages.
    pub place: u32,
    pub delivery: u32,
    pub sender: i32,
    pub size: u64,
    /// The place of the record that frees it, and the sequence of its frame.
    pub freed: Option<u32>,
    pub freed_in: u64,
    /// The index of its path.
    pub path: u32,
    /// How many buffers that came the same way its process holds right after it.
    pub held: u32,
    /// The index of the buffer before it at its address, if that was not freed.
    pub earlier: Option<u32>,
}

impl Buffer {
    ghost use Rattle.listing_tables.specs.Messages.{freed_after};

    /// How many sequences after this one it is freed.
    pub(crate) fn freed_after(&self, sequence: u64) -> Result<Option<u64>, ListingError>
        ensures { IfOk result (λ duration. duration ≡ freed_after self.now sequence) }
    {
        match self.freed {
            Some(_) => Ok(Some(difference(self.freed_in, sequence)?)),
            None => Ok(None),
        }
    }
}

/// All buffers, in the order of their deliveries.
#[derive(Drop)]
pub(crate) struct Buffers {
    pub list: Numbered<Buffer>,
    /// For each process and address, the index of the latest buffer, if that is not freed.
    latest: IndexMap<(u32, u64), u32>,
    /// The indices of the buffers that are freed, in the order in which they are.
    pub freed: Numbered<u32>,
}

impl Buffers {
    pub(crate) fn new(alloc: Global) -> Buffers
        ensures { BuffersSum result [] }
    {
        Buffers {
            list: Numbered::new(alloc),
            latest: IndexMap::new(alloc),
            freed: Numbered::new(alloc),
        }
    }

    /// The buffer that is freed as this one of all, counted from 0.
    pub(crate) fn freed_at(&self, at: u32) -> Result<Buffer, ListingError> {
        self.list.at(self.freed.at(at)?)
    }

    /// Takes a buffer that is delivered at an address of a process, and returns its index.
    pub(crate) fn deliver(&mut self, key: (u32, u64), buffer: Buffer) -> Result<u32, ListingError>
        ensures sums { OnOk result (SumsOneMore self.old (delivery_at key buffer.place) self.new) }
        ensures index { IfOk result (λ index. index ≡ length self.old.list.all.items) }
    {
        let index = self.list.next()?;
        let earlier = self.latest.insert(key, index)?;
        self.list.push(Buffer {
            freed: None,
            earlier,
            ..buffer
        })
    }

    /// Frees all buffers at an address of a process that are not freed, by the record at this place
    /// in the frame of this sequence.
    pub(crate) fn free(&mut self, key: (u32, u64), place: u32, sequence: u64) -> Outcome
        ensures { OnOk result (SumsOneMore self.old (free_at key place) self.new) }
    {
        let mut next = self.latest.swap_remove(&key);
        for _ in 0..self.list.all.len() {
            let Some(index) = next else {
                break;
            };
            next = self.free_one(index, place, sequence)?;
        }
        Ok(())
    }

    /// Frees a buffer, and returns the index of the one before it at its address.
    fn free_one(
        &mut self,
        index: u32,
        place: u32,
        sequence: u64,
    ) -> Result<Option<u32>, ListingError>
        ensures { IfOk result (Frees self.old index place self.new) }
    {
        let at = index as usize;
        if at >= self.list.all.len() {
            return Err(ListingError::TooLarge);
        }
        let buffer = self.list.all[at];
        self.list.all[at] = Buffer {
            freed: Some(place),
            freed_in: sequence,
            ..buffer
        };
        self.freed.push(index)?;
        Ok(buffer.earlier)
    }

    /// Notes the path of a buffer, and how many buffers of that path are held.
    pub(crate) fn keep_path(&mut self, index: u32, path: u32, held: u32) -> Outcome
        ensures { map row_of_buffer self.new.list.all.items ≡
            map row_of_buffer self.old.list.all.items }
    {
        let at = index as usize;
        if at >= self.list.all.len() {
            return Err(ListingError::TooLarge);
        }
        let buffer = self.list.all[at];
        self.list.all[at] = Buffer {
            path,
            held,
            ..buffer
        };
        Ok(())
    }
}
