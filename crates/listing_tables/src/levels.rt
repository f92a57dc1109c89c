//! What each process holds at most in each of 16 slices of the capture.

ghost use Rattle.std.specs.Prelude.{◌<◌};

use crate::numbered::{Numbered, one_more};
use crate::rows::{Column, RowWriter, columns};
use crate::slices::{SLICES, Slices};
use crate::spans::Upid;
use indexmap::IndexMap;
use listing_fields::{ListingError, Outcome};
use std::alloc::Global;
use std::io::Write;

/// The highest number that is written: SQLite has no higher one.
const MOST: u128 = 9_223_372_036_854_775_807;

/// What a process holds, by its number among the columns.
#[derive(Clone, Copy)]
pub(crate) enum Resource {
    Buffers,
    Bytes,
    References,
    Calls,
    Served,
}

/// How much of a resource a process holds, and the index of the latest slice in which that changed.
#[derive(Clone, Copy)]
struct Level {
    now: u128,
    latest: u32,
}

/// A slice in which a level changes: the most, and the level at the end of the slice, both as they
/// are written.
#[derive(Clone, Copy)]
struct Slice {
    upid: Upid,
    number: u8,
    resource: u8,
    most: u64,
    end: u64,
}

/// What all processes hold.
#[derive(Drop)]
pub(crate) struct Levels {
    /// The slices of the capture.
    all: Slices,
    /// The number of the one that is gone through.
    number: u8,
    /// By process and resource.
    levels: IndexMap<(Upid, u8), Level>,
    slices: Numbered<Slice>,
}

impl Levels {
    /// Nothing yet.
    pub(crate) fn new(alloc: Global) -> Levels {
        Levels {
            all: Slices::of((0, 0)),
            number: 0,
            levels: IndexMap::new(alloc),
            slices: Numbered::new(alloc),
        }
    }

    /// Sets the sequences of the first and of the last frame of the capture.
    pub(crate) fn set_span(&mut self, span: (u64, u64)) {
        self.all = Slices::of(span);
    }

    /// Goes to the slice of a frame.
    pub(crate) fn go_to(&mut self, sequence: u64) {
        self.number = self.all.number_of(sequence);
    }

    /// A process holds more, by this much. The changes of a resource come in the order of the
    /// records that make them.
    pub(crate) fn raise(&mut self, upid: Upid, resource: Resource, by: u64) -> Outcome {
        match self.now(upid, resource).checked_add(u128::from(by)) {
            Some(now) => self.set(upid, resource, now),
            None => Err(ListingError::TooLarge),
        }
    }

    /// A process holds less, by this much of what it held.
    pub(crate) fn lower(&mut self, upid: Upid, resource: Resource, by: u64) -> Outcome {
        match self.now(upid, resource).checked_sub(u128::from(by)) {
            Some(now) => self.set(upid, resource, now),
            None => Err(ListingError::TooLarge),
        }
    }

    /// What a process holds.
    fn now(&self, upid: Upid, resource: Resource) -> u128 {
        match self.levels.get(&(upid, resource as u8)) {
            Some(level) => level.now,
            None => 0,
        }
    }

    fn set(&mut self, upid: Upid, resource: Resource, now: u128) -> Outcome {
        let key = (upid, resource as u8);
        let latest = match self.levels.get(&key).copied() {
            Some(level) => self.slice_after(key, level)?,
            None => self.begin(key, 0)?,
        };
        self.levels.insert(key, Level { now, latest })?;
        let slice = self.slices.at_mut(latest)?;
        slice.most = slice.most.max(told(now));
        slice.end = told(now);
        Ok(())
    }

    /// The slice that is gone through, of a process and a resource: the latest one of this level,
    /// or one that begins.
    fn slice_after(&mut self, key: (Upid, u8), level: Level) -> Result<u32, ListingError> {
        if self.slices.at(level.latest)?.number == self.number {
            return Ok(level.latest);
        }
        self.begin(key, level.now)
    }

    /// Begins a slice of a process and a resource that is at this level, and returns its index.
    fn begin(&mut self, key: (Upid, u8), level: u128) -> Result<u32, ListingError> {
        let (upid, resource) = key;
        self.slices.push(Slice {
            upid,
            number: self.number,
            resource,
            most: told(level),
            end: told(level),
        })
    }

    /// Writes the rows of the table level, for this many processes.
    pub(crate) fn write<W: Write + Drop>(
        &mut self,
        processes: u32,
        rows: &mut RowWriter<W>,
    ) -> Outcome {
        self.slices
            .all
            .sort_unstable_by_key(|slice| (slice.upid.index, slice.number, slice.resource));
        let mut next = 0u32;
        for index in 0..processes {
            next = self.write_process(Upid { index }, next, rows)?;
        }
        Ok(())
    }

    /// Writes the rows of a process, whose slices begin at the index `next`, and returns the index
    /// after them.
    fn write_process<W: Write + Drop>(
        &self,
        upid: Upid,
        next: u32,
        rows: &mut RowWriter<W>,
    ) -> Result<u32, ListingError> {
        let mut next = next;
        let mut held = [0u64; 5];
        for number in 0..SLICES as u8 {
            let mut most = held;
            for resource in 0..5u8 {
                // In a slice in which nothing changed there is none.
                if let Some(slice) = self.slice_at(next, upid, number, resource) {
                    most[resource as usize] = slice.most;
                    held[resource as usize] = slice.end;
                    next = one_more(next)?;
                }
            }
            rows.push(&columns! {
                upid: upid,
                slice: u32::from(number),
                buffers: most[0],
                bytes: most[1],
                refs: most[2],
                calls: most[3],
                served: most[4],
            })?;
        }
        Ok(next)
    }

    /// The slice at this index, if it is the one of this process, number and resource.
    fn slice_at(&self, index: u32, upid: Upid, number: u8, resource: u8) -> Option<Slice> {
        let slice = self.slices.all.get(index as usize)?;
        if (slice.upid, slice.number, slice.resource) != (upid, number, resource) {
            return None;
        }
        Some(*slice)
    }
}

/// A number as it is written.
fn told(number: u128) -> u64 {
    number.min(MOST) as u64
}
