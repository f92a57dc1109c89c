//! The processes and the threads of a capture, each with its number and its span.

ghost use Rattle.std.specs.Prelude.{◌≡◌, ◌+◌, Some, slice_get, IfOk, OnOk};
ghost use Rattle.listing_tables.specs.Columns.{WritesRows};
ghost use Rattle.listing_tables.specs.Spans.{process_columns, process_rows, thread_columns, thread_rows};
ghost use Rattle.listing_tables.specs.declared.rows.Column.TheVariants.{Number};

use crate::numbered::{narrow, sum};
use crate::rows::{Column, RowWriter, columns};
use capture_frame::{Direction, Frame, Process, Thread};
use indexmap::IndexMap;
use listing_fields::{ListingError, Outcome, thread_of};
use std::alloc::Global;
use std::hash::Hash;
use std::io::Write;

/// A process of the capture, by its index: in the order of the first frames, from 0.
#[derive(Clone, Copy, PartialEq, Eq, Hash)]
pub(crate) struct Upid {
    pub index: u32,
}

/// A thread of the capture, by its index: in the order of the first frames, from 0.
#[derive(Clone, Copy)]
pub(crate) struct Utid {
    pub index: u32,
}

/// In a row a process has its number, which is 1 for the first.
impl From<Upid> for Column<'_> {
    ghost from_gives = { λ upid column. column ≡ Number (upid.index + 1) };

    fn from(upid: Upid) -> Self {
        Column::Number(u64::from(upid.index) + 1)
    }
}

/// In a row a thread has its number, which is 1 for the first.
impl From<Utid> for Column<'_> {
    ghost from_gives = { λ utid column. column ≡ Number (utid.index + 1) };

    fn from(utid: Utid) -> Self {
        Column::Number(u64::from(utid.index) + 1)
    }
}

/// A frame's process and its thread.
#[derive(Clone, Copy)]
pub(crate) struct Owner {
    pub upid: Upid,
    pub utid: Utid,
}

/// From which frame to which a process or a thread has frames.
#[derive(Clone, Copy)]
struct Span {
    upid: Upid,
    /// The sequence of its first frame.
    first: u64,
    /// The sequence of its last frame so far.
    last: u64,
    /// How many frames it has so far.
    frames: u64,
    /// The places of its last record, and of its last record in a write; kept of threads.
    record: Option<u64>,
    written: Option<u64>,
}

/// The processes and the threads so far, in the order of their first frames.
#[derive(Drop)]
pub(crate) struct Spans {
    processes: IndexMap<Process, Span>,
    threads: IndexMap<Thread, Span>,
}

impl Spans {
    pub(crate) fn new(alloc: Global) -> Spans {
        Spans {
            processes: IndexMap::new(alloc),
            threads: IndexMap::new(alloc),
        }
    }

    /// Counts a frame, and returns its process and its thread.
    pub(crate) fn add(&mut self, frame: Frame<'_>) -> Result<Owner, ListingError> {
        let process = frame.of_process();
        let upid = Upid {
            index: index_in(&mut self.processes, process, None, frame.sequence)?,
        };
        let thread = thread_of(frame);
        let utid = Utid {
            index: index_in(&mut self.threads, thread, Some(upid), frame.sequence)?,
        };
        Ok(Owner { upid, utid })
    }

    /// Takes the place of a record of a thread.
    pub(crate) fn add_record(&mut self, utid: Utid, direction: Direction, place: u64) -> Outcome {
        let Some(span) = self.threads.get_index_mut(utid.index as usize) else {
            return Err(ListingError::TooLarge);
        };
        span.record = Some(place);
        if direction == Direction::Write {
            span.written = Some(place);
        }
        Ok(())
    }

    /// The process of a thread.
    pub(crate) fn upid_of(&self, utid: Utid) -> Result<Upid, ListingError> {
        match self.threads.get_index(utid.index as usize) {
            Some((_, span)) => Ok(span.upid),
            None => Err(ListingError::TooLarge),
        }
    }

    /// How many processes there are.
    pub(crate) fn processes(&self) -> Result<u32, ListingError> {
        narrow(self.processes.len() as u64)
    }

    /// Writes the rows of the table process.
    pub(crate) fn write_processes<W: Write + Drop>(&self, rows: &mut RowWriter<W>) -> Outcome
        ensures { OnOk result (WritesRows rows.old rows.new
            (process_rows self.now.processes.entries)) }
    {
        for at in 0..self.processes.len() {
            let entry = entry_at(&self.processes, at)?;
            rows.push(&process_columns(entry))?;
        }
        Ok(())
    }

    /// Writes the rows of the table thread.
    pub(crate) fn write_threads<W: Write + Drop>(&self, rows: &mut RowWriter<W>) -> Outcome
        ensures { OnOk result (WritesRows rows.old rows.new
            (thread_rows self.now.threads.entries)) }
    {
        for at in 0..self.threads.len() {
            let entry = entry_at(&self.threads, at)?;
            rows.push(&thread_columns(at as u64 + 1, entry))?;
        }
        Ok(())
    }
}

/// The process or thread at this index, and its span.
fn entry_at<K: Eq + Hash + Copy>(
    spans: &IndexMap<K, Span>,
    at: usize,
) -> Result<(K, Span), ListingError>
    ensures { IfOk result (λ entry. slice_get spans.now.entries at ≡ Some entry) }
{
    match spans.get_index(at) {
        Some((key, span)) => Ok((*key, *span)),
        None => Err(ListingError::TooLarge),
    }
}

fn process_columns(entry: (Process, Span)) -> [Column<'static>; 6]
    ensures { result ≡ process_columns entry }
{
    let (process, span) = entry;
    columns! {
        upid: span.upid,
        device: process.device,
        process: process.number,
        first_seq: span.first,
        last_seq: span.last,
        frames: span.frames,
    }
}

fn thread_columns(utid: u64, entry: (Thread, Span)) -> [Column<'static>; 8]
    ensures { result ≡ thread_columns utid entry }
{
    let (thread, span) = entry;
    columns! {
        utid: utid,
        upid: span.upid,
        thread: thread.number,
        first_seq: span.first,
        last_seq: span.last,
        frames: span.frames,
        last_record: span.record,
        last_write: span.written,
    }
}

/// The number of the row at this index: 1 for the first.
pub(crate) fn number_at(index: usize) -> u64 {
    (index as u64).saturating_add(1)
}

/// Counts a frame of a process, or of a thread of the process `upid`, and returns its index.
fn index_in<K: Eq + Hash + Copy>(
    spans: &mut IndexMap<K, Span>,
    key: K,
    upid: Option<Upid>,
    sequence: u64,
) -> Result<u32, ListingError> {
    let at = match spans.get_index_of(&key) {
        Some(at) => at,
        None => spans.len(),
    };
    let index = narrow(at as u64)?;
    if let Some(span) = spans.get_index_mut(at) {
        span.last = sequence;
        span.frames = sum(span.frames, 1)?;
        return Ok(index);
    }
    let span = Span {
        upid: upid.unwrap_or(Upid { index }),
        first: sequence,
        last: sequence,
        frames: 1,
        record: None,
        written: None,
    };
    spans.insert(key, span)?;
    Ok(index)
}
