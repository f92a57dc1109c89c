//! The one walk through a capture that feeds all tables.

ghost use Rattle.std.specs.Prelude.{◌≡◌, ◌<◌, ◌≤◌, ◌-◌, ◌^◌, ◌∷◌, [], All, length, map, take, IfOk, OnOk};
ghost use Rattle.std.specs.Io.KnownBytes.{Keeps};
ghost use Rattle.std.specs.List.{flat_map, sum_by};
ghost use Rattle.capture_frame.specs.Envelope.{placed_frame};
ghost use Rattle.record_view.specs.Records.{records_of};
ghost use Rattle.transaction_view.specs.Grammar.{IsGood};
ghost use Rattle.listing_fields.specs.Content.{record_of_item, records_left};
ghost use Rattle.listing_tables.specs.Columns.{AddsRows};
ghost use Rattle.listing_tables.specs.Tables.{AreTablesOf};
ghost use Rattle.listing_tables.specs.Walk.{BeginsWith, HasNoSteps, IsFrameRow, counted_frames, record_begin, record_begins};
ghost use Rattle.listing_tables.specs.Steps.{AddsMarked, IsKept, WritesCalls, marked_in, marked_of};

use crate::ending::{Ending, frames_of};
use crate::numbered::sum;
use crate::records::{frame_columns, write_objects, write_record};
use crate::rows::RowWriter;
use crate::spans::Owner;
use crate::tables::Tables;
use capture_frame::{Frame, FrameSlice};
use listing_fields::{Content, Item, ListingError, Outcome, named_of};
use std::alloc::Global;
use std::io::Write;

/// The writers of the tables that are written while the walk goes on.
#[derive(Drop)]
pub(crate) struct Writers<W: Write + Drop> {
    pub(crate) frames: W,
    pub(crate) records: W,
    pub(crate) objects: W,
    pub(crate) calls: W,
}

/// The rows that are written to these writers.
#[derive(Drop)]
pub(crate) struct Streams<W: Write + Drop> {
    pub(crate) frames: RowWriter<W>,
    pub(crate) records: RowWriter<W>,
    objects: RowWriter<W>,
    calls: RowWriter<W>,
}

impl<W: Write + Drop> Streams<W> {
    pub(crate) fn new(alloc: Global, writers: Writers<W>) -> Streams<W>
        ensures frames { Keeps (W.contents writers.frames) result.frames }
        ensures records { Keeps (W.contents writers.records) result.records }
        ensures objects { Keeps (W.contents writers.objects) result.objects }
        ensures calls { Keeps (W.contents writers.calls) result.calls }
    {
        let Writers {
            frames,
            records,
            objects,
            calls,
        } = writers;
        Streams {
            frames: RowWriter::new(alloc, frames),
            records: RowWriter::new(alloc, records),
            objects: RowWriter::new(alloc, objects),
            calls: RowWriter::new(alloc, calls),
        }
    }

    /// Writes what is not written yet, and gives the writers back.
    pub(crate) fn finish(self) -> Result<Writers<W>, ListingError>
        ensures frames { IfOk result (λ writers. Keeps self.frames (W.contents writers.frames)) }
        ensures records { IfOk result (λ writers. Keeps self.records (W.contents writers.records)) }
        ensures objects { IfOk result (λ writers. Keeps self.objects (W.contents writers.objects)) }
        ensures calls { IfOk result (λ writers. Keeps self.calls (W.contents writers.calls)) }
    {
        let Streams {
            frames,
            records,
            objects,
            calls,
        } = self;
        match finish_both(frames, records) {
            Ok((frames, records)) => match finish_both(objects, calls) {
                Ok((objects, calls)) => Ok(Writers {
                    frames,
                    records,
                    objects,
                    calls,
                }),
                Err(error) => {
                    drop((frames, records));
                    Err(error)
                }
            },
            Err(error) => {
                drop((objects, calls));
                Err(error)
            }
        }
    }
}

/// Finishes two writers of rows, in this order.
fn finish_both<W: Write + Drop>(
    first: RowWriter<W>,
    second: RowWriter<W>,
) -> Result<(W, W), ListingError>
    ensures first { IfOk result (λ both. Keeps first (W.contents both.0)) }
    ensures second { IfOk result (λ both. Keeps second (W.contents both.1)) }
{
    match first.finish() {
        Ok(first) => match second.finish() {
            Ok(second) => Ok((first, second)),
            Err(error) => {
                drop(first);
                Err(error)
            }
        },
        Err(error) => {
            drop(second);
            Err(error)
        }
    }
}

/// Walks through the capture that has these parts, up to its first fault. The rows of frames,
/// records, objects and calls are written; of the other tables everything is kept. Gives the writers
/// back.
pub(crate) fn walk_to<W: Write + Drop>(
    alloc: Global,
    parts: &[&[u8]],
    tables: &mut Tables,
    writers: Writers<W>,
) -> Result<(Ending, Writers<W>), ListingError>
    requires few { length parts.now < 2 ^ 32 }
    requires fits { sum_by length (map (λ part. part.now) parts.now) < 2 ^ 64 }
    requires nothing { HasNoSteps tables.old }
    ensures frames { IfOk result (λ done. AddsRows IsFrameRow
        (W.contents writers.frames) (W.contents done.1.frames)
        (counted_frames (map (λ part. part.now) parts.now))) }
    ensures records { IfOk result (λ done. AddsRows BeginsWith
        (W.contents writers.records) (W.contents done.1.records)
        (flat_map record_begins (counted_frames (map (λ part. part.now) parts.now)))) }
    ensures calls { IfOk result (λ done. WritesCalls (W.contents writers.calls)
        (W.contents done.1.calls) tables.new.calls.all.items) }
    ensures tables { OnOk result (AreTablesOf (map (λ part. part.now) parts.now) tables.new) }
{
    let mut streams = Streams::new(alloc, writers);
    match walk_capture(alloc, parts, tables, &mut streams) {
        Ok(ending) => Ok((ending, streams.finish()?)),
        Err(error) => {
            drop(streams);
            Err(error)
        }
    }
}

/// Walks through the capture. The rows of frames, records and objects are written as they come, and
/// those of calls at the end.
fn walk_capture<W: Write + Drop>(
    alloc: Global,
    parts: &[&[u8]],
    tables: &mut Tables,
    streams: &mut Streams<W>,
) -> Result<Ending, ListingError>
    requires few { length parts.now < 2 ^ 32 }
    requires fits { sum_by length (map (λ part. part.now) parts.now) < 2 ^ 64 }
    requires nothing { HasNoSteps tables.old }
    ensures frames { OnOk result (AddsRows IsFrameRow streams.old.frames streams.new.frames
        (counted_frames (map (λ part. part.now) parts.now))) }
    ensures records { OnOk result (AddsRows BeginsWith streams.old.records streams.new.records
        (flat_map record_begins (counted_frames (map (λ part. part.now) parts.now)))) }
    ensures calls { OnOk result (WritesCalls streams.old.calls streams.new.calls
        tables.new.calls.all.items) }
    ensures tables { OnOk result (AreTablesOf (map (λ part. part.now) parts.now) tables.new) }
{
    let (frames, ending) = frames_of(alloc, parts)?;
    tables.begin(ending);
    let walked = walk_frames(&frames.as_slice(), ending.count, tables, streams);
    // What the tables take at the end is the most.
    drop(frames);
    walked?;
    tables.finish(alloc, &mut streams.calls)?;
    Ok(ending)
}

/// Walks through the first `count` frames. The content of all but the last one is good.
fn walk_frames<W: Write + Drop>(
    frames: &FrameSlice<'_, '_>,
    count: usize,
    tables: &mut Tables,
    streams: &mut Streams<W>,
) -> Outcome
    requires kept { IsKept tables.old.steps.entries.entries }
    requires few { count ≤ length frames.now }
    requires good { All IsGood (take (count - 1) frames.now) }
    ensures frames { OnOk result (AddsRows IsFrameRow streams.old.frames streams.new.frames
        (take count frames.now)) }
    ensures records { OnOk result (AddsRows BeginsWith streams.old.records streams.new.records
        (flat_map record_begins (take count frames.now))) }
    ensures calls { streams.new.calls ≡ streams.old.calls }
    ensures marked { OnOk result (AddsMarked tables.old.steps.entries.entries
        tables.new.steps.entries.entries (flat_map marked_in (take count frames.now))) }
{
    for number in 0..count {
        let frame = frames.get(number);
        let content = if number < count - 1 {
            Content::of_good(frame)
        } else {
            Content::of(frame)
        };
        walk_frame(frame, content, tables, streams)?;
    }
    Ok(())
}

/// Walks through a frame with this content.
fn walk_frame<W: Write + Drop>(
    frame: Frame<'_>,
    content: Content<'_>,
    tables: &mut Tables,
    streams: &mut Streams<W>,
) -> Outcome
    requires kept { IsKept tables.old.steps.entries.entries }
    requires content { records_left content ≡ (records_of (placed_frame frame)).units }
    ensures frames { OnOk result (AddsRows IsFrameRow streams.old.frames streams.new.frames
        (placed_frame frame.entry ∷ [])) }
    ensures records { OnOk result (AddsRows BeginsWith streams.old.records streams.new.records
        (record_begins (placed_frame frame.entry))) }
    ensures calls { streams.new.calls ≡ streams.old.calls }
    ensures marked { OnOk result (AddsMarked tables.old.steps.entries.entries
        tables.new.steps.entries.entries (marked_in (placed_frame frame.entry))) }
{
    let owner = tables.add_frame(frame)?;
    let count = walk_items(frame, owner, content, tables, streams)?;
    streams
        .frames
        .push(&frame_columns(frame, owner.utid, count))
}

/// Walks through the records of a frame with this content, and returns how many there are.
fn walk_items<W: Write + Drop>(
    frame: Frame<'_>,
    owner: Owner,
    content: Content<'_>,
    tables: &mut Tables,
    streams: &mut Streams<W>,
) -> Result<u64, ListingError>
    requires kept { IsKept tables.old.steps.entries.entries }
    requires content { records_left content ≡ (records_of (placed_frame frame)).units }
    ensures count { IfOk result (λ count.
        count ≡ length (records_of (placed_frame frame.entry)).units) }
    ensures frames { streams.new.frames ≡ streams.old.frames }
    ensures records { OnOk result (AddsRows BeginsWith streams.old.records streams.new.records
        (record_begins (placed_frame frame.entry))) }
    ensures calls { streams.new.calls ≡ streams.old.calls }
    ensures marked { OnOk result (AddsMarked tables.old.steps.entries.entries
        tables.new.steps.entries.entries (marked_in (placed_frame frame.entry))) }
{
    let mut count = 0u64;
    for item in content {
        walk_item(frame, owner, item, tables, streams)?;
        count = sum(count, 1)?;
    }
    Ok(count)
}

fn walk_item<W: Write + Drop>(
    frame: Frame<'_>,
    owner: Owner,
    item: Item<'_>,
    tables: &mut Tables,
    streams: &mut Streams<W>,
) -> Outcome
    requires { IsKept tables.old.steps.entries.entries }
    ensures frames { streams.new.frames ≡ streams.old.frames }
    ensures records { OnOk result (AddsRows BeginsWith streams.old.records streams.new.records
        (record_begin (placed_frame frame.entry) (record_of_item item.entry) ∷ [])) }
    ensures calls { streams.new.calls ≡ streams.old.calls }
    ensures marked { OnOk result (AddsMarked tables.old.steps.entries.entries
        tables.new.steps.entries.entries
        (marked_of (placed_frame frame.entry) (record_of_item item.entry))) }
{
    let named = named_of(item.record);
    write_record(
        &mut streams.records,
        &mut tables.names,
        frame,
        owner.utid,
        item,
        named,
    )?;
    write_objects(&mut streams.objects, item)?;
    tables.add_item(frame, owner, item, named)
}
