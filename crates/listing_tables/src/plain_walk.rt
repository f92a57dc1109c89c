//! The walk for the rows of frames and records alone. It keeps what these rows have by its number, and
//! pairs nothing.

ghost use Rattle.std.specs.Prelude.{◌≡◌, ◌<◌, ◌≤◌, ◌-◌, ◌^◌, ◌∷◌, [], All, length, map, take, IfOk, OnOk};
ghost use Rattle.std.specs.List.{flat_map, sum_by};
ghost use Rattle.capture_frame.specs.Envelope.{placed_frame};
ghost use Rattle.record_view.specs.Records.{records_of};
ghost use Rattle.transaction_view.specs.Grammar.{IsGood};
ghost use Rattle.listing_fields.specs.Content.{records_left};
ghost use Rattle.listing_tables.specs.Columns.{AddsRows};
ghost use Rattle.listing_tables.specs.Walk.{BeginsWith, IsFrameRow, counted_frames, record_begins};

use crate::ending::{Ending, frames_of};
use crate::names::Names;
use crate::numbered::sum;
use crate::records::{frame_columns, write_record};
use crate::spans::{Spans, Utid};
use crate::walk::{Streams, Writers};
use capture_frame::{Frame, FrameSlice};
use listing_fields::{Content, ListingError, Outcome, named_of};
use std::alloc::Global;
use std::io::Write;

/// What the walk keeps: what rows of frames and records have by its number.
#[derive(Drop)]
struct Kept {
    spans: Spans,
    names: Names,
}

/// Walks through the capture that has these parts, up to its first fault. The rows of frames and
/// records are written, and nothing of other tables. Gives the writers back.
pub(crate) fn walk_plainly<W: Write + Drop>(
    alloc: Global,
    parts: &[&[u8]],
    writers: Writers<W>,
) -> Result<(Ending, Writers<W>), ListingError>
    requires few { length parts.now < 2 ^ 32 }
    requires fits { sum_by length (map (λ part. part.now) parts.now) < 2 ^ 64 }
    ensures frames { IfOk result (λ done. AddsRows IsFrameRow
        (W.contents writers.frames) (W.contents done.1.frames)
        (counted_frames (map (λ part. part.now) parts.now))) }
    ensures records { IfOk result (λ done. AddsRows BeginsWith
        (W.contents writers.records) (W.contents done.1.records)
        (flat_map record_begins (counted_frames (map (λ part. part.now) parts.now)))) }
{
    let mut streams = Streams::new(alloc, writers);
    match walk_capture(alloc, parts, &mut streams) {
        Ok(ending) => Ok((ending, streams.finish()?)),
        Err(error) => {
            drop(streams);
            Err(error)
        }
    }
}

/// Walks through the capture, and writes the rows as they come.
fn walk_capture<W: Write + Drop>(
    alloc: Global,
    parts: &[&[u8]],
    streams: &mut Streams<W>,
) -> Result<Ending, ListingError>
    requires few { length parts.now < 2 ^ 32 }
    requires fits { sum_by length (map (λ part. part.now) parts.now) < 2 ^ 64 }
    ensures frames { OnOk result (AddsRows IsFrameRow streams.old.frames streams.new.frames
        (counted_frames (map (λ part. part.now) parts.now))) }
    ensures records { OnOk result (AddsRows BeginsWith streams.old.records streams.new.records
        (flat_map record_begins (counted_frames (map (λ part. part.now) parts.now)))) }
{
    let (frames, ending) = frames_of(alloc, parts)?;
    let mut kept = Kept {
        spans: Spans::new(alloc),
        names: Names::new(alloc),
    };
    let walked = walk_frames(&frames.as_slice(), ending.count, &mut kept, streams);
    drop((frames, kept));
    walked?;
    Ok(ending)
}

/// Walks through the first `count` frames. The content of all but the last one is good.
fn walk_frames<W: Write + Drop>(
    frames: &FrameSlice<'_, '_>,
    count: usize,
    kept: &mut Kept,
    streams: &mut Streams<W>,
) -> Outcome
    requires few { count ≤ length frames.now }
    requires good { All IsGood (take (count - 1) frames.now) }
    ensures frames { OnOk result (AddsRows IsFrameRow streams.old.frames streams.new.frames
        (take count frames.now)) }
    ensures records { OnOk result (AddsRows BeginsWith streams.old.records streams.new.records
        (flat_map record_begins (take count frames.now))) }
{
    for number in 0..count {
        let frame = frames.get(number);
        let content = if number < count - 1 {
            Content::of_good(frame)
        } else {
            Content::of(frame)
        };
        walk_frame(frame, content, kept, streams)?;
    }
    Ok(())
}

/// Walks through a frame with this content.
fn walk_frame<W: Write + Drop>(
    frame: Frame<'_>,
    content: Content<'_>,
    kept: &mut Kept,
    streams: &mut Streams<W>,
) -> Outcome
    requires { records_left content ≡ (records_of (placed_frame frame)).units }
    ensures frames { OnOk result (AddsRows IsFrameRow streams.old.frames streams.new.frames
        (placed_frame frame.entry ∷ [])) }
    ensures records { OnOk result (AddsRows BeginsWith streams.old.records streams.new.records
        (record_begins (placed_frame frame.entry))) }
{
    let utid = kept.spans.add(frame)?.utid;
    let count = walk_items(frame, utid, content, &mut kept.names, streams)?;
    streams.frames.push(&frame_columns(frame, utid, count))
}

/// Walks through the records of a frame with this content, and returns how many there are.
fn walk_items<W: Write + Drop>(
    frame: Frame<'_>,
    utid: Utid,
    content: Content<'_>,
    names: &mut Names,
    streams: &mut Streams<W>,
) -> Result<u64, ListingError>
    requires { records_left content ≡ (records_of (placed_frame frame)).units }
    ensures count { IfOk result (λ count.
        count ≡ length (records_of (placed_frame frame.entry)).units) }
    ensures frames { streams.new.frames ≡ streams.old.frames }
    ensures records { OnOk result (AddsRows BeginsWith streams.old.records streams.new.records
        (record_begins (placed_frame frame.entry))) }
{
    let mut count = 0u64;
    for item in content {
        write_record(
            &mut streams.records,
            names,
            frame,
            utid,
            item,
            named_of(item.record),
        )?;
        count = sum(count, 1)?;
    }
    Ok(count)
}
