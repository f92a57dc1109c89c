//! All records of a capture as a stream of rows, in their order.

ghost use Rattle.std.specs.Prelude.{◌≡◌, ◌<◌, ◌≤◌, ◌-◌, ◌^◌, ◌∷◌, [], All, length, map, take, IfOk, OnOk};
ghost use Rattle.std.specs.List.{flat_map, sum_by};
ghost use Rattle.capture_frame.specs.Envelope.{placed_frame};
ghost use Rattle.record_view.specs.Records.{records_of};
ghost use Rattle.transaction_view.specs.Grammar.{IsGood};
ghost use Rattle.listing_fields.specs.Content.{record_of_item, records_left};
ghost use Rattle.listing_tables.specs.Stream.{AddsRecords, IsStream};
ghost use Rattle.listing_tables.specs.Walk.{counted_frames, record_begin, record_begins};

use crate::ending::frames_of;
use crate::last_row::{push_ending, status_of};
use crate::rows::RowWriter;
use crate::spans::Utid;
use crate::told::{Told, push_asked};
use capture_frame::{Frame, FrameSlice};
use listing_fields::{Content, Item, ListingError, Outcome};
use std::alloc::Global;
use std::io::Write;

/// Writes all records of the capture that has these parts, up to its first fault, as a stream of rows,
/// and returns the status in its last row, 0, or 2 if the capture is malformed, and the writer. With
/// `objects` the row of a record is followed by those of its objects.
pub fn list_rows<W: Write + Drop>(
    alloc: Global,
    parts: &[&[u8]],
    objects: bool,
    out: W,
) -> Result<(u8, W), ListingError>
    requires few { length parts.now < 2 ^ 32 }
    requires fits { sum_by length (map (λ part. part.now) parts.now) < 2 ^ 64 }
    ensures { IfOk result (λ done. IsStream (W.contents out) (W.contents done.1)
        (flat_map record_begins (counted_frames (map (λ part. part.now) parts.now))) done.0) }
{
    let mut rows = RowWriter::new(alloc, out);
    match list_capture(alloc, parts, objects, &mut rows) {
        Ok(status) => Ok((status, rows.finish()?)),
        Err(error) => {
            drop(rows);
            Err(error)
        }
    }
}

/// Writes the stream of a capture.
fn list_capture<W: Write + Drop>(
    alloc: Global,
    parts: &[&[u8]],
    objects: bool,
    rows: &mut RowWriter<W>,
) -> Result<u8, ListingError>
    requires few { length parts.now < 2 ^ 32 }
    requires fits { sum_by length (map (λ part. part.now) parts.now) < 2 ^ 64 }
    ensures { IfOk result (IsStream rows.old rows.new
        (flat_map record_begins (counted_frames (map (λ part. part.now) parts.now)))) }
{
    let (frames, ending) = frames_of(alloc, parts)?;
    let mut told = Told::new(alloc);
    let listed = list_frames(&frames.as_slice(), ending.count, objects, &mut told, rows);
    drop((frames, told));
    listed?;
    let status = status_of(ending, 0);
    push_ending(ending, status, rows)?;
    Ok(status)
}

/// Writes the records of the first `count` frames. The content of all but the last one is good.
fn list_frames<W: Write + Drop>(
    frames: &FrameSlice<'_, '_>,
    count: usize,
    objects: bool,
    told: &mut Told,
    rows: &mut RowWriter<W>,
) -> Outcome
    requires few { count ≤ length frames.now }
    requires good { All IsGood (take (count - 1) frames.now) }
    ensures { OnOk result (AddsRecords rows.old rows.new
        (flat_map record_begins (take count frames.now))) }
{
    for number in 0..count {
        let frame = frames.get(number);
        let content = if number < count - 1 {
            Content::of_good(frame)
        } else {
            Content::of(frame)
        };
        list_frame(frame, content, objects, told, rows)?;
    }
    Ok(())
}

/// Writes the records of a frame with this content.
pub(crate) fn list_frame<W: Write + Drop>(
    frame: Frame<'_>,
    content: Content<'_>,
    objects: bool,
    told: &mut Told,
    rows: &mut RowWriter<W>,
) -> Outcome
    requires { records_left content ≡ (records_of (placed_frame frame)).units }
    ensures { OnOk result (AddsRecords rows.old rows.new (record_begins (placed_frame frame.entry))) }
{
    let utid = told.thread(frame, rows)?;
    list_items(frame, utid, content, objects, told, rows)
}

fn list_items<W: Write + Drop>(
    frame: Frame<'_>,
    utid: Utid,
    content: Content<'_>,
    objects: bool,
    told: &mut Told,
    rows: &mut RowWriter<W>,
) -> Outcome
    requires { records_left content ≡ (records_of (placed_frame frame)).units }
    ensures { OnOk result (AddsRecords rows.old rows.new (record_begins (placed_frame frame.entry))) }
{
    for item in content {
        list_item(frame, utid, item, objects, told, rows)?;
    }
    Ok(())
}

/// Writes the row of a record, and those of its objects if they are asked for.
pub(crate) fn list_item<W: Write + Drop>(
    frame: Frame<'_>,
    utid: Utid,
    item: Item<'_>,
    objects: bool,
    told: &mut Told,
    rows: &mut RowWriter<W>,
) -> Outcome
    ensures { OnOk result (AddsRecords rows.old rows.new
        (record_begin (placed_frame frame.entry) (record_of_item item.entry) ∷ [])) }
{
    told.push_record(frame, utid, item, rows)?;
    push_asked(objects, item, rows)
}
