//! What is looked for by its place, as a stream of rows.

ghost use Rattle.std.specs.Prelude.{◌<◌, ◌≤◌, ◌-◌, ◌^◌, All, length, map, take};
ghost use Rattle.std.specs.List.{sum_by};
ghost use Rattle.transaction_view.specs.Grammar.{IsGood};

use crate::ending::frames_of;
use crate::last_row::{push_ending, status_of};
use crate::rows::{Column, RowWriter, Sort, columns};
use crate::sought::{Seeker, Sought};
use crate::told::{Told, push_asked};
use crate::whole::push_whole;
use capture_frame::{Frame, FrameSlice};
use listing_fields::{Content, Item, ListingError, Outcome};
use std::alloc::Global;
use std::io::Write;

/// Writes what is looked for at these places of the capture that has these parts, up to its first
/// fault, as a stream of rows, and returns the status in its last row: 0, 1 if at a place is nothing,
/// or 2 if the capture is malformed. Each place at which nothing is has a row, if the capture is good.
/// The row of a record is followed by those of its objects, if `objects` are asked for or records are
/// shown whole.
pub fn seek_rows<W: Write>(
    alloc: Global,
    parts: &[&[u8]],
    sought: Sought,
    places: Vec<u64>,
    objects: bool,
    out: &mut W,
) -> Result<u8, ListingError>
    requires few { length parts.now < 2 ^ 32 }
    requires fits { sum_by length (map (λ part. part.now) parts.now) < 2 ^ 64 }
{
    let mut seeker = Seeker::new(alloc, sought, places);
    let mut rows = RowWriter::new(alloc, out);
    let sought = seek_capture(alloc, parts, &mut seeker, objects, &mut rows);
    drop(seeker);
    match sought {
        Ok(status) => {
            rows.finish()?;
            Ok(status)
        }
        Err(error) => {
            drop(rows);
            Err(error)
        }
    }
}

/// Writes the stream of what is looked for.
fn seek_capture<W: Write + Drop>(
    alloc: Global,
    parts: &[&[u8]],
    seeker: &mut Seeker,
    objects: bool,
    rows: &mut RowWriter<W>,
) -> Result<u8, ListingError>
    requires few { length parts.now < 2 ^ 32 }
    requires fits { sum_by length (map (λ part. part.now) parts.now) < 2 ^ 64 }
{
    let (frames, ending) = frames_of(alloc, parts)?;
    let mut told = Told::new(alloc);
    let done = seek_frames(
        &frames.as_slice(),
        ending.count,
        seeker,
        objects,
        &mut told,
        rows,
    );
    drop((frames, told));
    done?;
    let missing = seeker.open();
    if ending.fault.is_none() {
        push_missing(missing, rows)?;
    }
    let status = status_of(ending, missing.len());
    push_ending(ending, status, rows)?;
    Ok(status)
}

/// Writes a row for each place at which nothing is.
fn push_missing<W: Write + Drop>(places: &[u64], rows: &mut RowWriter<W>) -> Outcome {
    for place in places {
        rows.push_sorted(Sort::Missing, &columns! { place: *place })?;
    }
    Ok(())
}

/// Writes what is looked for of the first `count` frames. The content of all but the last one is good.
fn seek_frames<W: Write + Drop>(
    frames: &FrameSlice<'_, '_>,
    count: usize,
    seeker: &mut Seeker,
    objects: bool,
    told: &mut Told,
    rows: &mut RowWriter<W>,
) -> Outcome
    requires few { count ≤ length frames.now }
    requires good { All IsGood (take (count - 1) frames.now) }
{
    for number in 0..count {
        if seeker.is_complete() {
            break;
        }
        let frame = frames.get(number);
        if !seeker.has_frame(frame) {
            continue;
        }
        let content = if number < count - 1 {
            Content::of_good(frame)
        } else {
            Content::of(frame)
        };
        seek_in(frame, content, seeker, objects, told, rows)?;
    }
    Ok(())
}

/// Writes what is looked for of a frame with this content.
fn seek_in<W: Write + Drop>(
    frame: Frame<'_>,
    content: Content<'_>,
    seeker: &mut Seeker,
    objects: bool,
    told: &mut Told,
    rows: &mut RowWriter<W>,
) -> Outcome {
    for item in content {
        if seeker.has_item(frame, item)? {
            push_found(frame, item, seeker.shows_whole(), objects, told, rows)?;
        }
    }
    Ok(())
}

/// Writes the rows of a record that is found.
fn push_found<W: Write + Drop>(
    frame: Frame<'_>,
    item: Item<'_>,
    whole: bool,
    objects: bool,
    told: &mut Told,
    rows: &mut RowWriter<W>,
) -> Outcome {
    let utid = told.thread(frame, rows)?;
    told.push_record(frame, utid, item, rows)?;
    if whole {
        push_whole(frame, item, rows)?;
    }
    push_asked(objects || whole, item, rows)
}
