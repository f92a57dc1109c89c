//! The row of a record with its bytes and those of its attachment.

use crate::rows::{Column, RowWriter, Sort, columns};
use capture_frame::Frame;
use listing_fields::{Item, Outcome, direction_number};
use record_view::Record;
use std::io::Write;
use transaction_view::Entry;

/// The length of a code word, in bytes.
const CODE: usize = 4;

/// The length of the three numbers before an entry's bytes.
const ENTRY_HEADER: usize = 12;

/// Writes the row of a record with its bytes: those of its attachment's entry are NULL if it has none.
pub(crate) fn push_whole<W: Write + Drop>(
    frame: Frame<'_>,
    item: Item<'_>,
    rows: &mut RowWriter<W>,
) -> Outcome {
    let entry = item.entry;
    let columns = columns! {
        frame_place: frame.place,
        direction: u64::from(direction_number(frame.direction)),
        command_length: frame.commands.len() as u64,
        attachment_length: frame.attachments.len() as u64,
        bytes: record_bytes(frame, item.record),
        entry_place: entry.map(|it| it.place),
        body_length: entry.map(|it| it.body.len() as u64),
        offsets_length: entry.map(|it| it.offsets.len() as u64),
        entry_bytes: entry_column(frame, entry),
    };
    rows.push_sorted(Sort::Whole, &columns)
}

/// The bytes of a record: its code word and its payload.
fn record_bytes<'c>(frame: Frame<'c>, record: Record<'_>) -> Column<'c> {
    let length = CODE + record.payload.len();
    let first = frame.commands_place();
    Column::Text(bytes_at(frame.commands, first, record.place, length))
}

/// The bytes of an entry: its three numbers, the data, and the offsets.
fn entry_column<'c>(frame: Frame<'c>, entry: Option<Entry<'_>>) -> Column<'c> {
    let Some(entry) = entry else {
        return Column::Null;
    };
    let length = ENTRY_HEADER + entry.body.len() + entry.offsets.len();
    let first = frame.attachments_place();
    Column::Text(bytes_at(frame.attachments, first, entry.place, length))
}

/// The `length` bytes at `place`, or as many as there are. `first` is the place of the first byte.
fn bytes_at(bytes: &[u8], first: u64, place: u64, length: usize) -> &[u8] {
    let start = place.saturating_sub(first) as usize;
    match bytes.get(start..) {
        Some(rest) => &rest[..length.min(rest.len())],
        None => &[],
    }
}
