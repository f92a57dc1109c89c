//! The records of a frame, each with its attachment.

ghost use Rattle.std.specs.Prelude.{◌≡◌, ◌≤◌, None, length};
ghost use Rattle.capture_frame.specs.Envelope.{placed_frame};
ghost use Rattle.record_view.specs.Records.{records_of};
ghost use Rattle.transaction_view.specs.Attachments.{entries_of};
ghost use Rattle.transaction_view.specs.Grammar.{IsGood};
ghost use Rattle.listing_fields.specs.Content.{records_left};

use capture_frame::Frame;
use event_core::RecordsAndEntries;
use record_view::Record;
use transaction_view::{Entry, check_frame};

/// A record, and its attachment if it has one.
#[derive(Clone, Copy)]
pub struct Item<'c> {
    pub record: Record<'c>,
    pub entry: Option<Entry<'c>>,
}

/// Reads the records of a frame in order, each with its attachment, up to the first malformed
/// record. If a record of the frame is malformed, no record has an attachment. If an attachment is
/// malformed, neither its record nor any later one has an attachment.
#[derive(Drop)]
pub struct Content<'c> {
    read: RecordsAndEntries<'c>,
}

impl<'c> Content<'c> {
    /// A reader of what the frame holds.
    pub fn of(frame: Frame<'c>) -> Content<'c>
        ensures { records_left result ≡ (records_of (placed_frame frame.entry)).units }
    {
        Content {
            read: RecordsAndEntries::of(with_good_entries(frame)),
        }
    }

    /// A reader of what the frame holds, whose records and entries have no fault.
    pub fn of_good(frame: Frame<'c>) -> Content<'c>
        requires { IsGood (placed_frame frame) }
        ensures { records_left result ≡ (records_of (placed_frame frame.entry)).units }
    {
        Content {
            read: RecordsAndEntries::of(frame),
        }
    }
}

impl<'c> Iterator for Content<'c> {
    ghost use Rattle.std.specs.Iterator.{YieldsFirstBy, item_count};
    ghost use Rattle.listing_fields.specs.Content.{record_of_item};

    type Item = Item<'c>;

    ghost next_gives = { YieldsFirstBy record_of_item records_left };

    ghost remaining = { item_count records_left };

    fn next(&mut self) -> Option<Item<'c>> {
        let Some((record, entry)) = self.read.next_record() else {
            return None;
        };
        Some(Item { record, entry })
    }
}

/// The frame without its first malformed entry and what follows that; without any entry if one of
/// its records is malformed.
fn with_good_entries(frame: Frame<'_>) -> Frame<'_>
    ensures good { (entries_of (placed_frame result)).fault ≡ None }
    ensures same { records_of (placed_frame result) ≡ records_of (placed_frame frame.entry) }
{
    if frame.attachments.is_empty() {
        return frame;
    }
    let Some(fault) = check_frame(frame) else {
        return frame;
    };
    let length = fault.place.saturating_sub(frame.attachments_place()) as usize;
    let front = with_entries(frame, frame.attachments.get(..length).unwrap_or(&[]));
    match check_frame(front) {
        None => front,
        Some(_) => with_entries(frame, &[]),
    }
}

/// The frame with these entries in place of its own.
fn with_entries<'c>(frame: Frame<'c>, entries: &'c [u8]) -> Frame<'c>
    requires { length entries.now ≤ length frame.attachments.now }
    ensures entries { result.attachments.now ≡ entries.now }
    ensures records { records_of (placed_frame result) ≡ records_of (placed_frame frame.entry) }
{
    Frame {
        place: frame.place,
        sequence: frame.sequence,
        device: frame.device,
        process: frame.process,
        thread: frame.thread,
        direction: frame.direction,
        commands: frame.commands,
        attachments: entries,
    }
}
