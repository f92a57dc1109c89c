//! The reader of a frame's records and entries.

ghost use Rattle.std.specs.Prelude.{◌≡◌};
ghost use Rattle.std.specs.Option.{ForSome, option_map};
ghost use Rattle.transaction_view.specs.State.{placed_entry};
ghost use Rattle.event_core.specs.State.{entries_left, entry_taken, entries_after};

use capture_frame::Frame;
use record_view::{Record, Records};
use std::marker::Model;
use transaction_view::{Entry, GoodEntries};

/// Reads the records of a frame in order, up to the first malformed one, each with its attachment.
/// Records and entries are each passed once, side by side; the next entry belongs to the record at
/// its `owner`. A reader that has ended gives `None`.
#[derive(Drop)]
pub struct RecordsAndEntries<'c> {
    records: Records<'c>,
    entries: GoodEntries<'c>,
    /// The first entry whose record is still ahead.
    ahead: Option<Entry<'c>>,
}

impl<'c> Model for RecordsAndEntries<'c> {
    ghost use Rattle.event_core.specs.State.{Beside, entries_left};

    ghost Value = { Beside };

    ghost view = { λ r. record {
      records = r.records.units;
      entries = entries_left r.ahead r.entries;
    } };
}

impl<'c> RecordsAndEntries<'c> {
    ghost use Rattle.std.specs.Prelude.{None, IfSome};
    ghost use Rattle.capture_frame.specs.Envelope.{placed_frame};
    ghost use Rattle.record_view.specs.Records.{records_of};
    ghost use Rattle.transaction_view.specs.Attachments.{entries_of};
    ghost use Rattle.event_core.specs.State.{StepsBeside};

    /// A reader before the first record of a frame whose entries have no fault.
    pub fn of(frame: Frame<'c>) -> RecordsAndEntries<'c>
        requires { (entries_of (placed_frame frame)).fault ≡ None }
        ensures records { result.records ≡ (records_of (placed_frame frame.entry)).units }
        ensures entries { result.entries ≡ (entries_of (placed_frame frame.entry)).units }
    {
        let mut entries = GoodEntries::of(frame);
        let ahead = entries.next_entry();
        RecordsAndEntries {
            records: Records::of(frame),
            entries,
            ahead,
        }
    }

    /// The next record, with its attachment, or `None` at the end.
    #[inline(always)]
    pub fn next_record(&mut self) -> Option<(Record<'c>, Option<Entry<'c>>)>
        ensures step { StepsBeside self.old result self.new }
        ensures owned { IfSome result (λ found.
            ForSome found.1 (λ entry. entry.owner ≡ found.0.place)) }
    {
        // A fault of a record is the end.
        let Some(record) = self.records.next_record().unwrap_or(None) else {
            return None;
        };
        let entry = take_at(&mut self.ahead, &mut self.entries, record.place);
        Some((record, entry))
    }
}

/// The entry ahead, if it is that of the record at this place; then the next one is ahead.
#[inline(always)]
fn take_at<'c>(
    ahead: &mut Option<Entry<'c>>,
    entries: &mut GoodEntries<'c>,
    place: u64,
) -> Option<Entry<'c>>
    ensures gives { option_map placed_entry result
        ≡ entry_taken place (entries_left ahead.old entries.old) }
    ensures leaves { entries_left ahead.new entries.new
        ≡ entries_after place (entries_left ahead.old entries.old) }
    ensures owned { ForSome result (λ found. found.owner ≡ place) }
{
    let Some(entry) = *ahead else {
        return None;
    };
    if entry.owner != place {
        return None;
    }
    *ahead = entries.next_entry();
    Some(entry)
}
