//! The reader of the attachment entries of a frame that was judged.

use crate::attachments::{ENTRY_HEADER, entry_fields};
use crate::entry::Entry;
use capture_frame::{Frame, u32_at};
use std::marker::Model;

/// Reads the attachment entries of a frame whose entries have no fault, in order. It looks at no
/// record, since the frame was judged before. A reader that has ended gives `None`.
#[derive(Drop)]
pub struct GoodEntries<'c> {
    frame: Frame<'c>,
    /// How many attachment bytes have been read.
    distance: usize,
    /// Where the record of the last entry begins in the command bytes.
    before: Option<u32>,
}

impl<'c> Model for GoodEntries<'c> {
    ghost use Rattle.std.specs.Prelude.{List};
    ghost use Rattle.capture_frame.specs.Units.{Placed};
    ghost use Rattle.transaction_view.specs.Attachments.{EntryText};
    ghost use Rattle.transaction_view.specs.State.{entries_ahead, AreGoodAhead};

    ghost Value = { List (Placed EntryText) };

    ghost view = { λ r. (entries_ahead r.frame r.distance r.before).units };

    ghost invariant = { λ r. AreGoodAhead r.frame r.distance r.before };
}

impl<'c> GoodEntries<'c> {
    ghost use Rattle.std.specs.Prelude.{◌≡◌, None};
    ghost use Rattle.capture_frame.specs.Envelope.{placed_frame};
    ghost use Rattle.transaction_view.specs.Attachments.{entries_of};
    ghost use Rattle.transaction_view.specs.State.{StepsGood};

    /// A reader before the first entry of a frame whose entries have no fault.
    pub fn of(frame: Frame<'c>) -> GoodEntries<'c>
        requires { (entries_of (placed_frame frame)).fault ≡ None }
        ensures { result ≡ (entries_of (placed_frame frame.entry)).units }
    {
        GoodEntries {
            frame,
            distance: 0,
            before: None,
        }
    }

    /// The next entry, or `None` at the end.
    pub fn next_entry(&mut self) -> Option<Entry<'c>>
        ensures { StepsGood self.old result self.new }
    {
        let rest = &self.frame.attachments[self.distance..];
        let Some((body, offsets)) = entry_fields(rest) else {
            return None;
        };
        let place = self.frame.attachments_place() + self.distance as u64;
        let offset = u32_at(rest, 0);
        let owner = self.frame.commands_place() + u64::from(offset);
        self.distance += ENTRY_HEADER + body.len() + offsets.len();
        self.before = Some(offset);
        Some(Entry {
            place,
            owner,
            body,
            offsets,
        })
    }
}
