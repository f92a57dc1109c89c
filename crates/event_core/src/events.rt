//! The reader of a frame's events.

use crate::event::Event;
use crate::record_event::event_of;
use crate::records_and_entries::RecordsAndEntries;
use capture_frame::Frame;
use std::marker::Model;

/// Reads the events of a frame in order: its records, each with its attachment. A reader that has
/// ended gives `None`.
#[derive(Drop)]
pub struct Events<'c> {
    frame: Frame<'c>,
    content: RecordsAndEntries<'c>,
}

impl<'c> Model for Events<'c> {
    ghost use Rattle.std.specs.Prelude.{List};
    ghost use Rattle.event_core.specs.Events.{EventRead};

    ghost Value = { List EventRead };

    ghost use Rattle.capture_frame.specs.Envelope.{frame_text};
    ghost use Rattle.event_core.specs.State.{events_beside};

    ghost view = { λ r. events_beside (frame_text r.frame) r.content.records r.content.entries };
}

impl<'c> Events<'c> {
    ghost use Rattle.std.specs.Prelude.{◌≡◌};
    ghost use Rattle.capture_frame.specs.Envelope.{placed_frame};
    ghost use Rattle.event_core.specs.Events.{events_of};
    ghost use Rattle.event_core.specs.Reading.{Steps};
    ghost use Rattle.transaction_view.specs.Grammar.{IsGood};

    /// A reader before the first event of a frame whose records and entries have no fault, which
    /// `check_frame` says.
    pub fn of(frame: Frame<'c>) -> Events<'c>
        requires { IsGood (placed_frame frame) }
        ensures { result ≡ events_of (placed_frame frame.entry) }
    {
        Events {
            frame,
            content: RecordsAndEntries::of(frame),
        }
    }

    /// The next event, with its attachment, or `None` at the end.
    // Inlined, since an event is large and would be copied once more.
    #[inline(always)]
    pub fn next_event(&mut self) -> Option<Event<'c>>
        ensures { Steps self.old result self.new }
    {
        let Some((record, entry)) = self.content.next_record() else {
            return None;
        };
        Some(event_of(self.frame, record, entry))
    }
}
