//! The event at a place of the capture.

ghost use Rattle.std.specs.Prelude.{◌≡◌, ◌↔◌, IsSome};
ghost use Rattle.capture_frame.specs.Units.{placed_at};
ghost use Rattle.capture_frame.specs.Envelope.{frame_text, placed_frame};
ghost use Rattle.record_view.specs.Records.{RecordText};
ghost use Rattle.transaction_view.specs.Grammar.{IsGood};
ghost use Rattle.event_core.specs.Events.{bare_event, RecordIsAtPlace, HasRecordAt};
ghost use Rattle.event_core.specs.Reading.{event_text, IsEventAt};

use crate::event::Event;
use crate::events::Events;
use crate::record_event::event_of;
use capture_frame::Frame;
use record_view::Records;

/// The event of a frame at a place of the capture; None if no record of the frame begins there. The
/// frame's records and entries must have no fault. The program does not use this call.
pub fn event_at<'c>(frame: Frame<'c>, place: u64) -> Option<Event<'c>>
    requires { IsGood (placed_frame frame) }
    ensures exact { IsEventAt (placed_frame frame.entry) place result }
    ensures there { IsSome result ↔ HasRecordAt (placed_frame frame.entry) place }
{
    let mut events = Events::of(frame);
    while let Some(event) = events.next_event() {
        if event.place == place {
            return Some(event);
        }
    }
    None
}

/// The event of the record of a frame that begins at a place of the capture, without its
/// attachment. A record must begin there. Unlike `event_at` this call does not go through the
/// records before.
pub fn event_without_attachment_at<'c>(frame: Frame<'c>, place: u64) -> Event<'c>
    requires { HasRecordAt (placed_frame frame) place }
    ensures { (found : RecordText) → RecordIsAtPlace (placed_frame frame.entry) place found →
        event_text result ≡ bare_event (frame_text frame.entry) (placed_at place found) }
{
    let mut records = Records::at(frame, place);
    // A record begins there, so there is one to give, and no fault.
    let record = records.next_record().unwrap().unwrap();
    event_of(frame, record, None)
}
