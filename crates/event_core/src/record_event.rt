//! The event of a record, with its attachment.

ghost use Rattle.std.specs.Prelude.{◌≡◌};
ghost use Rattle.std.specs.Option.{ForSome, option_map};
ghost use Rattle.capture_frame.specs.Envelope.{frame_text};
ghost use Rattle.record_view.specs.State.{placed_record};
ghost use Rattle.transaction_view.specs.State.{placed_entry};
ghost use Rattle.event_core.specs.Events.{event_with};
ghost use Rattle.event_core.specs.Reading.{event_text};

use crate::event::Event;
use capture_frame::Frame;
use record_view::Record;
use transaction_view::{Entry, Transaction};

/// The event of a record of the frame, with its attachment if it has one.
#[inline(always)]
pub(crate) fn event_of<'c>(
    frame: Frame<'c>,
    carrier: Record<'c>,
    attachment: Option<Entry<'c>>,
) -> Event<'c>
    requires { ForSome attachment (λ found. found.owner ≡ carrier.place) }
    ensures { event_text result ≡ event_with (frame_text frame.entry)
        (placed_record carrier.entry) (option_map placed_entry attachment.entry) }
{
    Event {
        place: carrier.place,
        device: frame.device,
        process: frame.process,
        thread: frame.thread,
        kind: carrier.kind,
        code: carrier.code,
        payload: carrier.payload,
        transaction: Transaction::of(carrier),
        entry: attachment,
    }
}
