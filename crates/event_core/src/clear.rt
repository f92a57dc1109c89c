//! Requests that a process takes back, and the confirmations of the driver.

ghost use Rattle.std.specs.Prelude.{◌≡◌};
ghost use Rattle.event_core.specs.Clears.{clear_item};

use crate::event::Event;
use crate::pending::{KeyEvent, PendingChange};
use crate::request::RequestKey;
use binder_code::Kind;
use capture_frame::u64_at;

/// The cookie of a BC_CLEAR_DEATH_NOTIFICATION, which opens it, or of a
/// BR_CLEAR_DEATH_NOTIFICATION_DONE, which closes it; None for every other event.
pub fn clear_step(event: Event<'_>) -> Option<(u64, KeyEvent)>
    ensures { result ≡ clear_item event.entry.place event.entry.kind event.entry.payload.now }
{
    let place = event.place;
    let (cookie, change) = match event.kind {
        Kind::BcClearDeathNotification => {
            (RequestKey::of(event.payload).cookie, PendingChange::Open)
        }
        Kind::BrClearDeathNotificationDone => (u64_at(event.payload, 0), PendingChange::Close),
        _ => return None,
    };
    Some((cookie, KeyEvent { place, change }))
}
