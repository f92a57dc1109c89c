//! Deaths that the driver reports to a process, and that the process acknowledges.

ghost use Rattle.std.specs.Prelude.{◌≡◌};
ghost use Rattle.event_core.specs.Deaths.{death_change, death_item};

use crate::event::Event;
use crate::pending::{KeyEvent, PendingChange};
use binder_code::Kind;
use capture_frame::u64_at;

/// What a record of this kind does to the death of its cookie.
fn death_change(kind: Kind) -> Option<PendingChange>
    ensures { result ≡ death_change kind }
{
    match kind {
        Kind::BrDeadBinder => Some(PendingChange::Open),
        Kind::BcDeadBinderDone => Some(PendingChange::Close),
        _ => None,
    }
}

/// The cookie of a BR_DEAD_BINDER, which opens it, or of a BC_DEAD_BINDER_DONE, which closes it;
/// None for every other event.
pub fn death_step(event: Event<'_>) -> Option<(u64, KeyEvent)>
    ensures { result ≡ death_item event.entry.place event.entry.kind event.entry.payload.now }
{
    let change = death_change(event.kind)?;
    let place = event.place;
    Some((u64_at(event.payload, 0), KeyEvent { place, change }))
}
