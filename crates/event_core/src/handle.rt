//! What an event does to the references that a process holds by handle.

ghost use Rattle.std.specs.Prelude.{◌≡◌};
ghost use Rattle.event_core.specs.Handles.{handle_effect, handle_item};

use crate::event::Event;
use crate::strength::Strength;
use binder_code::Kind;
use capture_frame::u32_at;

/// Whether a count of a handle goes up or down by one.
#[derive(Clone, Copy)]
pub enum HandleChange {
    Raise,
    Lower,
}

/// Which count a record of this kind changes, and how.
fn handle_effect(kind: Kind) -> Option<(Strength, HandleChange)>
    ensures { result ≡ handle_effect kind }
{
    match kind {
        Kind::BcAcquire => Some((Strength::Strong, HandleChange::Raise)),
        Kind::BcRelease => Some((Strength::Strong, HandleChange::Lower)),
        Kind::BcIncrefs => Some((Strength::Weak, HandleChange::Raise)),
        Kind::BcDecrefs => Some((Strength::Weak, HandleChange::Lower)),
        _ => None,
    }
}

/// The handle of a BC_ACQUIRE, BC_RELEASE, BC_INCREFS or BC_DECREFS, which of its counts changes,
/// and how; None for every other event.
pub fn handle_step(event: Event<'_>) -> Option<(u32, (Strength, HandleChange))>
    ensures { result ≡ handle_item event.entry.kind event.entry.payload.now }
{
    let effect = handle_effect(event.kind)?;
    Some((u32_at(event.payload, 0), effect))
}
