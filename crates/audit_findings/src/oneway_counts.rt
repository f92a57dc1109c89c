//! How many oneway transactions there are.

ghost use Rattle.std.specs.Prelude.{◌≡◌, ◌+◌, ◌∷◌, ◌<◌, ◌^◌, []};
ghost use Rattle.event_core.specs.Reading.{event_text};
ghost use Rattle.audit_findings.specs.Oneway.{oneway_counts};

use event_core::{Event, OnewayKey, oneway_step};

/// How many oneway transactions are sent, and how many received, over all processes.
#[derive(Clone, Copy, Debug)]
pub struct OnewayCounts {
    /// How many are sent, refused ones included.
    pub sent: u64,
    /// How many are received.
    pub received: u64,
}

impl OnewayCounts {
    pub(crate) const NONE: Self = OnewayCounts {
        sent: 0,
        received: 0,
    };

    const SENT: Self = OnewayCounts {
        sent: 1,
        received: 0,
    };

    const RECEIVED: Self = OnewayCounts {
        sent: 0,
        received: 1,
    };

    /// The counts of one event.
    pub(crate) fn of(event: Event<'_>) -> Self
        ensures { result ≡ oneway_counts (event_text event.entry ∷ []) }
    {
        let Some(item) = oneway_step(event) else {
            return OnewayCounts::NONE;
        };
        match item.0 {
            OnewayKey::Sent(_) => OnewayCounts::SENT,
            OnewayKey::Received => OnewayCounts::RECEIVED,
        }
    }

    /// The counts of two lists of events together.
    pub(crate) fn plus(self, other: Self) -> Self
        requires sent { self.sent + other.sent < 2 ^ 64 }
        requires received { self.received + other.received < 2 ^ 64 }
        ensures sent { result.sent ≡ self.sent + other.sent }
        ensures received { result.received ≡ self.received + other.received }
    {
        OnewayCounts {
            sent: self.sent + other.sent,
            received: self.received + other.received,
        }
    }
}
