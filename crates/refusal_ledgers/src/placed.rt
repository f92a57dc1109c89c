//! Items that have a place.

ghost use Rattle.std.specs.Bool.{OnTrue};
ghost use Rattle.std.specs.Prelude.{◌≡◌, ℕ};
ghost use Rattle.call_stacks.specs.Calls.{capture_event_reads};
ghost use Rattle.pending_ledger.specs.Pending.{place_of};
ghost use Rattle.pending_ledger.specs.Requests.{request_place};
ghost use Rattle.summary_law.specs.Fits.{IsPlaced};

use event_core::{Event, KeyEvent, RequestItem};

/// An item that has a place: that of its record in the capture.
pub(crate) trait Placed: Copy {
    /// Where it is.
    ghost place_in: { Self → ℕ };

    /// The same, as a number.
    fn place(self) -> u64
        ensures { result ≡ place_in self };
}

impl Placed for (u64, KeyEvent) {
    ghost place_in = { place_of };

    fn place(self) -> u64 {
        self.1.place
    }
}

impl Placed for RequestItem {
    ghost place_in = { request_place };

    fn place(self) -> u64 {
        self.place
    }
}

impl<'c> Placed for Event<'c> {
    ghost place_in = { capture_event_reads.place };

    fn place(self) -> u64 {
        self.place
    }
}

/// Whether there are at most 2^32 items, and their places rise.
pub(crate) fn is_placed<T: Placed>(items: &[T]) -> bool
    ensures { OnTrue result (IsPlaced T.place_in items.now) }
{
    if items.len() > 4_294_967_296 {
        return false;
    }
    let mut least: u128 = 0;
    for item in items {
        let place = item.place();
        if u128::from(place) < least {
            return false;
        }
        least = u128::from(place) + 1;
    }
    true
}
