//! The closes of one key that come while it is not open.

ghost use Rattle.std.specs.Prelude.{◌≡◌};
ghost use Rattle.pending_ledger.specs.KeyEvents.{is_unmet, met_count};
ghost use Rattle.pending_ledger.specs.Sums.{StraysSums};
ghost use Rattle.summary_law.specs.Fits.{IsShort, short_halves};

use event_core::{KeyEvent, PendingChange};
use std::alloc::{AllocError, Global};
use summary_law::Summary;

/// Whether a change is a close that does not come right after an open.
fn is_unmet(before: Option<PendingChange>, change: PendingChange) -> bool
    ensures { result ≡ is_unmet before change }
{
    match change {
        PendingChange::Open => false,
        PendingChange::Close => match before {
            Some(PendingChange::Open) => false,
            Some(PendingChange::Close) | None => true,
        },
    }
}

/// How many closes of a list are met by the change right before the list: one, if that is an open
/// and the list begins with a close.
fn met_count(before: Option<PendingChange>, after: Option<PendingChange>) -> usize
    ensures { result ≡ met_count before after }
{
    match (before, after) {
        (Some(PendingChange::Open), Some(PendingChange::Close)) => 1,
        _ => 0,
    }
}

/// The closes of one key that do not come right after an open.
#[derive(Drop)]
pub struct Strays {
    /// Their places, in order.
    pub places: Vec<u64>,
    /// What the key's first event does.
    pub first: Option<PendingChange>,
    /// What its last event does.
    pub last: Option<PendingChange>,
}

/// A `join` takes a step for each stray of the later value.
impl Summary for Strays {
    type Item = KeyEvent;

    ghost fits = { IsShort };

    ghost sums = { StraysSums };

    fn empty(alloc: Global) -> Strays {
        Strays {
            places: Vec::new(alloc),
            first: None,
            last: None,
        }
    }

    #[inline(always)]
    fn add(&mut self, item: KeyEvent) -> Result<(), AllocError> {
        if is_unmet(self.last, item.change) {
            self.places.push(item.place)?;
        }
        self.first = self.first.or(Some(item.change));
        self.last = Some(item.change);
        Ok(())
    }

    /// If the earlier value ends with an open and the later one begins with a close, that close is
    /// met and is not a stray.
    fn join(self, later: Strays) -> Result<Strays, AllocError> {
        let mut joined = self;
        let met = met_count(joined.last, later.first);
        joined.places.extend_from_slice(&later.places[met..])?;
        joined.first = joined.first.or(later.first);
        joined.last = later.last.or(joined.last);
        Ok(joined)
    }

    ghost fits_halves = { short_halves };
}
