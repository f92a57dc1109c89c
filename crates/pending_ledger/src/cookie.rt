//! The requests of one cookie.

ghost use Rattle.std.specs.Prelude.{◌≡◌, ◌++◌, OnOk};
ghost use Rattle.std.specs.BTreeMap.{IsOrdered};
ghost use Rattle.std.specs.Ordering.{nat_cmp};
ghost use Rattle.pending_ledger.specs.Sums.{CookieSums, handle_event, standing_places};
ghost use Rattle.summary_law.specs.Fits.{IsShort, short_halves};

use crate::opens::Opens;
use event_core::{KeyEvent, PendingChange, RequestChange, RequestItem};
use std::alloc::{AllocError, Global};
use summary_law::{ByKey, Summary};

/// A request as an open of its handle, or a clear as a close of it; None for a death.
fn handle_event(item: RequestItem) -> Option<(u32, KeyEvent)>
    ensures { result ≡ handle_event item }
{
    let (handle, change) = match item.change {
        RequestChange::Request(key) => (key.handle, PendingChange::Open),
        RequestChange::Clear(key) => (key.handle, PendingChange::Close),
        RequestChange::Dead { .. } => return None,
    };
    let place = item.place;
    Some((handle, KeyEvent { place, change }))
}

/// The standing requests of one cookie, by handle. A death ends all before it, and leaves no map.
#[derive(Drop)]
pub struct CookieRequests {
    /// Those after the last death, and whether the handle has a clear there.
    pub handles: ByKey<u32, Opens>,
    /// Whether there is a death among the items.
    pub dead: bool,
}

impl CookieRequests {
    /// Appends the places of the standing requests to `places`.
    pub fn push_standing(&self, places: &mut Vec<u64>) -> Result<(), AllocError>
        ensures items { OnOk result
            (places.new.items ≡ places.old.items ++ standing_places self.now) }
        ensures ordered { IsOrdered nat_cmp self.now.handles }
    {
        for (_handle, opens) in &self.handles {
            opens.places.push_to(places)?;
        }
        Ok(())
    }
}

/// An `add` or a `join` takes a step for each request that it ends.
impl Summary for CookieRequests {
    type Item = RequestItem;

    ghost fits = { IsShort };

    ghost sums = { CookieSums };

    fn empty(alloc: Global) -> CookieRequests {
        CookieRequests {
            handles: ByKey::empty(alloc),
            dead: false,
        }
    }

    fn add(&mut self, item: RequestItem) -> Result<(), AllocError> {
        match handle_event(item) {
            Some(event) => self.handles.add(event),
            None => {
                self.handles = ByKey::empty(self.handles.allocator());
                self.dead = true;
                Ok(())
            }
        }
    }

    fn join(self, later: CookieRequests) -> Result<CookieRequests, AllocError> {
        if later.dead {
            return Ok(later);
        }
        let handles = self.handles.join(later.handles)?;
        Ok(CookieRequests {
            handles,
            dead: self.dead,
        })
    }

    ghost fits_halves = { short_halves };
}
