//! Standing requests for death notifications.

ghost use Rattle.std.specs.Prelude.{◌≡◌, IfOk};
ghost use Rattle.pending_ledger.specs.Requests.{request_place};
ghost use Rattle.pending_ledger.specs.Sums.{RequestsSums, GivesStanding, change_cookie};
ghost use Rattle.summary_law.specs.Fits.{IsPlaced, placed_halves};

use crate::cookie::CookieRequests;
use event_core::{RequestChange, RequestItem};
use std::alloc::{AllocError, Global};
use summary_law::{ByKey, Summary};

/// The cookie that a change is about.
fn change_cookie(change: RequestChange) -> u64
    ensures { result ≡ change_cookie change }
{
    match change {
        RequestChange::Request(key) | RequestChange::Clear(key) => key.cookie,
        RequestChange::Dead { cookie } => cookie,
    }
}

/// The standing requests of one process, found by cookie and then by handle.
#[derive(Drop)]
pub struct Requests {
    cookies: ByKey<u64, CookieRequests>,
}

impl Requests {
    /// The places of the standing requests, rising: no later clear of their handle and cookie, and
    /// no later death of their cookie, ends them.
    pub fn outstanding(&self) -> Result<Vec<u64>, AllocError>
        ensures { IfOk result (λ places. GivesStanding self.now places.items) }
    {
        let mut places = Vec::new(self.cookies.allocator());
        for (_cookie, requests) in &self.cookies {
            requests.push_standing(&mut places)?;
        }
        places.sort_unstable();
        Ok(places)
    }
}

impl Summary for Requests {
    type Item = RequestItem;

    ghost fits = { IsPlaced request_place };

    ghost sums = { RequestsSums };

    fn empty(alloc: Global) -> Requests {
        Requests {
            cookies: ByKey::empty(alloc),
        }
    }

    fn add(&mut self, item: RequestItem) -> Result<(), AllocError> {
        self.cookies.add((change_cookie(item.change), item))
    }

    fn join(self, later: Requests) -> Result<Requests, AllocError> {
        let cookies = self.cookies.join(later.cookies)?;
        Ok(Requests { cookies })
    }

    ghost fits_halves = { placed_halves request_place };
}
