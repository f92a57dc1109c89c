//! All ledgers of one process.

ghost use Rattle.event_core.specs.Reading.{event_text};
ghost use Rattle.summary_law.specs.Fits.{placed_halves};
ghost use Rattle.process_ledgers.specs.ProcessLedgers.{SumsProcess, ArePlaced, event_place};

use crate::readers::{
    BufferItems, ClearItems, DeathItems, HandleItems, NodeItems, OnewayItems, RequestItems,
};
use event_core::{Event, OnewayKey};
use handle_ledger::{HandleLedger, NodeLedger};
use pending_ledger::{Buffers, Clears, Deaths, Requests};
use std::alloc::{AllocError, Global};
use summary_law::{Fed, Summary, Tally};

/// The ledgers of one process. The caller feeds them events of that process only. Rows and places
/// come from the calls of each ledger.
#[derive(Drop)]
pub struct ProcessLedgers<'c> {
    pub handles: Fed<HandleItems<'c>, HandleLedger>,
    pub nodes: Fed<NodeItems<'c>, NodeLedger>,
    pub buffers: Fed<BufferItems<'c>, Buffers>,
    pub requests: Fed<RequestItems<'c>, Requests>,
    pub deaths: Fed<DeathItems<'c>, Deaths>,
    pub clears: Fed<ClearItems<'c>, Clears>,
    /// How many oneway transactions the process sends to each handle and how many it receives, with
    /// their data sizes added up.
    pub oneway: Fed<OnewayItems<'c>, Tally<OnewayKey>>,
}

impl<'c> Summary for ProcessLedgers<'c> {
    type Item = Event<'c>;

    ghost fits = { ArePlaced };

    ghost sums = { SumsProcess };

    fn empty(alloc: Global) -> ProcessLedgers<'c> {
        ProcessLedgers {
            handles: Fed::empty(alloc),
            nodes: Fed::empty(alloc),
            buffers: Fed::empty(alloc),
            requests: Fed::empty(alloc),
            deaths: Fed::empty(alloc),
            clears: Fed::empty(alloc),
            oneway: Fed::empty(alloc),
        }
    }

    #[inline(always)]
    fn add(&mut self, item: Event<'c>) -> Result<(), AllocError> {
        self.handles.add(item)?;
        self.nodes.add(item)?;
        self.buffers.add(item)?;
        self.requests.add(item)?;
        self.deaths.add(item)?;
        self.clears.add(item)?;
        self.oneway.add(item)
    }

    fn join(self, later: ProcessLedgers<'c>) -> Result<ProcessLedgers<'c>, AllocError> {
        // All are joined before one is looked at, and they are looked at together, so that what is
        // left to drop is dropped at one place.
        let handles = self.handles.join(later.handles);
        let nodes = self.nodes.join(later.nodes);
        let buffers = self.buffers.join(later.buffers);
        let requests = self.requests.join(later.requests);
        let deaths = self.deaths.join(later.deaths);
        let clears = self.clears.join(later.clears);
        let oneway = self.oneway.join(later.oneway);
        let (
            Ok(handles),
            Ok(nodes),
            Ok(buffers),
            Ok(requests),
            Ok(deaths),
            Ok(clears),
            Ok(oneway),
        ) = (handles, nodes, buffers, requests, deaths, clears, oneway) else {
            return Err(AllocError);
        };
        Ok(ProcessLedgers {
            handles,
            nodes,
            buffers,
            requests,
            deaths,
            clears,
            oneway,
        })
    }

    ghost fits_halves = { placed_halves event_place };
}
