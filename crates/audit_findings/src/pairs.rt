//! What the ledgers of a process list for the sections from `buffers` to `clears`.

use crate::paired::OpensAndCloses;
use crate::places::ListsPlaces;
use pending_ledger::Pending;
use process_ledgers::ProcessLedgers;
use std::alloc::AllocError;

/// Deliveries, which open their buffer's address, and frees, which close it.
pub(crate) struct BufferPairs;

impl OpensAndCloses for BufferPairs {
    ghost use Rattle.process_ledgers.specs.Items.{buffer_pending_of};
    ghost use Rattle.process_ledgers.proofs.ItemPlaces.{buffer_keeps};

    ghost read = { buffer_pending_of };

    ghost keeps = { buffer_keeps };

    fn ledger<'l>(ledgers: &'l ProcessLedgers<'_>) -> &'l Pending<u64> {
        &ledgers.buffers.own
    }
}

/// Deaths, which open their cookie, and acknowledgements, which close it.
pub(crate) struct DeathPairs;

impl OpensAndCloses for DeathPairs {
    ghost use Rattle.process_ledgers.specs.Items.{death_item_of};
    ghost use Rattle.process_ledgers.proofs.ItemPlaces.{death_keeps};

    ghost read = { death_item_of };

    ghost keeps = { death_keeps };

    fn ledger<'l>(ledgers: &'l ProcessLedgers<'_>) -> &'l Pending<u64> {
        &ledgers.deaths.own
    }
}

/// Clears, which open their cookie, and confirmations, which close it.
pub(crate) struct ClearPairs;

impl OpensAndCloses for ClearPairs {
    ghost use Rattle.process_ledgers.specs.Items.{clear_item_of};
    ghost use Rattle.process_ledgers.proofs.ItemPlaces.{clear_keeps};

    ghost read = { clear_item_of };

    ghost keeps = { clear_keeps };

    fn ledger<'l>(ledgers: &'l ProcessLedgers<'_>) -> &'l Pending<u64> {
        &ledgers.clears.own
    }
}

/// The standing requests.
pub(crate) struct Standing;

impl ListsPlaces for Standing {
    ghost use Rattle.audit_findings.specs.Requests.{is_standing_request};

    ghost test = { is_standing_request };

    fn places(ledgers: &ProcessLedgers<'_>) -> Result<Vec<u64>, AllocError> {
        ledgers.requests.own.outstanding()
    }
}
