//! What is counted and listed over all events.

ghost use Rattle.std.specs.Prelude.{◌≡◌, List, IfOk};
ghost use Rattle.event_core.specs.Events.{EventRead};
ghost use Rattle.audit_findings.specs.Findings.{event_sections};
ghost use Rattle.audit_findings.specs.Kept.{events_at_places};
ghost use Rattle.audit_findings.specs.Ledgers.{SumsEvents, AreFewEvents};

use crate::codes::{CodeRow, code_rows};
use crate::event_ledgers::EventLedgers;
use crate::objects::BadRow;
use crate::oneway_counts::OnewayCounts;
use crate::record_counts::{RecordCounts, record_counts};
use crate::rows::Rows;
use crate::sort_counts::SortCounts;
use std::alloc::{AllocError, Global};

/// What the report counts and lists over all events, whatever their process and thread.
#[derive(Drop)]
pub struct EventSections<E> {
    /// How many records there are, opaque ones included.
    pub records: u64,
    /// How many of them are opaque.
    pub opaque: u64,
    /// How many records have each code word, the words rising.
    pub codes: Rows<CodeRow>,
    /// How many deliveries, frees, requests, deaths and clears there are.
    pub counts: RecordCounts,
    /// How many oneway transactions there are.
    pub oneway: OnewayCounts,
    /// How many good objects of each sort there are.
    pub objects: SortCounts,
    /// The bad objects, in rising place of their records.
    pub bad_objects: Rows<BadRow<E>>,
    /// The records with unknown flags, in rising place.
    pub flags: Rows<E>,
}

impl EventSections<u64> {
    /// What is kept of some events, from their ledgers.
    pub(crate) fn of(alloc: Global, ledgers: EventLedgers) -> Result<Self, AllocError>
        requires { (events : List EventRead) × SumsEvents ledgers events × AreFewEvents events }
        ensures { IfOk result (λ kept. (events : List EventRead) → SumsEvents ledgers events →
            kept ≡ events_at_places (event_sections events)) }
    {
        let codes = code_rows(alloc, &ledgers.codes)?;
        Ok(EventSections {
            records: ledgers.records,
            opaque: ledgers.opaque,
            codes,
            counts: record_counts(&ledgers.codes),
            oneway: ledgers.oneway,
            objects: ledgers.objects.counts,
            bad_objects: Rows::of(ledgers.objects.bad),
            flags: Rows::of(ledgers.flags.into_places()),
        })
    }
}
