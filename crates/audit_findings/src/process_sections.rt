//! What the report says of each process.

ghost use Rattle.std.specs.Prelude.{◌≡◌, List, map, IfOk};
ghost use Rattle.capture_frame.specs.Envelope.{PlacedFrame};
ghost use Rattle.event_core.specs.Events.{events_of_frames};
ghost use Rattle.audit_findings.specs.EachProcess.{SumsEach};
ghost use Rattle.audit_findings.specs.Findings.{process_sections};
ghost use Rattle.audit_findings.specs.Handles.{handles_of_each};
ghost use Rattle.audit_findings.specs.Kept.{processes_at_places};
ghost use Rattle.audit_findings.specs.Ledgers.{AreUnfreed};
ghost use Rattle.audit_findings.specs.Places.{RiseInPlace};

use crate::both::both;
use crate::handles::{ProcessHandles, handles_of};
use crate::in_turn::ProcessRow;
use crate::nodes::nodes_of;
use crate::oneway::{OnewayRow, oneway_rows};
use crate::open_and_stray::OpenAndStray;
use crate::paired::{Strays, Unclosed, open_and_stray_of};
use crate::pairs::{BufferPairs, ClearPairs, DeathPairs, Standing};
use crate::places::{gathered, places_of};
use crate::processes::Processes;
use crate::references::References;
use crate::rows::Rows;
use handle_ledger::{HeldRow, NodeRow};
use std::alloc::{AllocError, Global};

/// What the report says of each process: the sections from `handles` to `clears`, and the rows of
/// `oneway`.
#[derive(Drop)]
pub struct ProcessSections<E> {
    /// The references that processes take by handle, and those that their deliveries hold.
    pub handles: References<HeldRow>,
    /// The references to the nodes of processes.
    pub nodes: References<NodeRow>,
    /// The leaked deliveries, in rising place.
    pub leaked: Rows<E>,
    /// The stray frees, in rising place.
    pub stray_frees: Rows<E>,
    /// The standing requests, in rising place.
    pub standing: Rows<E>,
    /// Unacknowledged deaths and stray acknowledgements.
    pub deaths: OpenAndStray<E>,
    /// Unconfirmed clears and stray confirmations.
    pub clears: OpenAndStray<E>,
    /// The oneway transactions of each process, in the order of first frames: those that it sends,
    /// by rising handle, then those that it receives.
    pub oneway: Rows<ProcessRow<OnewayRow>>,
}

impl ProcessSections<u64> {
    /// What is kept of all processes. `unfreed` and `handles` have a list for each, in order: the
    /// places of its leaked deliveries, and its rows of handles.
    pub(crate) fn of(
        alloc: Global,
        processes: Processes<'_, '_>,
        unfreed: &[Vec<u64>],
        handles: &[ProcessHandles],
    ) -> Result<Self, AllocError>
        ensures { IfOk result (λ kept. (frames : List PlacedFrame) →
            SumsEach processes.entry frames →
            AreUnfreed frames (map (λ list. list.items) unfreed.now) →
            map (λ list. list.items) handles.now ≡ handles_of_each frames →
            RiseInPlace (events_of_frames frames) →
            kept ≡ processes_at_places (process_sections frames)) }
    {
        let references = both(handles_of(alloc, handles), nodes_of(alloc, processes));
        let buffers = both(
            gathered::<Unclosed<BufferPairs>>(alloc, unfreed),
            places_of::<Strays<BufferPairs>>(alloc, processes),
        );
        let pairs = both(
            open_and_stray_of::<DeathPairs>(alloc, processes),
            open_and_stray_of::<ClearPairs>(alloc, processes),
        );
        let others = both(
            places_of::<Standing>(alloc, processes),
            oneway_rows(alloc, processes),
        );
        let (((handles, nodes), (leaked, stray_frees)), ((deaths, clears), (standing, oneway))) =
            both(both(references, buffers), both(pairs, others))?;
        Ok(ProcessSections {
            handles,
            nodes,
            leaked: Rows::of(leaked),
            stray_frees: Rows::of(stray_frees),
            standing: Rows::of(standing),
            deaths,
            clears,
            oneway,
        })
    }
}
