//! Places that the ledgers of all processes list, rising.

ghost use Rattle.std.specs.Prelude.{◌≡◌, List, map, IfOk};
ghost use Rattle.capture_frame.specs.Envelope.{PlacedFrame};
ghost use Rattle.event_core.specs.Events.{events_of_frames};
ghost use Rattle.process_ledgers.specs.Processes.{processes_of};
ghost use Rattle.audit_findings.specs.EachProcess.{SumsEach};
ghost use Rattle.audit_findings.specs.Kept.{places_of};
ghost use Rattle.audit_findings.specs.Places.{RiseInPlace, passing_events, places_in};

use crate::joined::joined;
use crate::processes::Processes;
use process_ledgers::ProcessLedgers;
use std::alloc::{AllocError, Global};

/// A list of places that the ledgers of a process have.
pub(crate) trait ListsPlaces {
    ghost use Rattle.std.specs.Prelude.{◌≡◌, List, IfOk};
    ghost use Rattle.capture_frame.specs.declared.process.Process.{Process};
    ghost use Rattle.event_core.specs.Events.{EventRead};
    ghost use Rattle.process_ledgers.specs.EachProcess.{AreLedgersOf};
    ghost use Rattle.audit_findings.specs.Places.{EventTest, places_in};

    /// Which events of a process are listed.
    ghost test: { EventTest };

    /// The list, the places rising.
    fn places(ledgers: &ProcessLedgers<'_>) -> Result<Vec<u64>, AllocError>
        ensures { IfOk result (λ places. (events : List EventRead) (process : Process) →
            AreLedgersOf ledgers.now events process →
            places.items ≡ places_in test events process) };
}

/// The list of each process, in the order of first frames.
pub(crate) fn lists_of<L: ListsPlaces>(
    alloc: Global,
    processes: Processes<'_, '_>,
) -> Result<Vec<Vec<u64>>, AllocError>
    ensures { IfOk result (λ lists. (frames : List PlacedFrame) →
        SumsEach processes.entry frames →
        map (λ list. list.items) lists.items
        ≡ map (places_in L.test (events_of_frames frames)) (processes_of frames)) }
{
    let mut lists = Vec::new(alloc);
    let mut guess = 0;
    for (process, _nothing) in &processes.order.entries {
        let own = L::places(processes.ledgers(*process, &mut guess))?;
        lists.push(own).map_err(AllocError::from)?;
    }
    Ok(lists)
}

/// The places in the lists of all processes, rising.
pub(crate) fn gathered<L: ListsPlaces>(
    alloc: Global,
    lists: &[Vec<u64>],
) -> Result<Vec<u64>, AllocError>
    ensures { IfOk result (λ places. (frames : List PlacedFrame) →
        RiseInPlace (events_of_frames frames) →
        map (λ list. list.items) lists.now
        ≡ map (places_in L.test (events_of_frames frames)) (processes_of frames) →
        places.items ≡ places_of (passing_events L.test (events_of_frames frames))) }
{
    let mut places = joined(alloc, lists)?;
    places.sort_unstable();
    Ok(places)
}

/// The places that the ledgers of all processes list, rising.
pub(crate) fn places_of<L: ListsPlaces>(
    alloc: Global,
    processes: Processes<'_, '_>,
) -> Result<Vec<u64>, AllocError>
    ensures { IfOk result (λ places. (frames : List PlacedFrame) →
        SumsEach processes.entry frames → RiseInPlace (events_of_frames frames) →
        places.items ≡ places_of (passing_events L.test (events_of_frames frames))) }
{
    let lists = lists_of::<L>(alloc, processes)?;
    gathered::<L>(alloc, lists.as_slice())
}
