//! The section `flags`.

ghost use Rattle.std.specs.Prelude.{◌≡◌, ◌++◌, ◌∷◌, [], List, map, IfOk, OnOk};
ghost use Rattle.event_core.specs.Events.{EventRead};
ghost use Rattle.event_core.specs.Reading.{event_text};
ghost use Rattle.audit_findings.specs.Flags.{unknown_flags, flagged};
ghost use Rattle.audit_findings.specs.Ledgers.{ListsFlagged};

use binder_code::unknown_bits;
use event_core::Event;
use std::alloc::{AllocError, Global};

/// The places of the records with unknown flags.
#[derive(Drop)]
pub(crate) struct FlagLedger {
    places: Vec<u64>,
}

impl FlagLedger {
    pub fn empty(alloc: Global) -> Self
        ensures { ListsFlagged result [] }
    {
        FlagLedger {
            places: Vec::new(alloc),
        }
    }

    /// Adds an event.
    pub fn add(&mut self, event: Event<'_>) -> Result<(), AllocError>
        ensures { OnOk result ((events : List EventRead) → ListsFlagged self.old events →
            ListsFlagged self.new (events ++ event_text event.entry ∷ [])) }
    {
        if unknown_flags(event) != 0 {
            self.places.push(event.place)?;
        }
        Ok(())
    }

    /// The ledger of these events and of the later ones.
    pub fn join(self, later: FlagLedger) -> Result<FlagLedger, AllocError>
        ensures { IfOk result (λ joined. (events others : List EventRead) →
            ListsFlagged self events → ListsFlagged later others →
            ListsFlagged joined (events ++ others)) }
    {
        let mut places = self.places;
        places.extend_from_slice(later.places.as_slice())?;
        Ok(FlagLedger { places })
    }

    /// The places, in their order.
    pub fn into_places(self) -> Vec<u64>
        ensures { (events : List EventRead) → ListsFlagged self events →
            result.items ≡ map (λ e. e.place) (flagged events) }
    {
        self.places
    }
}

/// The unknown flags of an event's record; 0 if it is not a transaction or a reply.
fn unknown_flags(event: Event<'_>) -> u32
    ensures { result ≡ unknown_flags (event_text event.entry) }
{
    match event.transaction {
        Some(transaction) => unknown_bits(transaction.flags()),
        None => 0,
    }
}
