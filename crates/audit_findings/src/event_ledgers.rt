//! The ledgers over all events.

ghost use Rattle.std.specs.Prelude.{[], IfOk, OnOk};
ghost use Rattle.event_core.specs.Reading.{event_text};
ghost use Rattle.summary_law.specs.Summary.{CanAdd, Adds, CanJoin, Joins};
ghost use Rattle.audit_findings.specs.Ledgers.{SumsEvents, AreFewEvents};

use crate::code_counts::CodeCounts;
use crate::codes::opaque_count;
use crate::flags::FlagLedger;
use crate::objects::ObjectLedger;
use crate::oneway_counts::OnewayCounts;
use event_core::Event;
use std::alloc::{AllocError, Global};

/// How many events there are, and what `codes`, `oneway`, `objects` and `flags` keep of them all.
#[derive(Drop)]
pub(crate) struct EventLedgers {
    pub records: u64,
    pub opaque: u64,
    pub codes: CodeCounts,
    pub oneway: OnewayCounts,
    pub objects: ObjectLedger,
    pub flags: FlagLedger,
}

impl EventLedgers {
    pub fn empty(alloc: Global) -> Self
        ensures { SumsEvents result [] }
    {
        EventLedgers {
            records: 0,
            opaque: 0,
            codes: CodeCounts::empty(alloc),
            oneway: OnewayCounts::NONE,
            objects: ObjectLedger::empty(alloc),
            flags: FlagLedger::empty(alloc),
        }
    }

    /// Adds an event. After an error the ledgers may only be dropped.
    pub fn add(&mut self, event: Event<'_>) -> Result<(), AllocError>
        requires { CanAdd SumsEvents AreFewEvents self.old (event_text event) }
        ensures { OnOk result
            (Adds SumsEvents AreFewEvents self.old (event_text event.entry) self.new) }
    {
        self.records += 1;
        self.opaque += opaque_count(event.kind);
        self.codes.add(event.kind, event.code)?;
        self.objects.add(event)?;
        // Only a transaction can be oneway, and only it or a reply has flags.
        if event.transaction.is_none() {
            return Ok(());
        }
        self.oneway = self.oneway.plus(OnewayCounts::of(event));
        self.flags.add(event)
    }

    /// The ledgers of these events and of the later ones.
    pub fn join(self, later: EventLedgers) -> Result<EventLedgers, AllocError>
        requires { CanJoin SumsEvents AreFewEvents self later }
        ensures { IfOk result (Joins SumsEvents AreFewEvents self later) }
    {
        // All are joined before any result is looked at: so less is left to drop at each `?`.
        let codes = self.codes.join(later.codes);
        let objects = self.objects.join(later.objects);
        let flags = self.flags.join(later.flags);
        Ok(EventLedgers {
            records: self.records + later.records,
            opaque: self.opaque + later.opaque,
            codes: codes?,
            oneway: self.oneway.plus(later.oneway),
            objects: objects?,
            flags: flags?,
        })
    }
}
