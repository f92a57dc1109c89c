//! The calls of all threads.

ghost use Rattle.std.specs.Prelude.{[], IfOk, OnOk};
ghost use Rattle.event_core.specs.Reading.{event_text};
ghost use Rattle.summary_law.specs.Summary.{CanAdd, Adds, CanJoin, Joins};
ghost use Rattle.audit_findings.specs.Ledgers.{AreFewEvents};
ghost use Rattle.audit_findings.specs.ThreadLedger.{SumsThreadCalls};

use call_stacks::{CallEvent, CallRecord, Calls};
use capture_frame::Thread;
use event_core::Event;
use std::alloc::{AllocError, Global};
use summary_law::{InOrder, Summary};

/// The calls of each thread with an event that leaves a mark. Of an event only what decides the
/// calls is kept.
#[derive(Drop)]
pub(crate) struct ThreadLedger {
    pub threads: InOrder<Thread, Calls<CallEvent>>,
}

impl ThreadLedger {
    pub fn empty(alloc: Global) -> Self
        ensures { SumsThreadCalls result [] }
    {
        ThreadLedger {
            threads: InOrder::empty(alloc),
        }
    }

    /// Adds an event. After an error the ledger may only be dropped.
    pub fn add(&mut self, event: Event<'_>) -> Result<(), AllocError>
        requires { CanAdd SumsThreadCalls AreFewEvents self.old (event_text event) }
        ensures { OnOk result
            (Adds SumsThreadCalls AreFewEvents self.old (event_text event.entry) self.new) }
    {
        let call = CallEvent::of(event);
        match call.mark() {
            Some(_) => self.threads.add((event.of_thread(), call)),
            None => Ok(()),
        }
    }

    /// The ledger of these events and of the later ones.
    pub fn join(self, later: ThreadLedger) -> Result<ThreadLedger, AllocError>
        requires { CanJoin SumsThreadCalls AreFewEvents self later }
        ensures { IfOk result (Joins SumsThreadCalls AreFewEvents self later) }
    {
        Ok(ThreadLedger {
            threads: self.threads.join(later.threads)?,
        })
    }
}
