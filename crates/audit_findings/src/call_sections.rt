//! The sections `calls`, `served`, `strays` and `refused` together.

ghost use Rattle.std.specs.Prelude.{◌≡◌, List, IfOk};
ghost use Rattle.event_core.specs.Events.{EventRead};
ghost use Rattle.audit_findings.specs.Calls.{call_sections};
ghost use Rattle.audit_findings.specs.Kept.{calls_at_places};
ghost use Rattle.audit_findings.specs.Places.{RiseInPlace};
ghost use Rattle.audit_findings.specs.ThreadLedger.{SumsThreadCalls};

use crate::calls::Calls;
use crate::refused::Refused;
use crate::rows::Rows;
use crate::served::Served;
use crate::thread_ledger::ThreadLedger;
use crate::thread_rows::ThreadRows;
use std::alloc::{AllocError, Global};

/// What the sections `calls`, `served`, `strays` and `refused` say.
#[derive(Drop)]
pub struct CallSections<E> {
    /// The calls that threads make.
    pub calls: Calls<E>,
    /// The calls that threads get to serve.
    pub served: Served<E>,
    /// The closers that close no opener, in rising place.
    pub strays: Rows<E>,
    /// Refused sends.
    pub refused: Refused<E>,
}

impl CallSections<u64> {
    /// What is kept of the calls of all threads.
    pub(crate) fn of(alloc: Global, ledger: ThreadLedger) -> Result<Self, AllocError>
        ensures { IfOk result (λ kept. (events : List EventRead) →
            SumsThreadCalls ledger events → RiseInPlace events →
            kept ≡ calls_at_places (call_sections events)) }
    {
        let ThreadRows {
            made,
            served,
            answered,
            replied,
            strays,
            sends,
        } = ThreadRows::of(alloc, ledger)?;
        let refused = Refused::of(alloc, sends.as_slice())?;
        Ok(CallSections {
            calls: Calls::of(answered, made),
            served: Served::of(replied, served),
            strays: Rows::of(strays),
            refused,
        })
    }
}
