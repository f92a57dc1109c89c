//! What is kept of the calls of all threads.

ghost use Rattle.std.specs.Prelude.{◌≡◌, ◌++◌, List, map, IfOk, OnOk};
ghost use Rattle.event_core.specs.Events.{EventRead};
ghost use Rattle.call_stacks.specs.Calls.{event_place};
ghost use Rattle.audit_findings.specs.Places.{RiseInPlace};
ghost use Rattle.audit_findings.specs.ThreadLedger.{SumsThreadCalls};
ghost use Rattle.audit_findings.specs.ThreadRows.{kept_call, kept_send, made_of, served_by, makes};
ghost use Rattle.audit_findings.specs.ThreadRows.{TakesOver, AreGatheredRows, AreSortedRows, KeepRows};

use crate::thread_ledger::ThreadLedger;
use call_stacks::{CallEvent, CallFindings, CallRecord, Opener, RefusedSend};
use event_core::Bracket;
use std::alloc::{AllocError, Global};
use summary_law::InOrder;

/// What is kept of the calls of all threads, each list in rising place once it is sorted. Most
/// calls have their reply; those are only counted.
#[derive(Drop)]
pub(crate) struct ThreadRows {
    /// The calls that threads make and that lack their reply.
    pub made: Vec<Opener<u64>>,
    /// The calls that threads serve and that lack their reply.
    pub served: Vec<Opener<u64>>,
    /// How many calls that threads make are answered.
    pub answered: u64,
    /// How many calls that threads serve are replied to.
    pub replied: u64,
    /// The places of the closers that close no opener.
    pub strays: Vec<u64>,
    /// The refused sends.
    pub sends: Vec<RefusedSend<u64>>,
}

impl ThreadRows {
    /// The rows of all threads, each list in rising place.
    pub fn of(alloc: Global, ledger: ThreadLedger) -> Result<Self, AllocError>
        ensures { IfOk result (λ rows. (events : List EventRead) →
            SumsThreadCalls ledger events → RiseInPlace events → KeepRows rows events) }
    {
        let mut rows = ThreadRows::in_turn(alloc, ledger)?;
        rows.sort();
        Ok(rows)
    }

    /// The rows of each thread in turn. The calls of a thread are dropped once its rows are taken.
    fn in_turn(alloc: Global, ledger: ThreadLedger) -> Result<Self, AllocError>
        ensures { IfOk result (λ rows.
            AreGatheredRows ledger.threads.entries.entries rows) }
    {
        let mut rows = ThreadRows {
            made: Vec::new(alloc),
            served: Vec::new(alloc),
            answered: 0,
            replied: 0,
            strays: Vec::new(alloc),
            sends: Vec::new(alloc),
        };
        let InOrder { entries, .. } = ledger.threads;
        for (_thread, calls) in entries {
            let found = calls.finish()?;
            rows.take_over(&found)?;
        }
        Ok(rows)
    }

    /// Takes over the calls of a thread. No capture has 2^64 records, so the numbers stay below
    /// that; only the caller knows it, so these sums saturate.
    fn take_over(&mut self, found: &CallFindings<CallEvent>) -> Result<(), AllocError>
        ensures { OnOk result (TakesOver self.old found.now self.new) }
    {
        self.answered = self.answered.saturating_add(found.answered);
        self.replied = self.replied.saturating_add(found.replied);
        push_calls(&mut self.made, &mut self.served, found.openers.as_slice())?;
        push_places(&mut self.strays, found.strays.as_slice())?;
        push_sends(&mut self.sends, found.refused.as_slice())
    }

    /// Sorts each list by place.
    fn sort(&mut self)
        ensures { AreSortedRows self.old self.new }
    {
        self.made.sort_unstable_by_key(|call| call.event);
        self.served.sort_unstable_by_key(|call| call.event);
        self.strays.sort_unstable();
        self.sends.sort_unstable_by_key(|sent| sent.event);
    }
}

/// Whether its thread makes the call; if not, the thread serves it.
fn makes(opener: &Opener<CallEvent>) -> bool
    ensures { result ≡ makes opener.now }
{
    matches!(opener.event.bracket(None), Bracket::Call)
}

/// Pushes the calls of a thread: those that it makes, and those that it serves.
fn push_calls(
    made: &mut Vec<Opener<u64>>,
    served: &mut Vec<Opener<u64>>,
    openers: &[Opener<CallEvent>],
) -> Result<(), AllocError>
    ensures made { OnOk result (made.new.items ≡ made.old.items ++ made_of openers.now) }
    ensures served { OnOk result
        (served.new.items ≡ served.old.items ++ served_by openers.now) }
{
    for opener in openers {
        if makes(opener) {
            made.push(kept_call(opener))?;
        } else {
            served.push(kept_call(opener))?;
        }
    }
    Ok(())
}

/// A call, with the place of its event.
fn kept_call(opener: &Opener<CallEvent>) -> Opener<u64>
    ensures { result ≡ kept_call opener.now }
{
    Opener {
        event: opener.event.place,
        verdict: opener.verdict,
        closer: opener.closer,
    }
}

fn push_places(places: &mut Vec<u64>, events: &[CallEvent]) -> Result<(), AllocError>
    ensures { OnOk result (places.new.items ≡
        places.old.items ++ map event_place events.now) }
{
    for event in events {
        places.push(event.place)?;
    }
    Ok(())
}

fn push_sends(
    rows: &mut Vec<RefusedSend<u64>>,
    sends: &[RefusedSend<CallEvent>],
) -> Result<(), AllocError>
    ensures { OnOk result (rows.new.items ≡ rows.old.items ++ map kept_send sends.now) }
{
    for sent in sends {
        rows.push(RefusedSend {
            event: sent.event.place,
            oneway: sent.oneway,
        })?;
    }
    Ok(())
}
