//! What is read of an event to find the calls of its thread.

ghost use Rattle.std.specs.Prelude.{◌≡◌, Bool, true, false};
ghost use Rattle.call_stacks.specs.Calls.{Reads, mark_read, bracket_read, event_reads, capture_event_reads, call_event};

use binder_code::Kind;
use event_core::{Bracket, Event, Mark, bracket_of, is_oneway, mark_of};

/// An event, in any form. Only its place, its kind and whether it is a oneway transaction decide
/// the calls of its thread.
pub trait CallRecord: Copy {
    /// These three as functions, for clauses and proofs.
    ghost reads: { Reads Self };

    /// Whether all calls are kept, or only those that lack their reply.
    ghost all_kept: { Bool };

    /// Where its record begins in the capture, in bytes.
    fn place(&self) -> u64
        ensures { result ≡ reads.place self.now };

    /// What the code of its record means.
    fn kind(&self) -> Kind
        ensures { result ≡ reads.kind self.now };

    /// Whether it is a transaction, sent or received, with TF_ONE_WAY.
    fn oneway(&self) -> bool
        ensures { result ≡ reads.oneway self.now };

    /// Whether calls that have their reply are kept too; if not, they are only counted.
    fn keeps_all() -> bool
        ensures { result ≡ all_kept };

    /// The mark that it leaves in its thread, if any.
    final fn mark(&self) -> Option<Mark>
        ensures { result ≡ mark_read reads self.now }
    {
        mark_of(self.kind(), self.oneway())
    }

    /// What it is among the calls of its thread, where `last` is the thread's latest mark before
    /// it.
    final fn bracket(&self, last: Option<Mark>) -> Bracket
        ensures { result ≡ bracket_read reads last self.now }
    {
        bracket_of(last, self.kind(), self.oneway())
    }
}

impl<'c> CallRecord for Event<'c> {
    ghost reads = { capture_event_reads };

    ghost all_kept = { true };

    fn place(&self) -> u64 {
        self.place
    }

    fn kind(&self) -> Kind {
        self.kind
    }

    fn oneway(&self) -> bool {
        is_oneway(*self)
    }

    fn keeps_all() -> bool
        ensures { result ≡ true }
    {
        true
    }
}

/// An event, reduced to what decides the calls of its thread. Of these events a call that has its
/// reply is only counted, not kept.
#[derive(Clone, Copy)]
pub struct CallEvent {
    /// Where its record begins in the capture, in bytes.
    pub place: u64,
    /// What the code of its record means.
    pub kind: Kind,
    /// Whether it is a transaction, sent or received, with TF_ONE_WAY.
    pub oneway: bool,
}

impl CallEvent {
    /// The event, reduced to these fields.
    pub fn of(event: Event<'_>) -> Self
        ensures { result ≡ call_event event.entry }
    {
        CallEvent {
            place: event.place,
            kind: event.kind,
            oneway: is_oneway(event),
        }
    }
}

impl CallRecord for CallEvent {
    ghost reads = { event_reads };

    ghost all_kept = { false };

    fn place(&self) -> u64 {
        self.place
    }

    fn kind(&self) -> Kind {
        self.kind
    }

    fn oneway(&self) -> bool {
        self.oneway
    }

    fn keeps_all() -> bool {
        false
    }
}
