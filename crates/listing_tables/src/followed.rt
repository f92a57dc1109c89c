//! Calls from their openers to their closers.

ghost use Rattle.std.specs.Prelude.{OnOk};
ghost use Rattle.listing_tables.specs.Followed.{FollowsOneMore, HasNone, SaysClosed};

use crate::steps::is_oneway;
use call_stacks::{CallEvent, Calls};
use capture_frame::{Frame, Thread};
use event_core::{Bracket, bracket_of};
use listing_fields::thread_of;
use record_view::Record;
use std::alloc::{AllocError, Global};
use summary_law::Summary;

/// A call that is followed from its opener on.
#[derive(Drop)]
pub(crate) struct Followed {
    thread: Thread,
    /// The calls of the thread from this one on.
    calls: Calls<CallEvent>,
}

impl Followed {
    /// The call that a record opens, before the record is followed.
    pub(crate) fn new(alloc: Global, frame: Frame<'_>) -> Followed
        ensures { HasNone result }
    {
        Followed {
            thread: thread_of(frame),
            calls: Calls::empty(alloc),
        }
    }

    /// Whether a frame belongs to the call's thread.
    pub(crate) fn is_of(&self, frame: Frame<'_>) -> bool {
        self.thread == thread_of(frame)
    }

    /// Takes the next record of the thread.
    pub(crate) fn follow(&mut self, event: CallEvent) -> Result<(), AllocError>
        ensures { OnOk result (FollowsOneMore self.old event self.new) }
    {
        self.calls.follow(event)
    }

    /// Whether nothing that the thread opened from the call on is open.
    pub(crate) fn is_closed(&self) -> bool
        ensures { SaysClosed self.now result }
    {
        self.calls.open_calls().is_empty()
    }
}

/// Whether a record opens a call.
pub(crate) fn is_opener(event: CallEvent) -> bool {
    matches!(
        bracket_of(None, event.kind, event.oneway),
        Bracket::Call | Bracket::Served
    )
}

/// What a record is to the calls of its thread.
pub(crate) fn event_of(record: Record<'_>) -> CallEvent {
    CallEvent {
        place: record.place,
        kind: record.kind,
        oneway: is_oneway(record),
    }
}
