//! A call, and what became of it.

ghost use Rattle.std.specs.Prelude.{◌≡◌};
ghost use Rattle.call_stacks.specs.Calls.{open_call};
ghost use Rattle.call_stacks.specs.Content.{closed_with};

use crate::call_record::CallRecord;
use crate::verdict::{Verdict, verdict_between};

/// A call that a thread made or got to serve, and what became of it.
#[derive(Clone, Copy)]
pub struct Opener<E> {
    /// The event that opens it.
    pub event: E,
    /// What became of it.
    pub verdict: Verdict,
    /// The place of the record that closes it; None if nothing does.
    pub closer: Option<u64>,
}

impl<E: CallRecord> Opener<E> {
    /// A call that nothing has closed so far.
    #[inline(always)]
    pub(crate) fn new(event: E) -> Self
        ensures { result ≡ open_call event }
    {
        Opener {
            event,
            verdict: Verdict::Open,
            closer: None,
        }
    }

    /// The call with its verdict and its closer's place, once this event closes it.
    #[inline(always)]
    pub(crate) fn closed_with(self, closer: E) -> Self
        ensures { result ≡ closed_with E.reads closer self }
    {
        Opener {
            event: self.event,
            verdict: verdict_between(self.event.bracket(None), closer.bracket(None)),
            closer: Some(closer.place()),
        }
    }
}
