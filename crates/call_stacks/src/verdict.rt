//! What becomes of a call.

ghost use Rattle.std.specs.Prelude.{◌≡◌};
ghost use Rattle.call_stacks.specs.Verdicts.{verdict_of, has_reply};

use event_core::Bracket;

/// What becomes of a call that a thread makes, or of one that it gets to serve.
#[derive(Clone, Copy, Debug)]
pub enum Verdict {
    /// The thread got a reply to the call that it made.
    Answered,
    /// The thread got an error reply in place of a reply to the call that it made.
    Failed,
    /// The thread sent a reply to the call that it served.
    Replied,
    /// What closes it can't be its answer: the thread sent a reply where it waited for one, or it
    /// got a reply or an error reply where it was to send one.
    Crossed,
    /// Nothing closes it.
    Open,
}

impl Verdict {
    /// Whether the call has its reply.
    pub(crate) fn has_reply(self) -> bool
        ensures { result ≡ has_reply self }
    {
        matches!(self, Verdict::Answered | Verdict::Replied)
    }
}

/// The verdict of an opener by the closer that matches it.
pub(crate) fn verdict_between(opener: Bracket, closer: Bracket) -> Verdict
    ensures { result ≡ verdict_of opener closer }
{
    match opener {
        Bracket::Call => verdict_of_call(closer),
        Bracket::Served if closer == Bracket::Sent => Verdict::Replied,
        _ => Verdict::Crossed,
    }
}

/// The verdict of a call that the thread made.
fn verdict_of_call(closer: Bracket) -> Verdict
    ensures { result ≡ verdict_of Bracket.Call closer }
{
    match closer {
        Bracket::Reply => Verdict::Answered,
        Bracket::Error => Verdict::Failed,
        _ => Verdict::Crossed,
    }
}
