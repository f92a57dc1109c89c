//! The section `calls`.

ghost use Rattle.std.specs.Prelude.{◌≡◌, List, map};
ghost use Rattle.call_stacks.specs.Calls.{how_many, with_verdict};
ghost use Rattle.call_stacks.specs.Verdicts.{is_answered, lacks_reply};
ghost use Rattle.event_core.specs.Events.{EventRead};
ghost use Rattle.audit_findings.specs.Calls.{calls_of};
ghost use Rattle.audit_findings.specs.Kept.{call_at_place, made_at_places};
ghost use Rattle.audit_findings.specs.ThreadRows.{AreAll};

use crate::rows::Rows;
use crate::verdicts::count_of;
use call_stacks::{Opener, Verdict};

/// The calls that threads make. `E` is what is kept of the event of a listed call.
#[derive(Drop)]
pub struct Calls<E> {
    /// How many there are.
    pub all: u64,
    /// How many got their reply.
    pub answered: u64,
    /// How many an error reply closed.
    pub failed: u64,
    /// How many are crossed or open.
    pub unanswered: u64,
    /// Those that lack their reply: failed, crossed or open, in rising place.
    pub rows: Rows<Opener<E>>,
}

impl Calls<u64> {
    /// What is kept of the calls that threads make, by how many are answered and by the calls that
    /// lack their reply. No capture has 2^64 records; only the caller knows it, so the sum
    /// saturates.
    pub(crate) fn of(answered: u64, made: Vec<Opener<u64>>) -> Self
        ensures { (told : List (Opener EventRead)) → answered ≡ how_many is_answered told →
            made.items ≡ map call_at_place (with_verdict lacks_reply told) →
            AreAll told answered made.items → result ≡ made_at_places (calls_of told) }
    {
        let calls = made.as_slice();
        let crossed = count_of(calls, Verdict::Crossed);
        let open = count_of(calls, Verdict::Open);
        Calls {
            all: answered.saturating_add(calls.len() as u64),
            answered,
            failed: count_of(calls, Verdict::Failed),
            unanswered: crossed + open,
            rows: Rows::of(made),
        }
    }
}
