//! The section `served`.

ghost use Rattle.std.specs.Prelude.{◌≡◌, List, map};
ghost use Rattle.call_stacks.specs.Calls.{how_many, with_verdict};
ghost use Rattle.call_stacks.specs.Verdicts.{is_replied, lacks_reply};
ghost use Rattle.event_core.specs.Events.{EventRead};
ghost use Rattle.audit_findings.specs.Calls.{served_of};
ghost use Rattle.audit_findings.specs.Kept.{call_at_place, served_at_places};
ghost use Rattle.audit_findings.specs.ThreadRows.{AreAll};

use crate::rows::Rows;
use crate::verdicts::count_of;
use call_stacks::{Opener, Verdict};

/// The calls that threads get to serve. `E` is what is kept of the event of a listed call.
#[derive(Drop)]
pub struct Served<E> {
    /// How many there are.
    pub all: u64,
    /// How many the thread replied to.
    pub replied: u64,
    /// How many are crossed: something else closed them.
    pub crossed: u64,
    /// How many are open: nothing closed them.
    pub left_open: u64,
    /// Those that lack their reply: crossed or open, in rising place.
    pub rows: Rows<Opener<E>>,
}

impl Served<u64> {
    /// What is kept of the calls that threads serve, by how many are replied and by the calls that
    /// lack their reply. The sum saturates, as that of `Calls::of`.
    pub(crate) fn of(replied: u64, served: Vec<Opener<u64>>) -> Self
        ensures { (told : List (Opener EventRead)) → replied ≡ how_many is_replied told →
            served.items ≡ map call_at_place (with_verdict lacks_reply told) →
            AreAll told replied served.items → result ≡ served_at_places (served_of told) }
    {
        let calls = served.as_slice();
        Served {
            all: replied.saturating_add(calls.len() as u64),
            replied,
            crossed: count_of(calls, Verdict::Crossed),
            left_open: count_of(calls, Verdict::Open),
            rows: Rows::of(served),
        }
    }
}
