//! The section `refused`.

ghost use Rattle.std.specs.Prelude.{◌≡◌, ℕ, List, map, count_by, IfOk};
ghost use Rattle.call_stacks.specs.declared.findings.RefusedSend.{RefusedSend};
ghost use Rattle.event_core.specs.Events.{EventRead};
ghost use Rattle.audit_findings.specs.Calls.{refused_of};
ghost use Rattle.audit_findings.specs.Kept.{refused_at_places};
ghost use Rattle.audit_findings.specs.ThreadRows.{send_at_place};

use crate::rows::Rows;
use call_stacks::RefusedSend;
use std::alloc::{AllocError, Global};

/// The error replies that report refused sends.
#[derive(Drop)]
pub struct Refused<E> {
    /// How many of the refused sends were oneway; this is in the head of `oneway`.
    pub oneway: u64,
    /// What is kept of each error reply, in rising place.
    pub rows: Rows<E>,
}

impl Refused<u64> {
    /// What is kept of these refused sends.
    pub(crate) fn of(alloc: Global, sends: &[RefusedSend<u64>]) -> Result<Self, AllocError>
        ensures { IfOk result (λ kept. (told : List (RefusedSend EventRead)) →
            sends.now ≡ map send_at_place told →
            kept ≡ refused_at_places (refused_of told)) }
    {
        let places = places_of(alloc, sends)?;
        Ok(Refused {
            oneway: oneway_count(sends),
            rows: Rows::of(places),
        })
    }
}

fn oneway_count(sends: &[RefusedSend<u64>]) -> u64
    ensures { result ≡ count_by (λ (s : RefusedSend ℕ). s.oneway) sends.now }
{
    sends.iter().filter(|sent| sent.oneway).count() as u64
}

fn places_of(alloc: Global, sends: &[RefusedSend<u64>]) -> Result<Vec<u64>, AllocError>
    ensures { IfOk result (λ places.
        places.items ≡ map (λ (s : RefusedSend ℕ). s.event) sends.now) }
{
    let mut places = Vec::new(alloc);
    for sent in sends {
        places.push(sent.event)?;
    }
    Ok(places)
}
