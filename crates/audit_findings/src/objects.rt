//! The section `objects`.

ghost use Rattle.std.specs.Prelude.{◌≡◌, ◌+◌, ◌<◌, ◌^◌, ◌∷◌, [], length, IfOk, OnOk};
ghost use Rattle.event_core.specs.Reading.{event_text};
ghost use Rattle.object_view.specs.declared.sort.Sort.{Sort};
ghost use Rattle.object_view.specs.Objects.{objects_of};
ghost use Rattle.summary_law.specs.Summary.{CanAdd, Adds, CanJoin, Joins};
ghost use Rattle.audit_findings.specs.Objects.{sort_count, times_of, good_objects, bad_objects, owned_by};
ghost use Rattle.audit_findings.specs.Ledgers.{SumsObjects, AreFewEvents, offset_bytes_of};

use crate::sort_counts::SortCounts;
use event_core::Event;
use object_view::{BadObject, Objects};
use std::alloc::{AllocError, Global};
use transaction_view::Entry;

/// A bad object, and its owner.
#[derive(Clone, Copy, Debug)]
pub struct BadRow<E> {
    /// What is kept of the record that owns the attachment.
    pub owner: E,
    /// The object.
    pub bad: BadObject,
}

/// How many good objects of each sort there are, and the bad ones.
#[derive(Drop)]
pub(crate) struct ObjectLedger {
    pub counts: SortCounts,
    pub bad: Vec<BadRow<u64>>,
}

impl ObjectLedger {
    pub fn empty(alloc: Global) -> Self
        ensures { SumsObjects result [] }
    {
        ObjectLedger {
            counts: SortCounts::NONE,
            bad: Vec::new(alloc),
        }
    }

    /// Adds the objects of an event's attachment.
    pub fn add(&mut self, event: Event<'_>) -> Result<(), AllocError>
        requires { CanAdd SumsObjects AreFewEvents self.old (event_text event) }
        ensures { OnOk result
            (Adds SumsObjects AreFewEvents self.old (event_text event.entry) self.new) }
    {
        if let Some(bad) = count_attachment(&mut self.counts, event) {
            self.bad.push(BadRow {
                owner: event.place,
                bad,
            })?;
        }
        Ok(())
    }

    /// The ledger of these events and of the later ones.
    pub fn join(self, later: ObjectLedger) -> Result<ObjectLedger, AllocError>
        requires { CanJoin SumsObjects AreFewEvents self later }
        ensures { IfOk result (Joins SumsObjects AreFewEvents self later) }
    {
        let mut bad = self.bad;
        bad.extend_from_slice(later.bad.as_slice())?;
        Ok(ObjectLedger {
            counts: self.counts.plus(later.counts),
            bad,
        })
    }
}

/// Counts the objects of an event's attachment up to the first bad one, and gives that one.
fn count_attachment(counts: &mut SortCounts, event: Event<'_>) -> Option<BadObject>
    requires { (sort : Sort) →
        sort_count counts.old sort + offset_bytes_of (event_text event) < 2 ^ 64 }
    ensures counted { (sort : Sort) → sort_count counts.new sort ≡ sort_count counts.old sort
        + times_of sort (good_objects (event_text event.entry ∷ [])) }
    ensures bad { bad_objects (event_text event.entry ∷ [])
        ≡ owned_by (event_text event.entry) result }
{
    match event.entry {
        Some(entry) => count_entry(counts, entry),
        None => None,
    }
}

/// Counts the objects of an attachment up to the first bad one, and gives that one.
fn count_entry(counts: &mut SortCounts, entry: Entry<'_>) -> Option<BadObject>
    requires { (sort : Sort) → sort_count counts.old sort + length entry.offsets.now < 2 ^ 64 }
    ensures counted { (sort : Sort) → sort_count counts.new sort ≡ sort_count counts.old sort
        + times_of sort (objects_of entry.entry.body.now entry.entry.offsets.now).good }
    ensures bad { result ≡ (objects_of entry.entry.body.now entry.entry.offsets.now).bad }
{
    let mut objects = Objects::of(entry);
    while let Some(next) = objects.next_object() {
        match next {
            Ok(object) => counts.add(object.sort),
            Err(bad) => return Some(bad),
        }
    }
    None
}
