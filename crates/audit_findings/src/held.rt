//! The references that attachments hold.

ghost use Rattle.std.specs.Prelude.{◌≤◌, ◌^◌, length, IfOk, OnOk};
ghost use Rattle.audit_findings.specs.Entries.{list_bytes};
ghost use Rattle.audit_findings.specs.HeldCounts.{CountsEntries, CountsObjects, HasRoom};

use object_view::{Objects, held_step};
use std::alloc::{AllocError, Global};
use summary_law::{Summary, Tally};
use transaction_view::Entry;

/// Held references by handle; strong and weak ones are counted apart.
pub(crate) type HeldTally = Tally<(u32, bool)>;

/// Counts the references that the attachments of these entries hold.
pub(crate) fn held_by(alloc: Global, entries: &[Entry<'_>]) -> Result<HeldTally, AllocError>
    requires { list_bytes entries.now ≤ 2 ^ 32 }
    ensures { IfOk result (CountsEntries entries.now) }
{
    let mut held = Tally::empty(alloc);
    for entry in entries {
        add_objects(&mut held, *entry)?;
    }
    Ok(held)
}

/// Adds the references among the objects of an attachment, up to the first bad one.
fn add_objects(held: &mut HeldTally, entry: Entry<'_>) -> Result<(), AllocError>
    requires { HasRoom held.old (length entry.offsets.now) }
    ensures { OnOk result
        (CountsObjects held.old entry.entry.body.now entry.entry.offsets.now held.new) }
{
    let mut objects = Objects::of(entry);
    while let Some(next) = objects.next_object() {
        match next {
            Ok(object) => {
                if let Some(reference) = held_step(object) {
                    held.add((reference, 0))?;
                }
            }
            Err(_bad) => return Ok(()),
        }
    }
    Ok(())
}
