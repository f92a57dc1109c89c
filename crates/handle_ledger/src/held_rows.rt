//! The rows of handles, with the references that deliveries hold.

ghost use Rattle.handle_ledger.specs.Held.{GivesHandleCounts, HasHandles, GivesHeldRow, GivesHeldRows};
ghost use Rattle.std.specs.BTreeMap.{IsOrdered};
ghost use Rattle.std.specs.BTreeSet.{contains};
ghost use Rattle.std.specs.List.{list_any};
ghost use Rattle.std.specs.Map.{keys_of};
ghost use Rattle.std.specs.Ordering.{eq_by_cmp, nat_cmp};
ghost use Rattle.std.specs.Prelude.{◌≡◌, ℕ, IfOk};

use crate::handle_counts::HandleCounts;
use crate::handles::HandleLedger;
use crate::held_row::HeldRow;
use std::alloc::AllocError;
use std::collections::BTreeSet;
use summary_law::{Summary, Tally};

impl HandleLedger {
    /// A row for each handle that an item names or to which a reference is held, even if all its
    /// counts are 0, handles rising. A held reference is a handle and whether the reference is
    /// weak; its weight does not matter. Takes a set of these handles, and three look-ups for each.
    pub fn rows_held(&self, held: &Tally<(u32, bool)>) -> Result<Vec<HeldRow>, AllocError>
        ensures { IfOk result (λ rows. GivesHeldRows self.now held.now rows.items) }
    {
        let handles = self.named_or_held(held)?;
        let mut rows = Vec::new(self.handles.allocator());
        for handle in &handles {
            rows.push(self.held_row(*handle, held))?;
        }
        Ok(rows)
    }

    /// The handles that have a row.
    fn named_or_held(&self, held: &Tally<(u32, bool)>) -> Result<BTreeSet<u32>, AllocError>
        ensures { IfOk result (λ handles. HasHandles self.now held.now handles) }
    {
        let mut handles = self.named()?;
        let rows = held.rows()?;
        for row in rows.as_slice() {
            handles.insert(row.0.0)?;
        }
        Ok(handles)
    }

    /// The handles that an item names.
    fn named(&self) -> Result<BTreeSet<u32>, AllocError>
        ensures named { IfOk result (λ handles. (handle : ℕ) → contains nat_cmp handles handle ≡
            list_any (eq_by_cmp nat_cmp handle) (keys_of self.now.handles.entries)) }
        ensures ordered { IfOk result (λ handles. IsOrdered nat_cmp self.now.handles) }
    {
        let mut handles = BTreeSet::new(self.handles.allocator());
        for (handle, _) in &self.handles {
            handles.insert(*handle)?;
        }
        Ok(handles)
    }

    /// The row of a handle, even if no item names it and no reference to it is held.
    fn held_row(&self, handle: u32, held: &Tally<(u32, bool)>) -> HeldRow
        ensures { GivesHeldRow self.now held.now handle result }
    {
        HeldRow {
            handle,
            taken: self.taken(handle),
            held_strong: held.amount((handle, false)).count,
            held_weak: held.amount((handle, true)).count,
        }
    }

    /// What the process itself took of a handle: nothing if no item names it.
    fn taken(&self, handle: u32) -> HandleCounts
        ensures { GivesHandleCounts self.now handle result }
    {
        match self.handles.get(handle) {
            Some(counts) => *counts,
            None => HandleCounts::empty(self.handles.allocator()),
        }
    }
}
