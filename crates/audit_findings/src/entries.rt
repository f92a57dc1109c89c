//! The attachments of events that are found by their places.

ghost use Rattle.std.specs.Prelude.{◌≡◌, ◌≢◌, ◌≤◌, ◌+◌, ◌^◌, ◌∷◌, ◌++◌, ℕ, List, drop, length, IfOk, IfSome, IfNone, OnOk};
ghost use Rattle.capture_frame.specs.Envelope.{placed_frame};
ghost use Rattle.transaction_view.specs.Grammar.{IsGood};
ghost use Rattle.audit_findings.specs.Entries.{AddsEntries, AreEntriesAt, entries_in, list_bytes};
ghost use Rattle.audit_findings.specs.Frames.{AreGoodFrames};

use capture_frame::{Frame, FrameSlice};
use event_core::{Event, Events};
use std::alloc::{AllocError, Global};
use transaction_view::Entry;

/// The entries of the events at these places, which rise. A frame is read once for all places in
/// it.
pub(crate) fn entries_at<'c>(
    alloc: Global,
    frames: &FrameSlice<'_, 'c>,
    places: &[u64],
) -> Result<Vec<Entry<'c>>, AllocError>
    requires { AreGoodFrames frames.now }
    ensures few { IfOk result (λ entries. list_bytes entries.items ≤ 2 ^ 32) }
    ensures entries { IfOk result
        (λ entries. AreEntriesAt frames.now places.now entries.items) }
{
    let mut entries = Vec::new(alloc);
    let mut ahead = frames.without_first(0);
    let mut rest = places;
    while let Some(first) = rest.first() {
        // If a record begins at this place, the last frame that begins at or before it holds it.
        let count = ahead.count_begun(*first);
        if count == 0 {
            break;
        }
        rest = add_frame(&mut entries, ahead.get(count - 1), rest)?;
        ahead = ahead.without_first(count);
    }
    Ok(entries)
}

/// Adds the entries of those events of a frame that are at the first of these places, and gives the
/// places that are left.
fn add_frame<'c, 'p>(
    entries: &mut Vec<Entry<'c>>,
    frame: Frame<'c>,
    places: &'p [u64],
) -> Result<&'p [u64], AllocError>
    requires { IsGood (placed_frame frame) }
    ensures few { OnOk result (list_bytes entries.new.items
        ≤ list_bytes entries.old.items + length frame.entry.attachments.now) }
    ensures entries { IfOk result (λ rest. AddsEntries entries.old.items (placed_frame frame.entry)
        places.entry.now entries.new.items rest.now) }
{
    let mut rest = places;
    let mut events = Events::of(frame);
    while let Some(event) = events.next_event() {
        if let Some(others) = after(rest, event.place) {
            add_entry(entries, event)?;
            rest = others;
        }
    }
    Ok(rest)
}

/// The places after the first one, if the first one is this place.
fn after(places: &[u64], place: u64) -> Option<&[u64]>
    ensures some { IfSome result (λ others. places.entry.now ≡ place ∷ others.now) }
    ensures none { IfNone result ((others : List ℕ) → places.entry.now ≢ place ∷ others) }
{
    match places.split_first() {
        Some((first, others)) if *first == place => Some(others),
        _ => None,
    }
}

/// Adds the entry of an event, if it has one.
fn add_entry<'c>(entries: &mut Vec<Entry<'c>>, event: Event<'c>) -> Result<(), AllocError>
    ensures { OnOk result
        (entries.new.items ≡ entries.old.items ++ entries_in event.entry) }
{
    match event.entry {
        Some(entry) => {
            entries.push(entry)?;
            Ok(())
        }
        None => Ok(()),
    }
}
