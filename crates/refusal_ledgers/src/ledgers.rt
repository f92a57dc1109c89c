//! The calls of the ledgers, and what each gives of its items.

use crate::events::{Whose, events_of};
use crate::fits::is_short;
use crate::no_answer::{NoAnswer, Printed};
use crate::placed::is_placed;
use crate::sums::{Way, summed};
use crate::told;
use call_stacks::ThreadCalls;
use event_core::{
    Event, KeyEvent, OnewayKey, buffer_step, clear_step, death_step, handle_step, node_step,
    oneway_step, request_step,
};
use handle_ledger::{HandleLedger, NodeLedger};
use object_view::{Objects, held_step};
use pending_ledger::{Buffers, Clears, Deaths, Requests};
use std::alloc::{AllocError, Global};
use std::io::Write;
use summary_law::Tally;
use transaction_view::Entry;

/// The items that a step reads in some events.
macro_rules! items {
    ($alloc:expr, $events:expr, $step:expr) => {{
        let mut items = Vec::new($alloc);
        for event in $events {
            if let Some(item) = $step(*event) {
                items.push(item).map_err(AllocError::from)?;
            }
        }
        items
    }};
}

/// Sums the items that a step reads in the events of the first frame's process, if they fit, and
/// prints these lists of the ledger.
macro_rules! tell_ledger {
    ($alloc:expr, $capture:expr, $way:expr, $out:expr;
        $step:ident, $fits:ident, $ledger:ty: $($list:ident)*) => {{
        let events = events_of($alloc, $capture, Whose::Process)?;
        let items = items!($alloc, &events, $step);
        if !$fits(items.as_slice()) {
            return Err(NoAnswer::Unfit);
        }
        let ledger: $ledger = summed($alloc, items.as_slice(), $way)?;
        // All lists are made before the first is printed, so nothing is printed before `Memory`.
        let lists = ($(ledger.$list()?,)*);
        told::value(&lists, $out)
    }};
}

pub(crate) fn tally<W: Write>(alloc: Global, bytes: &[u8], way: Way, out: &mut W) -> Printed {
    tell_ledger!(alloc, bytes, way, out; code_step, is_short, Tally<u32>: rows)
}

/// The code word of a record, with the length of its payload.
fn code_step(event: Event<'_>) -> Option<(u32, u64)> {
    Some((event.code.0, event.payload.len() as u64))
}

pub(crate) fn handles<W: Write>(alloc: Global, bytes: &[u8], way: Way, out: &mut W) -> Printed {
    tell_ledger!(alloc, bytes, way, out; handle_step, is_short, HandleLedger: rows)
}

pub(crate) fn nodes<W: Write>(alloc: Global, bytes: &[u8], way: Way, out: &mut W) -> Printed {
    tell_ledger!(alloc, bytes, way, out; node_step, is_short, NodeLedger: rows)
}

/// The open of a buffer's address by a delivery, or its close by a free.
fn buffer_pending(event: Event<'_>) -> Option<(u64, KeyEvent)> {
    Some(buffer_step(event)?.pending())
}

pub(crate) fn buffers<W: Write>(alloc: Global, bytes: &[u8], way: Way, out: &mut W) -> Printed {
    tell_ledger!(alloc, bytes, way, out; buffer_pending, is_placed, Buffers: outstanding strays)
}

pub(crate) fn deaths<W: Write>(alloc: Global, bytes: &[u8], way: Way, out: &mut W) -> Printed {
    tell_ledger!(alloc, bytes, way, out; death_step, is_placed, Deaths: outstanding strays)
}

pub(crate) fn clears<W: Write>(alloc: Global, bytes: &[u8], way: Way, out: &mut W) -> Printed {
    tell_ledger!(alloc, bytes, way, out; clear_step, is_placed, Clears: outstanding strays)
}

pub(crate) fn requests<W: Write>(alloc: Global, bytes: &[u8], way: Way, out: &mut W) -> Printed {
    tell_ledger!(alloc, bytes, way, out; request_step, is_placed, Requests: outstanding)
}

pub(crate) fn oneway<W: Write>(alloc: Global, bytes: &[u8], way: Way, out: &mut W) -> Printed {
    tell_ledger!(alloc, bytes, way, out; oneway_step, is_short, Tally<OnewayKey>: rows)
}

/// The references that the objects of the events' attachments carry, each with the weight 0.
fn held_items(alloc: Global, events: &[Event<'_>]) -> Result<Vec<((u32, bool), u64)>, AllocError> {
    let mut items = Vec::new(alloc);
    for event in events {
        if let Some(entry) = event.entry {
            push_held(entry, &mut items)?;
        }
    }
    Ok(items)
}

fn push_held(entry: Entry<'_>, items: &mut Vec<((u32, bool), u64)>) -> Result<(), AllocError> {
    let mut objects = Objects::of(entry);
    for _ in 0..entry.offsets.len() {
        if let Some(Ok(object)) = objects.next_object()
            && let Some(held) = held_step(object)
        {
            items.push((held, 0))?;
        }
    }
    Ok(())
}

pub(crate) fn held<W: Write>(alloc: Global, bytes: &[u8], way: Way, out: &mut W) -> Printed {
    let events = events_of(alloc, bytes, Whose::Process)?;
    let items = items!(alloc, &events, handle_step);
    let held = held_items(alloc, events.as_slice())?;
    if !is_short(items.as_slice()) || !is_short(held.as_slice()) {
        return Err(NoAnswer::Unfit);
    }
    let ledger: HandleLedger = summed(alloc, items.as_slice(), way)?;
    let tally: Tally<(u32, bool)> = summed(alloc, held.as_slice(), way)?;
    told::value(&ledger.rows_held(&tally)?, out)
}

pub(crate) fn calls<W: Write>(alloc: Global, bytes: &[u8], way: Way, out: &mut W) -> Printed {
    let events = events_of(alloc, bytes, Whose::Thread)?;
    tell_calls(alloc, events.as_slice(), way, out)
}

fn tell_calls<W: Write>(alloc: Global, events: &[Event<'_>], way: Way, out: &mut W) -> Printed {
    if !is_placed(events) {
        return Err(NoAnswer::Unfit);
    }
    let calls: ThreadCalls<'_> = summed(alloc, events, way)?;
    told::calls(&calls.finish()?, out)
}
