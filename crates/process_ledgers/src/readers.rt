//! What each ledger of a process picks from its events.

ghost use Rattle.event_core.specs.Reading.{event_text};
ghost use Rattle.process_ledgers.specs.Items.{handle_item_of, node_item_of, buffer_pending_of, request_item_of, death_item_of, clear_item_of, oneway_item_of};

use event_core::{
    Event, HandleChange, KeyEvent, NodeChange, NodeKey, OnewayKey, RequestItem, Strength,
    buffer_step, clear_step, death_step, handle_step, node_step, oneway_step, request_step,
};
use std::marker::PhantomData;
use summary_law::Picks;

/// The changes of handles' counts.
pub struct HandleItems<'c>(PhantomData<Event<'c>>);

impl<'c> Picks for HandleItems<'c> {
    type Thing = Event<'c>;

    type Item = (u32, (Strength, HandleChange));

    ghost picks = { λ event. handle_item_of (event_text event) };

    #[inline(always)]
    fn pick(event: Event<'c>) -> Option<(u32, (Strength, HandleChange))> {
        handle_step(event)
    }
}

/// The changes of nodes' counts.
pub struct NodeItems<'c>(PhantomData<Event<'c>>);

impl<'c> Picks for NodeItems<'c> {
    type Thing = Event<'c>;

    type Item = (NodeKey, (Strength, NodeChange));

    ghost picks = { λ event. node_item_of (event_text event) };

    #[inline(always)]
    fn pick(event: Event<'c>) -> Option<(NodeKey, (Strength, NodeChange))> {
        node_step(event)
    }
}

/// Deliveries, which open their buffer's address, and frees, which close it.
pub struct BufferItems<'c>(PhantomData<Event<'c>>);

impl<'c> Picks for BufferItems<'c> {
    type Thing = Event<'c>;

    type Item = (u64, KeyEvent);

    ghost picks = { λ event. buffer_pending_of (event_text event) };

    #[inline(always)]
    fn pick(event: Event<'c>) -> Option<(u64, KeyEvent)> {
        Some(buffer_step(event)?.pending())
    }
}

/// Requests, and what ends them.
pub struct RequestItems<'c>(PhantomData<Event<'c>>);

impl<'c> Picks for RequestItems<'c> {
    type Thing = Event<'c>;

    type Item = RequestItem;

    ghost picks = { λ event. request_item_of (event_text event) };

    #[inline(always)]
    fn pick(event: Event<'c>) -> Option<RequestItem> {
        request_step(event)
    }
}

/// Deaths and acknowledgements.
pub struct DeathItems<'c>(PhantomData<Event<'c>>);

impl<'c> Picks for DeathItems<'c> {
    type Thing = Event<'c>;

    type Item = (u64, KeyEvent);

    ghost picks = { λ event. death_item_of (event_text event) };

    #[inline(always)]
    fn pick(event: Event<'c>) -> Option<(u64, KeyEvent)> {
        death_step(event)
    }
}

/// Clears and confirmations.
pub struct ClearItems<'c>(PhantomData<Event<'c>>);

impl<'c> Picks for ClearItems<'c> {
    type Thing = Event<'c>;

    type Item = (u64, KeyEvent);

    ghost picks = { λ event. clear_item_of (event_text event) };

    #[inline(always)]
    fn pick(event: Event<'c>) -> Option<(u64, KeyEvent)> {
        clear_step(event)
    }
}

/// Oneway transactions.
pub struct OnewayItems<'c>(PhantomData<Event<'c>>);

impl<'c> Picks for OnewayItems<'c> {
    type Thing = Event<'c>;

    type Item = (OnewayKey, u64);

    ghost picks = { λ event. oneway_item_of (event_text event) };

    #[inline(always)]
    fn pick(event: Event<'c>) -> Option<(OnewayKey, u64)> {
        oneway_step(event)
    }
}
