//! What follows from the calls, once they are found.

ghost use Rattle.std.specs.Prelude.{◌≡◌};
ghost use Rattle.listing_tables.specs.Gaps.{is_outermost};

use crate::calls::Call;
use crate::held::HeldCounts;
use crate::levels::Resource;
use crate::messages::{Detail, Message, Path};
use crate::numbered::Numbered;
use crate::spans::{Spans, Upid};
use crate::traffic::Traffic;
use binder_code::Kind;
use listing_fields::{ListingError, Outcome};
use std::alloc::Global;

impl Traffic {
    /// Goes through the messages again, with their calls. Then they can be paired.
    pub(crate) fn follow(
        &mut self,
        alloc: Global,
        calls: &Numbered<Call>,
        spans: &Spans,
    ) -> Outcome {
        for index in 0..calls.next()? {
            self.link(index, calls)?;
        }
        let mut held = HeldCounts::new(alloc);
        self.follow_all(calls, spans, &mut held)
    }

    /// Follows all messages, in order.
    fn follow_all(
        &mut self,
        calls: &Numbered<Call>,
        spans: &Spans,
        held: &mut HeldCounts,
    ) -> Outcome {
        for index in 0..self.messages.list.next()? {
            let message = self.messages.list.at(index)?;
            let upid = spans.upid_of(message.utid)?;
            let call = calls.find(message.call)?;
            self.follow_one(&message, call, upid, held)?;
        }
        Ok(())
    }

    /// Follows a message. It may be of a call, and it may be a delivery.
    fn follow_one(
        &mut self,
        message: &Message,
        call: Option<Call>,
        upid: Upid,
        held: &mut HeldCounts,
    ) -> Outcome {
        if let Some(call) = call {
            self.follow_call(message, &call, upid)?;
        }
        match message.detail {
            Detail::Delivered(buffer) => self.follow_delivery(message, buffer, call, upid, held),
            _ => Ok(()),
        }
    }

    /// Notes which call its opener opens, and which its closer closes.
    fn link(&mut self, index: u32, calls: &Numbered<Call>) -> Outcome {
        let call = calls.at(index)?;
        self.messages.list.at_mut(call.opener)?.call = Some(index);
        if let Some(closer) = call.closer {
            self.messages.list.at_mut(closer.message)?.call = Some(index);
        }
        Ok(())
    }

    /// Follows a call that a message opens or closes.
    fn follow_call(&mut self, message: &Message, call: &Call, upid: Upid) -> Outcome {
        let resource = if call.served {
            Resource::Served
        } else {
            Resource::Calls
        };
        self.levels.go_to(message.sequence);
        if call.place == message.place {
            self.levels.raise(upid, resource, 1)
        } else {
            self.levels.lower(upid, resource, 1)
        }
    }

    /// Follows a delivery, which may open or close a call, and notes how many buffers of its path
    /// are held right after it.
    fn follow_delivery(
        &mut self,
        message: &Message,
        index: u32,
        call: Option<Call>,
        upid: Upid,
        held: &mut HeldCounts,
    ) -> Outcome {
        if is_outermost(message, call) {
            self.seen.take_delivery(message.utid, upid, message.place)?;
        }
        let path = self.path_at(message, index, call, upid)?;
        held.let_go(&self.buffers, message.place)?;
        let count = held.hold(path)?;
        self.buffers.keep_path(index, path, count)
    }

    /// The index of the path of a delivery, whose buffer has this index.
    fn path_at(
        &mut self,
        message: &Message,
        index: u32,
        call: Option<Call>,
        upid: Upid,
    ) -> Result<u32, ListingError> {
        match call {
            Some(call) if message.kind == Kind::BrReply && call.is_answered() => {
                self.answer_path(&call, upid)
            }
            _ => Ok(self.buffers.list.at(index)?.path),
        }
    }

    /// The index of the path of the replies to a known call.
    fn answer_path(&mut self, call: &Call, upid: Upid) -> Result<u32, ListingError> {
        let sent = self.messages.sent(call.opener)?;
        self.messages.index_of(Path {
            upid,
            sort: 2,
            code: sent.code,
            target: u64::from(sent.handle),
            cookie: 0,
        })
    }
}

/// Whether a delivery is a oneway transaction, or a call that comes within no other one.
fn is_outermost(delivery: &Message, call: Option<Call>) -> bool
    ensures { result ≡ is_outermost delivery.now call }
{
    match call {
        Some(call) => call.place == delivery.place && call.depth == 1,
        None => delivery.oneway,
    }
}
