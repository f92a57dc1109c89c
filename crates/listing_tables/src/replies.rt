//! Pairs replies, once the calls that they answer are paired.

ghost use Rattle.std.specs.Prelude.{◌≡◌, ◌⊎◌, IfOk, IfSome, OnOk};
ghost use Rattle.std.specs.Bool.{OnTrue};

use crate::certainty::{rate_of_reply, replied_by};
use crate::pairs::{Ends, Pairing};
use binder_code::Kind;
use listing_fields::{ListingError, Outcome};

impl Pairing<'_> {
    ghost use Rattle.listing_tables.specs.Pairing.{HasEnds, HasNoGap, PairsReply, messages_of};
    ghost use Rattle.listing_tables.specs.Turns.{MakesEach, PairsIfReplied, count_of};

    /// Finds the deliveries of all replies to calls whose own delivery is found.
    pub(crate) fn pair_replies(&mut self) -> Outcome
        ensures { OnOk result (MakesEach PairsIfReplied self.old self.new (count_of self.old)) }
    {
        for index in 0..self.messages.list.next()? {
            self.pair_reply(index)?;
        }
        Ok(())
    }

    /// Finds the delivery of the reply to a call whose own delivery is found.
    fn pair_reply(&mut self, index: u32) -> Outcome
        ensures pairs { OnOk result ((messages_of self.new ≡ messages_of self.old)
            ⊎ PairsReply self.old index (messages_of self.new)) }
        ensures same { OnOk result (self.new ≡ record self.old { messages = self.new.messages }) }
    {
        let found = self.ends_of(index)?;
        let Some(ends) = found else {
            return Ok(());
        };
        let sent = self.messages.sent(ends.send)?;
        let is_whole = self.is_whole(&ends)?;
        let rate = rate_of_reply(&sent, is_whole);
        self.messages.rate(ends.replied, rate.0, rate.1)?;
        self.messages.couple(ends.replied, ends.answered.message)
    }

    /// Whether no frame is missing from the send of a call to its answer.
    pub(crate) fn is_whole(&self, ends: &Ends) -> Result<bool, ListingError>
        ensures { IfOk result (λ whole. OnTrue whole (HasNoGap self.now ends.now)) }
    {
        let send = self.messages.list.at(ends.send)?;
        let gaps = self.facts.seen.gaps_before(ends.answered.place)?;
        Ok(gaps == send.gaps)
    }

    /// The ends of the call that a delivery opens, if its send is found.
    pub(crate) fn ends_of(&self, index: u32) -> Result<Option<Ends>, ListingError>
        ensures { IfOk result (λ found. IfSome found (HasEnds self.now index)) }
    {
        let delivery = self.messages.list.at(index)?;
        if !matches!(
            delivery.kind,
            Kind::BrTransaction | Kind::BrTransactionSecCtx
        ) {
            return Ok(None);
        }
        let Some(send) = delivery.partner else {
            return Ok(None);
        };
        let opener = self.messages.list.at(send)?;
        let opened = self.facts.calls.find(opener.call)?;
        let Some(made) = opened else {
            return Ok(None);
        };
        let begun = self.facts.calls.find(delivery.call)?;
        let Some(served) = begun else {
            return Ok(None);
        };
        let Some(answered) = made.closer else {
            return Ok(None);
        };
        let Some(replied) = replied_by(served) else {
            return Ok(None);
        };
        if !made.is_answered() {
            return Ok(None);
        }
        if !self.messages.are_alike(replied, answered)? {
            return Ok(None);
        }
        Ok(Some(Ends {
            replied: replied.message,
            answered,
            send,
        }))
    }
}
