//! Which sends a delivery may have come from, and what is certain of it. viewer/database/schema.sql
//! says how.

ghost use Rattle.std.specs.Prelude.{◌≡◌, ◌⊎◌, ◌&&◌, ◌+◌, if◌then◌else◌, true, None, Some, slice_get};
ghost use Rattle.std.specs.Prelude.{IfOk, IfSome, OnOk};
ghost use Rattle.std.specs.Bool.{OnTrue, OnFalse};
ghost use Rattle.listing_tables.specs.Certainty.{IsElsewhere, IsFit, IsJustified};
ghost use Rattle.listing_tables.specs.Certainty.{IsOtherCall, IsRefused, IsRepliedBy};
ghost use Rattle.listing_tables.specs.Certainty.{LieApart, LieBadly, LooksAtAll, LooksAtOne};
ghost use Rattle.listing_tables.specs.Certainty.{SpeaksAgainst};
ghost use Rattle.listing_tables.specs.OneHandle.{LeavesFits};
ghost use Rattle.listing_tables.specs.declared.calls.Closer.{Closer};
ghost use Rattle.listing_tables.specs.declared.messages.Detail.TheVariants.{Sent as IsSent};

use crate::calls::{Call, Closer};
use crate::fitting::{Fit, Fitting, Meant};
use crate::generations::Generations;
use crate::marks::{Mark, is_unmarked};
use crate::meanings::Meanings;
use crate::messages::{Detail, Message, Messages, Sent, Settled};
use crate::numbered::Numbered;
use crate::seen::Seen;
use crate::spans::Upid;
use crate::waiting::{Look, Waiting, list_of};
use call_stacks::Verdict;
use listing_fields::{ListingError, Outcome};

/// The recorder gives numbers from here on to a process whose id is taken already.
const MADE_UP: u32 = 4_194_304;

/// A delivery whose send is looked for.
#[derive(Clone, Copy)]
pub(crate) struct Sought {
    pub index: u32,
    pub message: Message,
    /// Its sender_pid.
    pub sender: i32,
    /// The node to which it came, and the process of that.
    pub node: u32,
    pub upid: Upid,
}

/// What is certain of the send that a delivery came from.
#[derive(Clone, Copy)]
pub(crate) enum Certainty {
    /// It is this one.
    Sure(Fit),
    /// It is one of those that fit, and one process sent them all by one handle.
    OneHandle,
    /// It is one of those that fit.
    Several,
    Unknown,
}

/// A send that a delivery may have come from, and its rank.
#[derive(Clone, Copy)]
struct Ranked {
    rank: u8,
    fit: Fit,
}

/// What speaks for and against the sends that deliveries may have come from.
#[derive(Clone, Copy)]
pub(crate) struct Evidence<'j> {
    pub messages: &'j Messages,
    pub calls: &'j Numbered<Call>,
    pub generations: &'j Generations,
    pub seen: &'j Seen,
    pub meanings: &'j Meanings,
    pub waiting: &'j Waiting,
    /// Of each message.
    pub marks: &'j Numbered<Mark>,
}

impl Evidence<'_> {
    /// What is certain of the send that a delivery came from.
    pub(crate) fn certainty_of(
        &self,
        fitting: &mut Fitting,
        sought: &Sought,
    ) -> Result<Certainty, ListingError>
        ensures justified { IfOk result (λ certainty. IsJustified self.now sought.now certainty) }
        ensures left { IfOk result (LeavesFits self.now sought.now fitting.new) }
    {
        let message = sought.message;
        let all_there = self
            .seen
            .has_all(sought.upid, sought.node, message.place, message.gaps)?;
        self.look_at_all(fitting, sought, all_there)?;
        if fitting.rank != 0 || !fitting.is_whole || !all_there {
            return Ok(Certainty::Unknown);
        }
        if !fitting.are_alike() {
            return Ok(Certainty::Several);
        }
        if let Some(fit) = fitting.only(message.oneway) {
            return Ok(Certainty::Sure(fit));
        }
        if message.oneway {
            fitting.keep_next();
        }
        Ok(Certainty::OneHandle)
    }

    /// Looks at the sends that a delivery may have come from, as many as there is room for.
    fn look_at_all(&self, fitting: &mut Fitting, sought: &Sought, has_all: bool) -> Outcome
        ensures { OnOk result (LooksAtAll self.now sought.now fitting.new) }
    {
        fitting.begin();
        let key = sought.message.key;
        let list = list_of(sought.node)?;
        let is_whole = self.waiting.look(key, list, &mut fitting.looked)?;
        fitting.is_whole = is_whole;
        for at in 0..fitting.looked.len() {
            let look = fitting.looked[at];
            self.look_at(fitting, sought, look, has_all)?;
        }
        Ok(())
    }

    fn look_at(&self, fitting: &mut Fitting, sought: &Sought, look: Look, has_all: bool) -> Outcome
        ensures { OnOk result (LooksAtOne self.now sought.now look fitting.old fitting.new) }
    {
        match self.fit_of(sought, look, has_all)? {
            Some(ranked) => fitting.add(ranked.rank, ranked.fit),
            None => Ok(()),
        }
    }

    /// What is known of a send that is looked at, with its rank for the delivery, if it can be the
    /// one.
    fn fit_of(
        &self,
        sought: &Sought,
        look: Look,
        has_all: bool,
    ) -> Result<Option<Ranked>, ListingError>
        ensures none { IfOk result (λ found. found ≡ None →
            SpeaksAgainst self.now sought.now look.listed.index) }
        ensures fit { IfOk result (λ found. IfSome found (λ ranked.
            IsFit self.now look ranked.fit)) }
        ensures rank { IfOk result (λ found. IfSome found (λ ranked.
            (ranked.rank ≡ 0) ⊎ SpeaksAgainst self.now sought.now look.listed.index)) }
        ensures gaps { IfOk result (λ found. IfSome found (λ ranked.
            has_all ≡ true → ranked.fit.gaps ≡ sought.now.message.gaps)) }
    {
        let listed = look.listed;
        let send = self.messages.list.at(listed.index)?;
        let Detail::Sent(sent) = send.detail else {
            return Err(ListingError::TooLarge);
        };
        if has_all && send.gaps != sought.message.gaps {
            return Ok(None);
        }
        if listed.list == 0 && self.is_elsewhere(sought, &send, &sent)? {
            return Ok(None);
        }
        let rank = self.rank_of(&send, &sent, sought)?;
        let fit = self.fit_at(look, &send, &sent, sought.node)?;
        Ok(Some(Ranked { rank, fit }))
    }

    /// What is known of a send that is looked at, and that can be the one.
    fn fit_at(
        &self,
        look: Look,
        send: &Message,
        sent: &Sent,
        node: u32,
    ) -> Result<Fit, ListingError>
        requires at { slice_get self.now.messages.now.list.all.items look.listed.index ≡ Some send.now }
        requires is { send.now.detail ≡ IsSent sent.now }
        ensures fit { IfOk result (IsFit self.now look) }
        ensures gaps { IfOk result (λ fit. fit.gaps ≡ send.now.gaps) }
    {
        let unmarked = is_unmarked(self.marks, look.listed.index)?;
        Ok(Fit {
            listed: look.listed,
            guessed: look.guessed,
            fresh: !look.guessed && !is_refused(sent) && unmarked,
            meant: self.meant_by(sent, node)?,
            sent: *sent,
            place: send.place,
            gaps: send.gaps,
            utid: send.utid,
            closer: self.closer_of(send)?,
        })
    }

    /// Whether a send goes to another node than that of a delivery.
    fn is_elsewhere(
        &self,
        sought: &Sought,
        send: &Message,
        sent: &Sent,
    ) -> Result<bool, ListingError>
        ensures { IfOk result (λ elsewhere. OnTrue elsewhere (
            IsElsewhere self.now sought.now send.now sent.now)) }
    {
        let Some(generation) = sent.generation else {
            return Ok(false);
        };
        // No process has a handle of its own node.
        if self.generations.list.at(generation)?.upid.index == sought.upid.index {
            return Ok(true);
        }
        self.meanings
            .has_other(generation, send.gaps, sought.node, self.generations)
    }

    /// What the target of a send means beside a node.
    fn meant_by(&self, sent: &Sent, node: u32) -> Result<Meant, ListingError> {
        if is_refused(sent) {
            return Ok(Meant::Other);
        }
        let Some(generation) = sent.generation else {
            return Ok(Meant::Unknown);
        };
        match self.meanings.first_node_of(generation)? {
            Some(other) if other == node => Ok(Meant::This),
            Some(_) => Ok(Meant::Other),
            None => Ok(Meant::Unknown),
        }
    }

    /// The place of the closer of a send's call.
    fn closer_of(&self, send: &Message) -> Result<Option<u32>, ListingError> {
        match self.calls.find(send.call)? {
            Some(call) => Ok(call.end()),
            None => Ok(None),
        }
    }

    /// The rank of a send for a delivery; 0 is the best. It is 1 if the calls do not lie as they
    /// should, and 2 more if the sender_pid is not that of the sender.
    fn rank_of(&self, send: &Message, sent: &Sent, sought: &Sought) -> Result<u8, ListingError>
        ensures { IfOk result (λ rank.
            (rank ≡ 0) ⊎ IsOtherCall self.now sought.now send.now sent.now) }
    {
        let Some(call) = self.calls.find(send.call)? else {
            return Ok(0);
        };
        let Some(served) = self.calls.find(sought.message.call)? else {
            return Ok(0);
        };
        let told = sought.sender == 0
            || i64::from(sought.sender) == i64::from(sent.process)
            || sent.process >= MADE_UP;
        let lie = if self.lie_apart(call, send, served, &sought.message)? {
            1
        } else {
            0
        };
        Ok(if told { lie } else { lie + 2 })
    }

    /// Whether the made call of a send and the served call of a delivery do not lie as the two ends
    /// of one call should, and no frame is missing in them.
    fn lie_apart(
        &self,
        call: Call,
        send: &Message,
        served: Call,
        delivery: &Message,
    ) -> Result<bool, ListingError>
        ensures { IfOk result (λ apart. OnTrue apart (
            LieApart self.now call send.now served delivery.now)) }
    {
        if !self.seen.has_whole_call(call, send)? {
            return Ok(false);
        }
        if !self.seen.has_whole_call(served, delivery)? {
            return Ok(false);
        }
        Ok(!self.lie_well(call, served)?)
    }

    /// Whether the made call and the served call lie as the two ends of one call should.
    fn lie_well(&self, call: Call, served: Call) -> Result<bool, ListingError>
        ensures { IfOk result (λ well. OnFalse well (LieBadly self.now.messages.now call served)) }
    {
        let Some(replied) = replied_by(served) else {
            return Ok(!call.is_answered());
        };
        let Some(closer) = call.closer else {
            return Ok(true);
        };
        Ok(
            replied.place < closer.place
                && (!call.is_answered() || self.messages.are_alike(replied, closer)?),
        )
    }
}

/// The reply by which a served call is closed.
pub(crate) fn replied_by(served: Call) -> Option<Closer>
    ensures some { IfSome result (λ reply. IsRepliedBy served reply) }
    ensures none { result ≡ None → (reply : Closer) → IsRepliedBy served reply → ⊥ }
{
    if matches!(served.verdict, Verdict::Replied) {
        return served.closer;
    }
    None
}

/// How many sends fit a reply to a call of this send, and whether that pair is certain. With a frame
/// missing, the answer may be that of another call.
pub(crate) fn rate_of_reply(sent: &Sent, is_whole: bool) -> (u32, bool)
    ensures fits { result.0 ≡ (if is_whole then sent.now.fits else sent.now.fits + 1) }
    ensures certain { result.1 ≡ (is_whole && sent.now.certain) }
{
    let fits = u32::from(sent.fits);
    if is_whole {
        return (fits, sent.certain);
    }
    (fits + 1, false)
}

pub(crate) fn is_refused(sent: &Sent) -> bool
    ensures refused { OnTrue result (IsRefused sent.now) }
    ensures other { OnFalse result (IsRefused sent.now → ⊥) }
{
    matches!(sent.settled, Settled::Refused(_))
}
