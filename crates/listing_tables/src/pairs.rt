//! Pairs each delivery with the send that it came from. viewer/database/schema.sql says how.

ghost use Rattle.std.specs.Prelude.{◌≡◌, ◌≢◌, ◌⊎◌, ◌||◌, ℕ, not, true, false, nat_eq, IfOk, OnOk};
ghost use Rattle.std.specs.Bool.{OnTrue};
ghost use Rattle.listing_tables.specs.Decisions.{DoubtsEach};
ghost use Rattle.listing_tables.specs.Pairing.{MarksEach};
ghost use Rattle.listing_tables.specs.Turns.{PairsTraffic};
ghost use Rattle.listing_tables.specs.declared.waiting.Waiting.{Waiting};

use crate::buffers::Buffers;
use crate::calls::{Call, Closer};
use crate::certainty::{Certainty, Evidence, Sought, is_refused};
use crate::fitting::{Fit, Fitting};
use crate::generations::Generations;
use crate::handed::HandedOver;
use crate::learning::{learn_each, objects_at};
use crate::marks::{Mark, Marked, UNMARKED, mark_also, mark_each, note_guess};
use crate::meanings::Meanings;
use crate::messages::{Detail, Message, Messages, Sent};
use crate::numbered::{Numbered, one_more};
use crate::seen::Seen;
use crate::traffic::Traffic;
use crate::waiting::{Waiting, as_it_waits};
use indexmap::IndexSet;
use listing_fields::{ListingError, Outcome, is_reply};
use std::alloc::Global;
use std::mem;

/// How often all messages are gone through at most.
const WALKS: u32 = 5;

/// What stays as it is while messages are paired.
#[derive(Clone, Copy)]
pub(crate) struct Facts<'f> {
    buffers: &'f Buffers,
    generations: &'f Generations,
    pub seen: &'f Seen,
    pub calls: &'f Numbered<Call>,
}

/// Pairs the messages. Of what is found on a walk only what generations mean is kept for the next
/// one, and the pairs of which no other send can have been meant.
#[derive(Drop)]
pub(crate) struct Pairing<'f> {
    pub messages: Messages,
    handed: HandedOver,
    pub facts: Facts<'f>,
    meanings: Meanings,
    waiting: Waiting,
    fitting: Fitting,
    /// Of each message.
    marks: Numbered<Mark>,
    /// The keys of which more sends waited than were looked at.
    crowded: IndexSet<u64>,
    /// Whether another walk may find more.
    news: bool,
}

/// Of the delivery of a call that a reply closes: that reply, the answer of the same key that
/// closes the call of its send, and that send.
#[derive(Clone, Copy)]
pub(crate) struct Ends {
    pub replied: u32,
    pub answered: Closer,
    pub send: u32,
}

/// Finds the delivery of each send, and the send of each delivery.
pub(crate) fn pair_all(alloc: Global, traffic: &mut Traffic, calls: &Numbered<Call>) -> Outcome
    ensures { OnOk result (PairsTraffic traffic.old calls.now traffic.new) }
{
    let messages = mem::replace(&mut traffic.messages, Messages::new(alloc));
    let handed = mem::replace(&mut traffic.handles.handed, HandedOver::new(alloc));
    let facts = Facts {
        buffers: &traffic.buffers,
        generations: &traffic.handles.generations,
        seen: &traffic.seen,
        calls,
    };
    let mut pairing = Pairing {
        messages,
        handed,
        facts,
        meanings: Meanings::new(alloc),
        waiting: Waiting::new(alloc),
        fitting: Fitting::new(alloc),
        marks: Numbered::new(alloc),
        crowded: IndexSet::new(alloc),
        news: false,
    };
    let done = pairing.pair();
    let Pairing {
        mut messages,
        mut handed,
        meanings,
        waiting,
        fitting,
        marks,
        crowded,
        ..
    } = pairing;
    mem::swap(&mut traffic.messages, &mut messages);
    mem::swap(&mut traffic.handles.handed, &mut handed);
    // By a call, because it is costly to prove that a function drops their fields itself.
    drop((messages, handed, meanings, waiting, fitting, marks, crowded));
    done
}

impl Pairing<'_> {
    ghost use Rattle.indexmap.specs.IndexSet.{contains};
    ghost use Rattle.listing_tables.specs.Changes.{RatesPair};
    ghost use Rattle.listing_tables.specs.Decisions.{ComesInDoubt, Decides, KeepsWaiting};
    ghost use Rattle.listing_tables.specs.Decisions.{LearnsOfSend, LearnsTarget};
    ghost use Rattle.listing_tables.specs.Decisions.{NotesCrowded, NotesDelivery};
    ghost use Rattle.listing_tables.specs.Doubts.{CountsLeaving};
    ghost use Rattle.listing_tables.specs.Pairing.{AddsSend, BeginsWalk, Claims, ClosesCall};
    ghost use Rattle.listing_tables.specs.Pairing.{GuessesFit, KeepsGuess};
    ghost use Rattle.listing_tables.specs.Pairing.{MarksClaimed, MarksFits};
    ghost use Rattle.listing_tables.specs.Pairing.{MarksTurn, MustHaveCome};
    ghost use Rattle.listing_tables.specs.Pairing.{PairsDelivery, messages_of};
    ghost use Rattle.listing_tables.specs.Turns.{ClaimsAll, ClaimsIfMarked, HasTurn};
    ghost use Rattle.listing_tables.specs.Turns.{KeepsIfGuessed, MakesEach, MarksIfClaimed};
    ghost use Rattle.listing_tables.specs.Turns.{PairsAll, TakesTurn, Walks, WalksOn};
    ghost use Rattle.listing_tables.specs.Turns.{count_of};
    ghost use Rattle.listing_tables.specs.Waiting.{OthersWaitBut, entry_of, waits};

    fn pair(&mut self) -> Outcome
        ensures { OnOk result (PairsAll self.old self.new) }
    {
        self.meanings
            .begin(self.facts.generations, self.facts.seen)?;
        self.walk_on()?;
        self.keep_guesses()?;
        self.pair_replies()
    }

    /// Makes walks for as long as another one may find more.
    fn walk_on(&mut self) -> Outcome
        ensures { OnOk result (WalksOn self.old self.new) }
    {
        for walk in 0..WALKS {
            self.walk(walk == 0)?;
            if !self.news && walk > 0 {
                return Ok(());
            }
        }
        Ok(())
    }

    /// Goes through all messages, or only through those of calls.
    fn walk(&mut self, calls: bool) -> Outcome
        ensures { OnOk result (Walks calls self.old self.new) }
    {
        self.begin_walk()?;
        self.take_turns(calls)?;
        self.claim_all()?;
        self.news |= self.meanings.settle(self.facts.generations)?;
        Ok(())
    }

    /// Begins a walk: nothing waits or is marked.
    fn begin_walk(&mut self) -> Outcome
        ensures { OnOk result (BeginsWalk self.old self.new) }
    {
        self.news = false;
        self.waiting.clear();
        self.crowded.clear();
        let count = self.messages.list.all.len();
        self.marks.all.clear();
        self.marks.all.resize(count, UNMARKED)?;
        Ok(())
    }

    /// Gives each message its turn, in order.
    fn take_turns(&mut self, calls: bool) -> Outcome
        ensures { OnOk result (MakesEach (HasTurn calls) self.old self.new (count_of self.old)) }
    {
        for index in 0..self.messages.list.next()? {
            self.take_turn(calls, index)?;
        }
        Ok(())
    }

    /// Gives a message its turn, unless it is a oneway one in a walk through those of calls.
    fn take_turn(&mut self, calls: bool, index: u32) -> Outcome
        ensures { OnOk result (HasTurn calls self.old index self.new) }
    {
        let message = self.messages.list.at(index)?;
        if calls && message.oneway {
            return Ok(());
        }
        self.pair_message(index, &message)
    }

    fn pair_message(&mut self, index: u32, message: &Message) -> Outcome
        ensures turn { OnOk result (TakesTurn self.old index message.now self.new) }
        ensures marks { OnOk result (MarksTurn message.now index self.old.marks.all.items
            self.new.marks.all.items) }
        ensures facts { OnOk result (self.new.facts ≡ self.old.facts) }
    {
        self.close_send(message)?;
        if is_reply(message.kind) || message.partner.is_some() {
            return Ok(());
        }
        match message.detail {
            Detail::Sent(sent) => self.add_send(index, message, &sent),
            Detail::Delivered(buffer) => {
                let sought = self.sought(index, message, buffer)?;
                self.pair_delivery(&sought)
            }
            Detail::Failed => Ok(()),
        }
    }

    /// Adds a send to those that wait, unless it is refused. If it is after a gap, the error may be
    /// that of another send.
    fn add_send(&mut self, index: u32, send: &Message, sent: &Sent) -> Outcome
        ensures same { OnOk result (self.new ≡ record self.old { waiting = self.new.waiting }) }
        ensures added { OnOk result (AddsSend self.old index send.now sent.now self.new) }
        ensures kept { OnOk result (KeepsWaiting self.old.waiting self.new.waiting) }
    {
        if is_refused(sent) && send.gaps == 0 {
            return Ok(());
        }
        let listed = as_it_waits(&self.meanings, index, send, sent)?;
        self.waiting.add(listed)
    }

    /// Takes out the send whose call a message closes, if its delivery is not sure.
    fn close_send(&mut self, message: &Message) -> Outcome
        ensures same { OnOk result (self.new ≡ record self.old { waiting = self.new.waiting }) }
        ensures closed { OnOk result (ClosesCall self.old message.now self.new.waiting) }
    {
        let found = self.facts.calls.find(message.call)?;
        let Some(call) = found else {
            return Ok(());
        };
        if call.served {
            return Ok(());
        }
        if call.place == message.place {
            return Ok(());
        }
        let send = self.messages.list.at(call.opener)?;
        if send.partner.is_some() {
            return Ok(());
        }
        let sent = self.messages.sent(call.opener)?;
        let listed = as_it_waits(&self.meanings, call.opener, &send, &sent)?;
        self.waiting.close(listed)
    }

    fn sought(&mut self, index: u32, message: &Message, buffer: u32) -> Result<Sought, ListingError>
        ensures same { self.new ≡ record self.old { handed = self.new.handed } }
        ensures index { IfOk result (λ sought. sought.index ≡ index) }
        ensures message { IfOk result (λ sought. sought.message ≡ message.now) }
        ensures noted { IfOk result (NotesDelivery self.old buffer) }
    {
        let buffer = self.facts.buffers.list.at(buffer)?;
        let node = self.messages.node_of(buffer.path)?;
        Ok(Sought {
            index,
            message: *message,
            sender: buffer.sender,
            node: self.handed.index_of(node)?,
            upid: node.upid,
        })
    }

    fn pair_delivery(&mut self, sought: &Sought) -> Outcome
        ensures pairs { OnOk result (PairsDelivery self.old sought.now (messages_of self.new)) }
        ensures decided { OnOk result (Decides self.old sought.now self.new) }
        ensures crowded { OnOk result (NotesCrowded self.old sought.now self.new) }
        ensures facts { OnOk result (self.new.facts ≡ self.old.facts) }
    {
        let evidence = Evidence {
            messages: &self.messages,
            calls: self.facts.calls,
            generations: self.facts.generations,
            seen: self.facts.seen,
            meanings: &self.meanings,
            waiting: &self.waiting,
            marks: &self.marks,
        };
        let certainty = evidence.certainty_of(&mut self.fitting, sought)?;
        self.note_crowded(sought.message.key)?;
        let fits = self.fitting.count()?;
        match certainty {
            Certainty::Sure(fit) => self.take(sought, &fit),
            Certainty::OneHandle => self.take_one(sought),
            Certainty::Several => {
                self.guess(sought, fits, false)?;
                self.doubt_all(sought.message.key)
            }
            Certainty::Unknown => self.guess(sought, one_more(fits)?, false),
        }
    }

    /// Notes a key of which more sends wait than were looked at.
    fn note_crowded(&mut self, key: u64) -> Outcome
        ensures noted { OnOk result (self.old.fitting.is_whole ≡ false →
            contains nat_eq self.new.crowded key ≡ true) }
        ensures stays { OnOk result ((other : ℕ) → contains nat_eq self.old.crowded other ≡ true →
            contains nat_eq self.new.crowded other ≡ true) }
        ensures same { self.new ≡ record self.old { crowded = self.new.crowded } }
    {
        if self.fitting.is_whole {
            return Ok(());
        }
        self.crowded.insert(key)?;
        Ok(())
    }

    /// Takes the only send that a delivery can have come from.
    fn take(&mut self, sought: &Sought, fit: &Fit) -> Outcome
        ensures pair { OnOk result (RatesPair (messages_of self.old) (messages_of self.new)
            fit.now.listed.index sought.now.index 1 true) }
        ensures gone { OnOk result (waits self.new.waiting (entry_of fit.now.listed) ≡ false) }
        ensures others { OnOk result (OthersWaitBut (entry_of fit.now.listed) self.old.waiting
            self.new.waiting) }
        ensures counts { OnOk result (CountsLeaving self.old.waiting fit.now.listed 0
            self.new.waiting) }
        ensures news { OnOk result (self.new.news ≡ (self.old.news || not fit.now.fresh)) }
        ensures same { OnOk result (self.new ≡ record self.old {
          messages = self.new.messages;
          meanings = self.new.meanings;
          waiting = self.new.waiting;
          news = self.new.news;
        }) }
    {
        self.news |= !fit.fresh;
        self.waiting.take(fit.listed)?;
        self.keep_pair(fit.listed.index, sought)
    }

    /// Takes one of several sends of one generation.
    fn take_one(&mut self, sought: &Sought) -> Outcome
        ensures rates { OnOk result ((count : ℕ) × GuessesFit sought.now.message.oneway
            (messages_of self.old) (messages_of self.new) self.old.fitting count true) }
        ensures marks { OnOk result (MarksFits sought.now.message.oneway self.old.fitting
            sought.now.index self.old.marks.all.items self.new.marks.all.items) }
        ensures doubts { OnOk result ((guessed : Waiting) × KeepsWaiting self.old.waiting guessed
            × ComesInDoubt guessed self.old.fitting.list.items sought.now.message.key
            self.new.waiting) }
        ensures same { OnOk result (self.new ≡ record self.old {
          messages = self.new.messages;
          meanings = self.new.meanings;
          waiting = self.new.waiting;
          marks = self.new.marks;
        }) }
    {
        let Some(fit) = self.fitting.first() else {
            return Err(ListingError::TooLarge);
        };
        self.learn_target(fit.sent.generation, fit.gaps, sought.node)?;
        let fits = self.fitting.count()?;
        self.guess(sought, fits, true)?;
        self.doubt_all(sought.message.key)
    }

    /// Takes the best send by guess, if there is one that no other delivery has taken. So many
    /// sends fit, and it may be certain that it is one of this generation.
    fn guess(&mut self, sought: &Sought, fits: u32, certain: bool) -> Outcome
        ensures rates { OnOk result (GuessesFit sought.now.message.oneway (messages_of self.old)
            (messages_of self.new) self.old.fitting fits certain) }
        ensures marks { OnOk result (MarksFits sought.now.message.oneway self.old.fitting
            sought.now.index self.old.marks.all.items self.new.marks.all.items) }
        ensures kept { OnOk result (KeepsWaiting self.old.waiting self.new.waiting) }
        ensures same { OnOk result (self.new ≡ record self.old {
          messages = self.new.messages;
          waiting = self.new.waiting;
          marks = self.new.marks;
        }) }
    {
        self.mark_all(sought.index)?;
        let Some(fit) = self.fitting.best(sought.message.oneway) else {
            return Ok(());
        };
        let index = fit.listed.index;
        self.waiting.guess(fit.listed)?;
        note_guess(&mut self.marks, index, sought.index)?;
        self.messages.rate(index, fits, certain)
    }

    /// Notes of the sends that fit a delivery that it may be that of each of them, unless something
    /// speaks against them all.
    fn mark_all(&mut self, delivery: u32) -> Outcome
        ensures same { self.new ≡ record self.old { marks = self.new.marks } }
        ensures marks { OnOk result (self.old.fitting.rank ≡ 0 →
            MarksEach self.old.marks.all.items self.new.marks.all.items
            self.old.fitting.list.items delivery) }
        ensures none { self.old.fitting.rank ≢ 0 → self.new ≡ self.old }
    {
        if self.fitting.rank != 0 {
            return Ok(());
        }
        mark_each(&mut self.marks, self.fitting.list.as_slice(), delivery)
    }

    /// Puts the sends that fit a delivery among those in doubt, of which one came.
    fn doubt_all(&mut self, key: u64) -> Outcome
        ensures same { self.new ≡ record self.old { waiting = self.new.waiting } }
        ensures doubts { OnOk result (ComesInDoubt self.old.waiting self.old.fitting.list.items key
            self.new.waiting) }
    {
        doubt_each(&mut self.waiting, self.fitting.list.as_slice())?;
        self.waiting.came(key)
    }

    /// Keeps a pair of which no other send can have been meant, and what follows from it.
    fn keep_pair(&mut self, index: u32, sought: &Sought) -> Outcome
        ensures pair { OnOk result (RatesPair (messages_of self.old) (messages_of self.new) index
            sought.now.index 1 true) }
        ensures same { OnOk result (self.new ≡ record self.old {
          messages = self.new.messages;
          meanings = self.new.meanings;
        }) }
    {
        self.make_pair(index, sought)?;
        self.learn_objects(index, sought.index)?;
        self.learn_answer(sought.index)
    }

    /// Makes such a pair, and notes what the target of the send means.
    fn make_pair(&mut self, index: u32, sought: &Sought) -> Outcome
        ensures pair { OnOk result (RatesPair (messages_of self.old) (messages_of self.new) index
            sought.now.index 1 true) }
        ensures learnt { OnOk result (LearnsOfSend self.old index sought.now.node
            self.new.meanings) }
        ensures same { OnOk result (self.new ≡ record self.old {
          messages = self.new.messages;
          meanings = self.new.meanings;
        }) }
    {
        let sent = self.messages.sent(index)?;
        let gaps = self.messages.list.at(index)?.gaps;
        self.learn_target(sent.generation, gaps, sought.node)?;
        self.messages.rate(index, 1, true)?;
        self.messages.couple(index, sought.index)
    }

    /// Notes that the target of a send after so many gaps means a node, if it is that of a handle.
    fn learn_target(&mut self, generation: Option<u32>, gaps: u32, node: u32) -> Outcome
        ensures same { self.new ≡ record self.old { meanings = self.new.meanings } }
        ensures learnt { OnOk result (LearnsTarget self.old.meanings self.new.meanings generation
            gaps node) }
    {
        match generation {
            Some(generation) => self.meanings.learn(generation, gaps, node),
            None => Ok(()),
        }
    }

    /// Notes what is known of the objects that the answer to a call delivers, if no frame is missing
    /// up to it.
    fn learn_answer(&mut self, delivery: u32) -> Outcome
        ensures { self.new ≡ record self.old { meanings = self.new.meanings } }
    {
        let Some(ends) = self.ends_of(delivery)? else {
            return Ok(());
        };
        if !self.is_whole(&ends)? {
            return Ok(());
        }
        self.learn_objects(ends.replied, ends.answered.message)
    }

    /// Notes what is known of the objects that one message hands over and another one delivers.
    fn learn_objects(&mut self, sent: u32, came: u32) -> Outcome
        ensures { self.new ≡ record self.old { meanings = self.new.meanings } }
    {
        let (objects, before) = objects_at(&self.messages, &self.handed, sent)?;
        let (others, after) = objects_at(&self.messages, &self.handed, came)?;
        learn_each(&mut self.meanings, objects, before, others, after)
    }

    /// Takes each call that was answered, and that only one delivery can be of: so that is its own.
    fn claim_all(&mut self) -> Outcome
        ensures { OnOk result (ClaimsAll self.old self.new) }
    {
        self.mark_calls()?;
        self.claim_marked()
    }

    /// Marks each delivery by which a call must have come.
    fn mark_calls(&mut self) -> Outcome
        ensures { OnOk result (MakesEach MarksIfClaimed self.old self.new (count_of self.old)) }
    {
        for index in 0..self.messages.list.next()? {
            self.mark_claimed(index)?;
        }
        Ok(())
    }

    /// Takes each call that alone marks a delivery.
    fn claim_marked(&mut self) -> Outcome
        ensures { OnOk result (MakesEach ClaimsIfMarked self.old self.new (count_of self.old)) }
    {
        for index in 0..self.messages.list.next()? {
            self.claim(index)?;
        }
        Ok(())
    }

    /// Marks the delivery by which a call must have come.
    fn mark_claimed(&mut self, index: u32) -> Outcome
        ensures same { OnOk result (self.new ≡ record self.old { marks = self.new.marks }) }
        ensures marks { OnOk result ((self.new.marks ≡ self.old.marks)
            ⊎ MarksClaimed self.old index self.new.marks.all.items) }
    {
        let mark = self.marks.at(index)?;
        let Marked::By(delivery) = mark.other else {
            return Ok(());
        };
        let must = self.must_have_come(index)?;
        if !must {
            return Ok(());
        }
        mark_also(&mut self.marks, delivery, index)
    }

    /// Whether a message is a call that was answered, and no frame is missing between the two.
    fn must_have_come(&self, index: u32) -> Result<bool, ListingError>
        ensures { IfOk result (λ must. OnTrue must (MustHaveCome self.now index)) }
    {
        let message = self.messages.list.at(index)?;
        let Detail::Sent(_) = message.detail else {
            return Ok(false);
        };
        if message.partner.is_some() || self.crowded.contains(&message.key) {
            return Ok(false);
        }
        match self.facts.calls.find(message.call)? {
            Some(call) if call.is_answered() => self.facts.seen.has_whole_call(call, &message),
            _ => Ok(false),
        }
    }

    /// Takes the one call that must have come by a delivery, if there is one.
    fn claim(&mut self, index: u32) -> Outcome
        ensures claims { OnOk result (((messages_of self.new ≡ messages_of self.old)
            × (self.new.news ≡ self.old.news))
            ⊎ (Claims self.old index (messages_of self.new) × (self.new.news ≡ true))) }
        ensures same { OnOk result (self.new ≡ record self.old {
          messages = self.new.messages;
          handed = self.new.handed;
          meanings = self.new.meanings;
          news = self.new.news;
        }) }
    {
        let delivery = self.messages.list.at(index)?;
        let mark = self.marks.at(index)?;
        let Marked::By(send) = mark.other else {
            return Ok(());
        };
        let Detail::Delivered(buffer) = delivery.detail else {
            return Ok(());
        };
        if delivery.partner.is_some() {
            return Ok(());
        }
        self.news = true;
        let sought = self.sought(index, &delivery, buffer)?;
        self.keep_pair(send, &sought)
    }

    /// Keeps all that the last walk guessed.
    fn keep_guesses(&mut self) -> Outcome
        ensures { OnOk result (MakesEach KeepsIfGuessed self.old self.new (count_of self.old)) }
    {
        for index in 0..self.messages.list.next()? {
            self.keep_guess(index)?;
        }
        Ok(())
    }

    /// Keeps what the last walk guessed.
    fn keep_guess(&mut self, index: u32) -> Outcome
        ensures keeps { OnOk result ((messages_of self.new ≡ messages_of self.old)
            ⊎ KeepsGuess self.old index (messages_of self.new)) }
        ensures same { OnOk result (self.new ≡ record self.old { messages = self.new.messages }) }
    {
        let mark = self.marks.at(index)?;
        let Some(delivery) = mark.guess else {
            return Ok(());
        };
        let send = self.messages.list.at(index)?;
        let other = self.messages.list.at(delivery)?;
        if send.partner.is_some() || other.partner.is_some() {
            return Ok(());
        }
        self.messages.couple(index, delivery)
    }
}

/// Puts each of these sends among those in doubt.
fn doubt_each(waiting: &mut Waiting, fits: &[Fit]) -> Outcome
    ensures { OnOk result (DoubtsEach waiting.old waiting.new fits.now) }
{
    for fit in fits {
        waiting.doubt(fit.listed)?;
    }
    Ok(())
}
