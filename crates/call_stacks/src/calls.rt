//! The calls of one thread, as a summary of its events.

ghost use Rattle.std.specs.Prelude.{◌≡◌, ◌++◌, map, IfOk, OnOk};
ghost use Rattle.std.specs.List.Sorted.{IsPermutation, IsNonDecreasingBy};
ghost use Rattle.summary_law.specs.Fits.{IsPlaced, placed_halves};
ghost use Rattle.summary_law.specs.Summary.{Adds};
ghost use Rattle.call_stacks.specs.Calls.{CallsSum, GivesFindings, GivesOpen, open_call, opener_place};
ghost use Rattle.call_stacks.specs.Content.{content_of, begun, counted, taken, refused_too, appended};
ghost use Rattle.call_stacks.specs.Content.{Enters, Closes, ClosesAll};

use crate::call_record::CallRecord;
use crate::findings::{CallFindings, RefusedSend};
use crate::opener::Opener;
use crate::verdict::Verdict;
use event_core::{Bracket, Event, Mark};
use std::alloc::{AllocError, Global};
use summary_law::Summary;

/// The calls of one thread, by its events in rising place. The caller feeds it events of one thread
/// only: no process and no thread is looked at here.
/// The value may sum a piece of the thread's events. If the first mark of the piece is an error
/// reply, what it is depends on the mark before the piece. So it stays undecided until the value of
/// the earlier piece is joined with this one.
#[derive(Drop)]
pub struct Calls<E> {
    /// The mark of the latest event that left one.
    last: Option<Mark>,
    /// The first event that left a mark, if that is an error reply.
    undecided: Option<E>,
    /// The calls that nothing has closed so far, in rising place.
    unmatched: Vec<E>,
    /// The closed calls, in any order: all of them, or only those that lack their reply.
    closed: Vec<Opener<E>>,
    /// How many calls are answered.
    answered: u64,
    /// How many calls are replied to.
    replied: u64,
    /// The closers that match no opener, in rising place.
    strays: Vec<E>,
    /// The refused sends, in rising place.
    refused: Vec<RefusedSend<E>>,
}

impl<E: CallRecord> Calls<E> {
    /// The calls of a whole thread. An error reply that is still undecided closes nothing: it is a
    /// stray. Takes at most a step for each stray, and sorts the calls that it gives.
    pub fn finish(self) -> Result<CallFindings<E>, AllocError>
        ensures { IfOk result (GivesFindings E.reads E.all_kept self) }
    {
        let Calls {
            last: _,
            undecided,
            unmatched,
            closed,
            answered,
            replied,
            strays,
            refused,
        } = self;
        let mut strays = strays;
        if let Some(event) = undecided {
            strays.insert(0, event)?;
        }
        let openers = in_order(closed, &unmatched)?;
        Ok(CallFindings {
            openers,
            answered,
            replied,
            strays,
            refused,
        })
    }

    /// The events that open the calls of a whole thread that nothing closes, in rising place.
    pub fn open_calls(&self) -> &[E]
        ensures { GivesOpen E.reads E.all_kept self.now result.now }
    {
        self.unmatched.as_slice()
    }

    /// Takes in the next event of the thread. Nothing is asked of the events here, but only those
    /// that are few enough, and whose places rise, have a sum.
    #[inline(always)]
    pub fn follow(&mut self, event: E) -> Result<(), AllocError>
        ensures { OnOk result (Adds (CallsSum E.reads E.all_kept) (IsPlaced E.reads.place)
            self.old event self.new) }
    {
        let bracket = event.bracket(self.last);
        if self.last.is_none() && bracket == Bracket::Error {
            self.undecided = Some(event);
        } else {
            self.enter(event, bracket)?;
        }
        self.last = event.mark().or(self.last);
        Ok(())
    }

    /// Takes in an event with its bracket.
    #[inline(always)]
    fn enter(&mut self, event: E, bracket: Bracket) -> Result<(), AllocError>
        ensures { OnOk result
            (Enters E.reads E.all_kept bracket event (content_of self.old) (content_of self.new)) }
    {
        match bracket {
            Bracket::Call | Bracket::Served => self.begin(event),
            Bracket::Reply | Bracket::Sent | Bracket::Error => self.close(event),
            Bracket::Refused => self.refuse(event),
            Bracket::Neither => Ok(()),
        }
    }

    /// Opens a call.
    #[inline(always)]
    fn begin(&mut self, event: E) -> Result<(), AllocError>
        ensures { OnOk result (content_of self.new ≡ begun event (content_of self.old)) }
    {
        self.unmatched.push(event)?;
        Ok(())
    }

    /// Notes that the driver refused the latest send.
    fn refuse(&mut self, event: E) -> Result<(), AllocError>
        ensures { OnOk result
            (content_of self.new ≡ refused_too event (content_of self.old)) }
    {
        let oneway = matches!(self.last, Some(Mark::Oneway));
        self.refused.push(RefusedSend { event, oneway })?;
        Ok(())
    }

    /// Closes the innermost call that is open. If none is open, the closer is a stray.
    #[inline(always)]
    fn close(&mut self, closer: E) -> Result<(), AllocError>
        ensures { OnOk result
            (Closes E.reads E.all_kept (content_of self.old) closer (content_of self.new)) }
    {
        match self.unmatched.pop() {
            Some(event) => self.take(Opener::new(event).closed_with(closer))?,
            None => self.strays.push(closer)?,
        }
        Ok(())
    }

    /// Takes in a closed call. A call that has its reply is only counted, unless all calls are
    /// kept.
    #[inline(always)]
    fn take(&mut self, call: Opener<E>) -> Result<(), AllocError>
        ensures { OnOk result
            (content_of self.new ≡ taken E.all_kept call (content_of self.old)) }
    {
        self.count(call.verdict);
        if E::keeps_all() || !call.verdict.has_reply() {
            self.closed.push(call)?;
        }
        Ok(())
    }

    /// Counts a call with this verdict. There are too few events for a number to reach 2^64, but
    /// only the caller knows that. So the sums here saturate.
    fn count(&mut self, verdict: Verdict)
        ensures { content_of self.new ≡ counted verdict (content_of self.old) }
    {
        match verdict {
            Verdict::Answered => self.answered = self.answered.saturating_add(1),
            Verdict::Replied => self.replied = self.replied.saturating_add(1),
            _ => {}
        }
    }

    /// Each of the closers in turn closes the innermost call that is open then.
    fn close_all(&mut self, closers: &[E]) -> Result<(), AllocError>
        ensures { OnOk result
            (ClosesAll E.reads E.all_kept (content_of self.old) closers.now (content_of self.new)) }
    {
        for closer in closers {
            self.close(*closer)?;
        }
        Ok(())
    }

    /// Appends what a later piece has, except its strays and its undecided error reply.
    fn append(&mut self, later: Calls<E>) -> Result<(), AllocError>
        ensures { OnOk result
            (content_of self.new ≡ appended (content_of later) (content_of self.old)) }
    {
        let Calls {
            last,
            mut unmatched,
            mut closed,
            answered,
            replied,
            mut refused,
            ..
        } = later;
        self.last = last.or(self.last);
        self.unmatched.append(&mut unmatched)?;
        self.closed.append(&mut closed)?;
        self.answered = self.answered.saturating_add(answered);
        self.replied = self.replied.saturating_add(replied);
        self.refused.append(&mut refused)?;
        Ok(())
    }
}

/// The closed calls and the open ones, in rising place.
fn in_order<E: CallRecord>(
    closed: Vec<Opener<E>>,
    unmatched: &[E],
) -> Result<Vec<Opener<E>>, AllocError>
    ensures moved { IfOk result (λ openers.
        IsPermutation (closed.items ++ map open_call unmatched.now) openers.items) }
    ensures sorted { IfOk result (λ openers.
        IsNonDecreasingBy (opener_place E.reads) openers.items) }
{
    let mut openers = closed;
    for event in unmatched {
        openers.push(Opener::new(*event))?;
    }
    openers.sort_unstable_by_key(|opener| opener.event.place());
    Ok(openers)
}

/// The calls of one thread over whole events. All calls are kept.
pub type ThreadCalls<'c> = Calls<Event<'c>>;

/// An `add` takes constant time, amortized. A `join` takes a step for each entry of the later
/// value's lists. Of the earlier value it touches only the calls that it closes. A thread without
/// calls takes no heap.
impl<E: CallRecord> Summary for Calls<E> {
    type Item = E;

    ghost fits = { IsPlaced E.reads.place };

    ghost sums = { CallsSum E.reads E.all_kept };

    fn empty(alloc: Global) -> Calls<E> {
        Calls {
            last: None,
            undecided: None,
            unmatched: Vec::new(alloc),
            closed: Vec::new(alloc),
            answered: 0,
            replied: 0,
            strays: Vec::new(alloc),
            refused: Vec::new(alloc),
        }
    }

    #[inline(always)]
    fn add(&mut self, item: E) -> Result<(), AllocError> {
        self.follow(item)
    }

    fn join(self, later: Calls<E>) -> Result<Calls<E>, AllocError> {
        let mut joined = self;
        if let Some(event) = later.undecided {
            joined.add(event)?;
        }
        joined.close_all(&later.strays)?;
        joined.append(later)?;
        Ok(joined)
    }

    ghost fits_halves = { placed_halves E.reads.place };
}
