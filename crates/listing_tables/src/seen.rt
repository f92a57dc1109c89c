//! Whether all that was sent to a node is in the capture: frames may be missing, and a process may
//! be older than the capture.

ghost use Rattle.std.specs.Prelude.{◌≡◌, [], None, slice_set, true, length, IfOk, OnOk};
ghost use Rattle.std.specs.Bool.{OnFalse, OnTrue};
ghost use Rattle.indexmap.specs.IndexMap.{IsEmpty};
ghost use Rattle.listing_tables.specs.Certainty.{HasAll, IsReferred, IsWhole};
ghost use Rattle.listing_tables.specs.Gaps.{AreGapsBefore, BeginsThread, ComesAfterGap, GoesOn};
ghost use Rattle.listing_tables.specs.Gaps.{IsWholeCall, NotesGap, NotesProcess, NotesReferred};
ghost use Rattle.listing_tables.specs.Gaps.{SaysTakesCalls};
ghost use Rattle.listing_tables.specs.Gaps.{TakesFrame};
ghost use Rattle.listing_tables.specs.Learning.{HasNoFrameBefore, TakesCalls, is_said_before};

use crate::calls::Call;
use crate::messages::Message;
use crate::numbered::{Numbered, difference, narrow};
use crate::spans::{Owner, Upid, Utid};
use capture_frame::{Direction, Frame};
use indexmap::IndexMap;
use listing_fields::{ListingError, Outcome};
use std::alloc::Global;

/// What is seen of a thread so far.
#[derive(Clone, Copy)]
struct Watched {
    /// How many gaps come before its last frame, and before the one before that.
    last: u32,
    earlier: Option<u32>,
    /// The place at which it first said that it takes calls.
    takes_calls: Option<u32>,
}

/// What is seen of threads, processes and nodes so far.
#[derive(Drop)]
pub(crate) struct Seen {
    /// The sequence of the last frame.
    sequence: Option<u64>,
    /// Of each gap in the sequences, the place of the frame after it.
    gaps: Vec<u32>,
    threads: Numbered<Watched>,
    /// Of each process, whether it is seen to be older than the capture.
    old: Numbered<bool>,
    /// For a node and a number of gaps, the place at which the driver first tells of references to
    /// the node after so many gaps.
    referred: IndexMap<(u32, u32), u32>,
}

impl Seen {
    pub(crate) fn new(alloc: Global) -> Seen
        ensures frames { result.sequence ≡ None }
        ensures gaps { result.gaps.items ≡ [] }
        ensures threads { result.threads.all.items ≡ [] }
        ensures processes { result.old.all.items ≡ [] }
        ensures referred { IsEmpty result.referred }
    {
        Seen {
            sequence: None,
            gaps: Vec::new(alloc),
            threads: Numbered::new(alloc),
            old: Numbered::new(alloc),
            referred: IndexMap::new(alloc),
        }
    }

    /// Takes a frame, before its records.
    pub(crate) fn add_frame(&mut self, frame: Frame<'_>, owner: Owner) -> Outcome
        ensures { OnOk result (TakesFrame self.entry.now frame.entry.sequence frame.entry.place
            frame.entry.direction owner self.exit.now) }
    {
        self.note_gap(frame.sequence, frame.place)?;
        self.note_process(owner.upid)?;
        let is_first = self.note_thread(owner.utid)?;
        if !is_first {
            return Ok(());
        }
        // A thread whose first frame is a read waited in the driver before the capture began.
        match frame.direction {
            Direction::Read => self.is_old(owner.upid),
            Direction::Write => Ok(()),
        }
    }

    /// Notes the gap before a frame of this sequence at this place, if there is one.
    fn note_gap(&mut self, sequence: u64, place: u64) -> Outcome
        ensures noted { OnOk result (NotesGap self.entry.now self.exit.now sequence place) }
        ensures rest { self.exit.now ≡ record self.entry.now {
          gaps = self.exit.now.gaps;
          sequence = self.exit.now.sequence;
        } }
    {
        let is_gap = is_after_gap(self.sequence, sequence)?;
        self.sequence = Some(sequence);
        if !is_gap {
            return Ok(());
        }
        self.gaps.push(narrow(place)?)?;
        Ok(())
    }

    /// Notes a process, which may be new.
    fn note_process(&mut self, upid: Upid) -> Outcome
        ensures noted { OnOk result (NotesProcess self.entry.now.old.all.items
            self.exit.now.old.all.items upid.index) }
        ensures rest { self.exit.now ≡ record self.entry.now { old = self.exit.now.old } }
    {
        if upid.index != self.old.next()? {
            return Ok(());
        }
        self.old.push(false)?;
        Ok(())
    }

    /// Notes a frame of a thread. Returns whether it is the thread's first one.
    fn note_thread(&mut self, utid: Utid) -> Result<bool, ListingError>
        ensures first { IfOk result (λ first. OnTrue first (BeginsThread
            self.entry.now.threads.all.items self.exit.now.threads.all.items utid.index
            (length self.entry.now.gaps.items))) }
        ensures later { IfOk result (λ first. OnFalse first (GoesOn
            self.entry.now.threads.all.items self.exit.now.threads.all.items utid.index
            (length self.entry.now.gaps.items))) }
        ensures rest { self.exit.now ≡ record self.entry.now { threads = self.exit.now.threads } }
    {
        let gaps = self.gaps()?;
        note_frame(&mut self.threads, utid, gaps)
    }

    /// Notes that a process is older than the capture.
    fn is_old(&mut self, upid: Upid) -> Outcome
        ensures noted { OnOk result (self.exit.now.old.all.items
            ≡ slice_set self.entry.now.old.all.items upid.index true) }
        ensures rest { self.exit.now ≡ record self.entry.now { old = self.exit.now.old } }
    {
        self.old.set(upid.index, true)
    }

    /// Takes a record at this place by which a thread says that it takes calls.
    pub(crate) fn take_calls(&mut self, utid: Utid, place: u32) -> Outcome
        ensures said { OnOk result (SaysTakesCalls self.entry.now.threads.all.items
            self.exit.now.threads.all.items utid.index place) }
        ensures rest { self.exit.now ≡ record self.entry.now { threads = self.exit.now.threads } }
    {
        let thread = self.threads.at(utid.index)?;
        let takes_calls = thread.takes_calls.or(Some(place));
        self.threads.set(
            utid.index,
            Watched {
                takes_calls,
                ..thread
            },
        )
    }

    /// Takes a delivery at this place that only a thread that takes calls gets. One that says so
    /// later took calls before the capture too.
    pub(crate) fn take_delivery(&mut self, utid: Utid, upid: Upid, place: u32) -> Outcome
        ensures said { TakesCalls self.entry.now utid.index place →
            self.exit.now ≡ self.entry.now }
        ensures older { OnOk result ((TakesCalls self.entry.now utid.index place → ⊥) →
            self.exit.now.old.all.items
            ≡ slice_set self.entry.now.old.all.items upid.index true) }
        ensures rest { self.exit.now ≡ record self.entry.now { old = self.exit.now.old } }
    {
        if is_said_before(self.threads.at(utid.index)?.takes_calls, place) {
            return Ok(());
        }
        self.is_old(upid)
    }

    /// Takes a record by which a thread is told that there are references to a node now, and none
    /// were before. It counts if the thread has a frame before that since the last gap: so what
    /// made the first one is in the capture, and comes after the gap.
    pub(crate) fn refer(&mut self, utid: Utid, node: u32, place: u32) -> Outcome
        ensures none { HasNoFrameBefore self.entry.now utid.index →
            self.exit.now ≡ self.entry.now }
        ensures noted { OnOk result (
            NotesReferred self.entry.now utid.index node place self.exit.now) }
    {
        let thread = self.threads.at(utid.index)?;
        if thread.earlier != Some(thread.last) {
            return Ok(());
        }
        let key = (node, thread.last);
        if self.referred.get(&key).is_some() {
            return Ok(());
        }
        self.referred.insert(key, place)?;
        Ok(())
    }

    /// How many gaps there are so far.
    pub(crate) fn gaps(&self) -> Result<u32, ListingError>
        ensures { IfOk result (λ count. count ≡ length self.now.gaps.items) }
    {
        narrow(self.gaps.len() as u64)
    }

    /// How many gaps come before a place.
    pub(crate) fn gaps_before(&self, place: u32) -> Result<u32, ListingError>
        ensures { IfOk result (AreGapsBefore self.now place) }
    {
        let count = self.gaps.as_slice().partition_point(|gap| *gap <= place);
        narrow(count as u64)
    }

    /// Whether no frame is missing in a call with this opener, so that it is known what closes it.
    pub(crate) fn has_whole_call(&self, call: Call, opener: &Message) -> Result<bool, ListingError>
        ensures { IfOk result (λ whole. OnTrue whole (
            IsWholeCall self.now call opener.now.gaps)) }
    {
        match call.closer {
            Some(closer) => Ok(self.gaps_before(closer.place)? == opener.gaps),
            None => Ok(self.gaps()? == opener.gaps),
        }
    }

    /// Whether all that is sent to a node of a process, and delivered at a place after so many
    /// gaps, is in the capture after the last of them.
    pub(crate) fn has_all(
        &self,
        upid: Upid,
        node: u32,
        place: u32,
        gaps: u32,
    ) -> Result<bool, ListingError>
        ensures { IfOk result (λ all. OnTrue all (HasAll self.now upid.index node place gaps)) }
    {
        if self.is_referred(node, gaps, place) {
            return Ok(true);
        }
        if gaps != 0 {
            return Ok(false);
        }
        self.is_whole(upid)
    }

    /// Whether the driver told of references to a node since so many gaps, and before this place.
    fn is_referred(&self, node: u32, gaps: u32, place: u32) -> bool
        ensures { OnTrue result (IsReferred self.now node gaps place) }
    {
        if let Some(referred) = self.referred.get(&(node, gaps))
            && *referred < place
        {
            return true;
        }
        false
    }

    /// Whether nothing shows that a process is older than the capture.
    fn is_whole(&self, upid: Upid) -> Result<bool, ListingError>
        ensures { IfOk result (λ whole. OnTrue whole (IsWhole self.now upid.index)) }
    {
        Ok(!self.old.at(upid.index)?)
    }
}

/// Notes a frame of a thread after so many gaps. Returns whether it is the thread's first one.
fn note_frame(threads: &mut Numbered<Watched>, utid: Utid, gaps: u32) -> Result<bool, ListingError>
    ensures first { IfOk result (λ first. OnTrue first (BeginsThread
        threads.old.all.items threads.new.all.items utid.index gaps)) }
    ensures later { IfOk result (λ first. OnFalse first (GoesOn
        threads.old.all.items threads.new.all.items utid.index gaps)) }
{
    if utid.index >= threads.next()? {
        threads.push(Watched {
            last: gaps,
            earlier: None,
            takes_calls: None,
        })?;
        return Ok(true);
    }
    let thread = threads.at(utid.index)?;
    let watched = Watched {
        last: gaps,
        earlier: Some(thread.last),
        ..thread
    };
    threads.set(utid.index, watched)?;
    Ok(false)
}

/// Whether something was said, and before a place.
fn is_said_before(said: Option<u32>, place: u32) -> bool
    ensures { result ≡ is_said_before said place }
{
    match said {
        Some(said) => said < place,
        None => false,
    }
}

/// Whether a frame of this sequence does not come right after the last one.
fn is_after_gap(last: Option<u64>, sequence: u64) -> Result<bool, ListingError>
    ensures gap { IfOk result (λ gap. OnTrue gap (ComesAfterGap last sequence)) }
    ensures none { IfOk result (λ gap. OnFalse gap (ComesAfterGap last sequence → ⊥)) }
{
    match last {
        Some(last) => Ok(difference(sequence, last)? != 1),
        None => Ok(false),
    }
}
