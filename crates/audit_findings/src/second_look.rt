//! The second look at frames, and what the findings keep of both looks.

ghost use Rattle.std.specs.Prelude.{◌≡◌, ◌<◌, List, length, map, Some, slice_get, IfOk};
ghost use Rattle.capture_frame.specs.Envelope.{PlacedFrame};
ghost use Rattle.event_core.specs.Events.{events_of_frames};
ghost use Rattle.process_ledgers.specs.Processes.{processes_of};
ghost use Rattle.audit_findings.specs.Findings.{process_sections};
ghost use Rattle.audit_findings.specs.Frames.{AreGoodFrames};
ghost use Rattle.audit_findings.specs.Handles.{handles_of_each};
ghost use Rattle.audit_findings.specs.Kept.{AreSectionsOf, processes_at_places};
ghost use Rattle.audit_findings.specs.Ledgers.{AreUnfreed};
ghost use Rattle.audit_findings.specs.Places.{RiseInPlace};
ghost use Rattle.audit_findings.specs.Summary.{SumsPiece};

use crate::both::both;
use crate::call_sections::CallSections;
use crate::event_sections::EventSections;
use crate::findings::Sections;
use crate::handles::{ProcessHandles, listed_handles};
use crate::paired::Unclosed;
use crate::pairs::BufferPairs;
use crate::piece_summary::PieceSummary;
use crate::places::lists_of;
use crate::process_sections::ProcessSections;
use capture_frame::FrameSlice;
use process_ledgers::ProcessLedgers;
use std::alloc::AllocError;
use std::marker::Model;
use summary_law::Summary;

/// A second look at frames, which reads again what the leaked deliveries of a process hold. Only
/// when all frames are summed is it known which deliveries are leaked. Contracts see a second look
/// as its frames.
#[derive(Drop)]
pub struct SecondLook<'f, 'c> {
    whole: PieceSummary<'c>,
    frames: &'f FrameSlice<'f, 'c>,
    /// The places of the leaked deliveries of each process, in the order of first frames.
    unfreed: Vec<Vec<u64>>,
}

impl<'f, 'c> Model for SecondLook<'f, 'c> {
    ghost use Rattle.std.specs.Prelude.{List, map};
    ghost use Rattle.capture_frame.specs.Envelope.{PlacedFrame};
    ghost use Rattle.audit_findings.specs.Frames.{AreGoodFrames};
    ghost use Rattle.audit_findings.specs.Ledgers.{AreUnfreed};
    ghost use Rattle.audit_findings.specs.Summary.{SumsPiece};

    ghost Value = { List PlacedFrame };

    ghost view = { λ l. l.frames.now };

    // The frames are good, the summary sums them, and these are their leaked deliveries.
    ghost invariant = { λ l. AreGoodFrames l.frames.now × SumsPiece l.whole l.frames.now
        × AreUnfreed l.frames.now (map (λ list. list.items) l.unfreed.items) };
}

impl<'f, 'c> SecondLook<'f, 'c> {
    /// The second look at these frames, which are summed.
    pub fn of(
        whole: PieceSummary<'c>,
        frames: &'f FrameSlice<'f, 'c>,
    ) -> Result<SecondLook<'f, 'c>, AllocError>
        requires good { AreGoodFrames frames.now }
        requires sums { SumsPiece whole frames.now }
        ensures { IfOk result (λ look. look ≡ frames.now) }
    {
        match unfreed_of(&whole) {
            Ok(unfreed) => Ok(SecondLook {
                whole,
                frames,
                unfreed,
            }),
            Err(error) => {
                drop(whole);
                Err(error)
            }
        }
    }

    /// Drops it, as `Sections::discard` does.
    pub fn discard(self) {
        drop(self);
    }

    /// How many processes the frames have.
    pub fn process_count(&self) -> usize
        ensures { result ≡ length (processes_of self.now) }
    {
        self.unfreed.len()
    }

    /// The rows of handles of the process with this number, from 0 in the order of first frames.
    pub fn handles(&self, number: usize) -> Result<ProcessHandles, AllocError>
        requires { number < length (processes_of self.now) }
        ensures { IfOk result
            (λ rows. slice_get (handles_of_each self.now) number ≡ Some rows.items) }
    {
        let alloc = self.whole.alloc;
        let none = ProcessLedgers::empty(alloc);
        let processes = self.whole.processes(&none);
        let (process, _nothing) = processes.order.entries.get_index(number).unwrap();
        let mut guess = number;
        let ledgers = processes.ledgers(*process, &mut guess);
        let unfreed = self.unfreed[number].as_slice();
        let rows = listed_handles(alloc, self.frames, *process, ledgers, unfreed);
        drop(none);
        rows
    }

    /// What the findings keep of the frames, from the rows of handles of each process, in order.
    pub fn sections(self, handles: &[ProcessHandles]) -> Result<Sections<u64>, AllocError>
        ensures { IfOk result (λ sections.
            map (λ list. list.items) handles.now ≡ handles_of_each self.entry →
            AreSectionsOf self.entry sections) }
    {
        let whole = self.whole;
        let alloc = whole.alloc;
        let unfreed = self.unfreed.as_slice();
        let processes = sections_of_processes(&whole, unfreed, handles);
        let frames = whole.sequences.frames;
        let missing = whole.sequences.missing();
        let of_events = whole.of_events;
        let calls = CallSections::of(alloc, of_events.threads);
        let events = EventSections::of(alloc, of_events.all);
        let ((events, calls), processes) = both(both(events, calls), processes)?;
        Ok(Sections {
            frames,
            missing,
            events,
            calls,
            processes,
        })
    }
}

/// The places of the leaked deliveries of each process whose frames are summed.
fn unfreed_of(whole: &PieceSummary<'_>) -> Result<Vec<Vec<u64>>, AllocError>
    ensures { IfOk result (λ unfreed. (frames : List PlacedFrame) →
        SumsPiece whole.now frames →
        AreUnfreed frames (map (λ list. list.items) unfreed.items)) }
{
    let none = ProcessLedgers::empty(whole.alloc);
    let lists = lists_of::<Unclosed<BufferPairs>>(whole.alloc, whole.processes(&none));
    drop(none);
    lists
}

/// What is kept of the processes whose frames are summed.
fn sections_of_processes(
    whole: &PieceSummary<'_>,
    unfreed: &[Vec<u64>],
    handles: &[ProcessHandles],
) -> Result<ProcessSections<u64>, AllocError>
    ensures { IfOk result (λ kept. (frames : List PlacedFrame) →
        SumsPiece whole.now frames →
        AreUnfreed frames (map (λ list. list.items) unfreed.now) →
        map (λ list. list.items) handles.now ≡ handles_of_each frames →
        RiseInPlace (events_of_frames frames) →
        kept ≡ processes_at_places (process_sections frames)) }
{
    let none = ProcessLedgers::empty(whole.alloc);
    let sections = ProcessSections::of(whole.alloc, whole.processes(&none), unfreed, handles);
    drop(none);
    sections
}
