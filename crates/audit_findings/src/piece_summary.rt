//! The summary of some frames of a capture.

ghost use Rattle.std.specs.Prelude.{List, [], OnOk};
ghost use Rattle.capture_frame.specs.Cut.{shown_by};
ghost use Rattle.capture_frame.specs.Envelope.{PlacedFrame, placed_frame};
ghost use Rattle.process_ledgers.specs.ProcessLedgers.{SumsProcess};
ghost use Rattle.summary_law.specs.Summary.{CanAdd, Adds};
ghost use Rattle.transaction_view.specs.Grammar.{IsGood};
ghost use Rattle.audit_findings.specs.EachProcess.{SumsEach};
ghost use Rattle.audit_findings.specs.Frames.{AreGoodFrames, good_views_halves};
ghost use Rattle.audit_findings.specs.Ledgers.{AreFewFrames};
ghost use Rattle.audit_findings.specs.Summary.{SumsPiece, SumsSome, NamesProcess};

use crate::both::both;
use crate::event_sums::EventSums;
use crate::guesses::Guesses;
use crate::processes::Processes;
use crate::sequences::Sequences;
use capture_frame::{Frame, Process, Thread};
use event_core::Events;
use process_ledgers::ProcessLedgers;
use std::alloc::{AllocError, Global};
use summary_law::{InOrder, Nothing, Summary};

/// The summary of some frames, one after another: all that the report needs of them. It has their
/// sequences, their processes, and the sums of their events.
#[derive(Drop)]
pub struct PieceSummary<'c> {
    pub(crate) sequences: Sequences,
    /// Each process once, in the order of first frames.
    order: InOrder<Process, Nothing>,
    pub(crate) of_events: EventSums<'c>,
    guesses: Guesses,
    pub(crate) alloc: Global,
}

impl<'c> PieceSummary<'c> {
    /// Drops it, as `Sections::discard` does.
    pub fn discard(self) {
        drop(self);
    }

    /// The processes of the frames, with their ledgers. A process without an event that concerns a
    /// ledger has `none`.
    pub(crate) fn processes<'a>(&'a self, none: &'a ProcessLedgers<'c>) -> Processes<'a, 'c>
        ensures { (frames : List PlacedFrame) → SumsPiece self.now frames →
            SumsProcess none.now [] → SumsEach result frames }
    {
        Processes {
            order: &self.order,
            own: &self.of_events.processes,
            none,
        }
    }

    // Adds a frame, after the sums of events were told where to look first.
    fn take(&mut self, frame: Frame<'c>) -> Result<(), AllocError>
        requires good { IsGood (placed_frame frame) }
        requires few { CanAdd SumsPiece AreFewFrames self.old (placed_frame frame) }
        ensures { OnOk result
            (Adds SumsPiece AreFewFrames self.old (placed_frame frame.entry) self.new) }
    {
        self.name_process(frame.of_process())?;
        self.sequences = self.sequences.with(frame.sequence);
        let mut events = Events::of(frame);
        while let Some(event) = events.next_event() {
            self.of_events.add(event)?;
        }
        Ok(())
    }

    // Gives the process of the next frame its place in the order. A process with ledgers has had a
    // frame, so it has its place. Its ledgers are looked up first: then their next `add` takes no
    // look-up.
    fn name_process(&mut self, process: Process) -> Result<(), AllocError>
        requires { SumsSome self.old }
        ensures { OnOk result (NamesProcess self.old process self.new) }
    {
        if self.of_events.processes.has(process) {
            return Ok(());
        }
        self.order.add((process, ()))
    }
}

impl<'c> Summary for PieceSummary<'c> {
    type Item = Frame<'c>;

    ghost fits = { λ views. AreGoodFrames (shown_by views) };

    ghost sums = { λ summary views. SumsPiece summary (shown_by views) };

    fn empty(alloc: Global) -> PieceSummary<'c> {
        PieceSummary {
            sequences: Sequences::NONE,
            order: InOrder::empty(alloc),
            of_events: EventSums::empty(alloc),
            guesses: Guesses::empty(alloc),
            alloc,
        }
    }

    fn add(&mut self, item: Frame<'c>) -> Result<(), AllocError> {
        let thread = Thread {
            process: item.of_process(),
            number: item.thread,
        };
        self.of_events.set_guess(self.guesses.of(thread));
        self.take(item)?;
        self.guesses.keep(thread, self.of_events.guess())
    }

    fn join(self, later: PieceSummary<'c>) -> Result<PieceSummary<'c>, AllocError> {
        let order = self.order.join(later.order);
        let of_events = self.of_events.join(later.of_events);
        let (order, of_events) = both(order, of_events)?;
        Ok(PieceSummary {
            sequences: self.sequences.then(later.sequences),
            order,
            of_events,
            guesses: self.guesses,
            alloc: self.alloc,
        })
    }

    ghost fits_halves = { good_views_halves };
}
