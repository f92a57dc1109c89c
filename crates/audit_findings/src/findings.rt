//! The findings of a capture.

ghost use Rattle.std.specs.Prelude.{◌≡◌};

use crate::call_sections::CallSections;
use crate::event_sections::EventSections;
use crate::process_sections::ProcessSections;
use capture_frame::{Frame, FrameList, FrameSlice};
use event_core::{Event, event_without_attachment_at};
use std::marker::Model;

/// The numbers and the rows of the report. `E` is what is kept of a listed record: in the code its
/// place, in the definitions its event.
#[derive(Drop)]
pub struct Sections<E> {
    /// How many frames there are.
    pub frames: u64,
    /// How many sequences between those of the first and the last frame have no frame.
    pub missing: u64,
    /// What is counted and listed over all events.
    pub events: EventSections<E>,
    /// What became of the calls of each thread.
    pub calls: CallSections<E>,
    /// What is said of each process.
    pub processes: ProcessSections<E>,
}

impl Sections<u64> {
    /// Drops them. What drops them itself has to prove once more that each part is dropped.
    pub fn discard(self) {
        drop(self);
    }
}

/// What the report says of a capture: its frames, its numbers and its rows. Of a listed record the
/// place is kept; the rest of its row is read again from the frames. Contracts see findings as their
/// frames, which determine all else.
#[derive(Drop)]
pub struct Findings<'c> {
    frames: FrameList<'c>,
    sections: Sections<u64>,
}

impl<'c> Model for Findings<'c> {
    ghost use Rattle.std.specs.Prelude.{List};
    ghost use Rattle.capture_frame.specs.Envelope.{PlacedFrame};
    ghost use Rattle.audit_findings.specs.Kept.{AreOfCapture, AreSectionsOf};

    ghost Value = { List PlacedFrame };

    ghost view = { λ f. f.frames };

    // The frames are good and follow one another, and the sections keep their findings.
    ghost invariant = { λ f. AreOfCapture f.frames × AreSectionsOf f.frames f.sections };
}

impl<'c> Findings<'c> {
    ghost use Rattle.audit_findings.specs.Kept.{AreOfCapture, AreSectionsOf};
    ghost use Rattle.capture_frame.specs.Lookup.{IsFrameAt};
    ghost use Rattle.audit_findings.specs.Lookup.{HasRecordIn, SaysEventAt};

    /// The findings of these frames and sections.
    pub fn new(frames: FrameList<'c>, sections: Sections<u64>) -> Findings<'c>
        requires capture { AreOfCapture frames }
        requires sections { AreSectionsOf frames sections }
        ensures { result ≡ frames.entry }
    {
        Findings { frames, sections }
    }

    /// Drops them, as `Sections::discard` does.
    pub fn discard(self) {
        drop(self);
    }

    /// The frames of the capture, in order.
    pub fn frames(&self) -> FrameSlice<'_, 'c>
        ensures value { result ≡ self.now }
        ensures capture { AreOfCapture self.now }
    {
        self.frames.as_slice()
    }

    /// The numbers and the rows of the sections.
    pub fn sections(&self) -> &Sections<u64>
        ensures { AreSectionsOf self.now result.now }
    {
        &self.sections
    }

    /// The frame that holds the byte at a place of the capture; None if no frame does.
    pub fn frame_at(&self, place: u64) -> Option<Frame<'c>>
        ensures { IsFrameAt self.now place result }
    {
        self.frames.as_slice().frame_at(place)
    }

    /// The event of the record that begins at a place of the capture, with the attachment left out.
    pub fn record_at(&self, place: u64) -> Event<'c>
        requires { HasRecordIn self.now place }
        ensures { SaysEventAt self.now place result }
    {
        // A record begins there, so there is a frame.
        let frame = self.frame_at(place).unwrap();
        event_without_attachment_at(frame, place)
    }
}
