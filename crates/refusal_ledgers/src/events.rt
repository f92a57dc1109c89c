//! The frames and the events of a capture.

use crate::no_answer::{NoAnswer, Printed};
use crate::told;
use capture_frame::{Cut, Frame, Thread, cut};
use event_core::{Event, Events};
use std::alloc::{AllocError, Global};
use std::io::Write;
use transaction_view::check_frame;

/// Prints the frames of a capture, or the first fault of a header and the frames before it.
pub(crate) fn cut_all<W: Write>(alloc: Global, capture: &[u8], out: &mut W) -> Printed {
    match cut(alloc, capture) {
        Ok(frames) => told::frames(frames.as_slice(), out),
        Err(Cut::Memory) => Err(NoAnswer::Memory),
        Err(Cut::Bad { fault, before }) => {
            told::value(&fault, out)?;
            told::frames(before.as_slice(), out)
        }
    }
}

/// The frames of a capture whose headers are good.
pub(crate) fn frames_of<'c>(alloc: Global, capture: &'c [u8]) -> Result<Vec<Frame<'c>>, NoAnswer> {
    match cut(alloc, capture) {
        Ok(frames) => Ok(frames),
        Err(Cut::Memory) => Err(NoAnswer::Memory),
        Err(_) => Err(NoAnswer::Unfit),
    }
}

/// Whose events a ledger takes.
#[derive(Clone, Copy)]
pub(crate) enum Whose {
    /// Those of the first frame's process.
    Process,
    /// Those of the first frame's thread alone.
    Thread,
}

impl Whose {
    /// The thread of a frame, or thread 0 of its process in place of all threads of the process.
    fn seat(self, frame: Frame<'_>) -> Thread {
        let process = frame.of_process();
        let number = match self {
            Whose::Process => 0,
            Whose::Thread => frame.thread,
        };
        Thread { process, number }
    }
}

/// The events of the first frame's process, or of its thread.
pub(crate) fn events_of<'c>(
    alloc: Global,
    capture: &'c [u8],
    whose: Whose,
) -> Result<Vec<Event<'c>>, NoAnswer> {
    let frames = frames_of(alloc, capture)?;
    let first = frames.first().map(|frame| whose.seat(*frame));
    let mut events = Vec::new(alloc);
    for frame in &frames {
        if Some(whose.seat(*frame)) == first {
            push_events(*frame, &mut events)?;
        }
    }
    Ok(events)
}

/// Adds the events of a frame after the others. A frame with a fault is `Unfit`.
fn push_events<'c>(frame: Frame<'c>, events: &mut Vec<Event<'c>>) -> Result<(), NoAnswer> {
    if let Some(_) = check_frame(frame) {
        return Err(NoAnswer::Unfit);
    }
    let mut reader = Events::of(frame);
    while let Some(event) = reader.next_event() {
        events.push(event).map_err(AllocError::from)?;
    }
    Ok(())
}
