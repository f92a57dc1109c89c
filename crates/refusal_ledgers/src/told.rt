//! Prints the answers of the calls. Nothing here takes memory.

use crate::no_answer::Printed;
use call_stacks::{CallFindings, Verdict};
use capture_frame::{Frame, FrameSlice};
use event_core::Event;
use std::fmt::Debug;
use std::io::Write;

/// Prints a value on a line.
pub fn value<D: Debug, W: Write>(value: &D, out: &mut W) -> Printed {
    writeln!(out, "{value:?}")?;
    Ok(())
}

/// Prints where each frame begins, and its sequence.
pub(crate) fn frames<W: Write>(frames: &[Frame<'_>], out: &mut W) -> Printed {
    for frame in frames {
        value(&(frame.place, frame.sequence), out)?;
    }
    Ok(())
}

/// The same for frames that are kept by their places.
pub fn kept_frames<W: Write>(frames: &FrameSlice<'_, '_>, out: &mut W) -> Printed {
    for number in 0..frames.len() {
        let frame = frames.get(number);
        value(&(frame.place, frame.sequence), out)?;
    }
    Ok(())
}

/// Prints what became of the calls of a thread, each event by its place.
pub(crate) fn calls<W: Write>(found: &CallFindings<Event<'_>>, out: &mut W) -> Printed {
    for one in &found.openers {
        opener(one.event.place, one.verdict, one.closer, out)?;
    }
    for stray in &found.strays {
        value(&stray.place, out)?;
    }
    for send in &found.refused {
        value(&(send.event.place, send.oneway), out)?;
    }
    Ok(())
}

/// Prints a call, its event by the place. In the loops above, this would be costly to prove.
pub fn opener<W: Write>(place: u64, verdict: Verdict, closer: Option<u64>, out: &mut W) -> Printed {
    value(&(place, verdict, closer), out)
}
