//! Where the frames of a piece begin, and their first fault.

ghost use Rattle.std.specs.Prelude.{◌≡◌, ◌≤◌, length, AllPairs, Some};
ghost use Rattle.capture_frame.specs.Lookup.{AreApart};
ghost use Rattle.transaction_view.specs.Grammar.{first_content_fault};
ghost use Rattle.audit_judge.specs.Jobs.{first_place, start_of};

use capture_frame::{Fault, FrameSlice};
use transaction_view::check_frame;

/// Where the first of these frames begins.
pub(crate) fn start_of(frames: &FrameSlice<'_, '_>) -> u64
    requires { 1 ≤ length frames.now }
    ensures { result ≡ start_of frames.now }
{
    frames.place(0)
}

/// The first fault of the records and entries of these frames.
pub(crate) fn first_in(frames: &FrameSlice<'_, '_>) -> Option<Fault>
    ensures { result ≡ first_content_fault frames.now }
{
    for number in 0..frames.len() {
        if let Some(fault) = check_frame(frames.get(number)) {
            return Some(fault);
        }
    }
    None
}

/// The first fault of these frames, which is at this place.
pub(crate) fn fault_at(frames: &FrameSlice<'_, '_>, place: u64) -> Fault
    requires apart { AllPairs AreApart frames.now }
    requires there { first_place frames.now ≡ Some place }
    ensures { first_content_fault frames.now ≡ Some result }
{
    // Only one frame holds the place, and the first fault of that frame is at the place.
    let frame = frames.frame_at(place).unwrap();
    check_frame(frame).unwrap()
}
