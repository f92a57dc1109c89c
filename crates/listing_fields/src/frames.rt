//! What a frame and a record say: the thread, the number of the direction, and replies.

ghost use Rattle.std.specs.Prelude.{◌≡◌};
ghost use Rattle.capture_frame.specs.Envelope.{direction_number, placed_frame};
ghost use Rattle.listing_fields.specs.Frames.{is_reply, thread_of};

use binder_code::Kind;
use capture_frame::{Direction, Frame, Thread};

/// The thread that made a frame's call.
pub fn thread_of(frame: Frame<'_>) -> Thread
    ensures { result ≡ thread_of (placed_frame frame.entry) }
{
    Thread {
        process: frame.of_process(),
        number: frame.thread,
    }
}

/// Whether records of this kind are replies.
pub fn is_reply(kind: Kind) -> bool
    ensures { result ≡ is_reply kind }
{
    matches!(kind, Kind::BcReply | Kind::BcReplySg | Kind::BrReply)
}

/// The number of a direction in a frame header.
pub fn direction_number(direction: Direction) -> u8
    ensures { result ≡ direction_number direction }
{
    match direction {
        Direction::Write => 1,
        Direction::Read => 2,
    }
}
