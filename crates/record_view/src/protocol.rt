ghost use Rattle.std.specs.Prelude.{◌≡◌};
ghost use Rattle.record_view.specs.Records.{protocol_of};

use binder_code::Protocol;
use capture_frame::Direction;

/// The protocol whose codes a frame of this direction holds: commands (BC_) in a write, returns
/// (BR_) in a read.
pub(crate) fn protocol(direction: Direction) -> Protocol
    ensures { result ≡ protocol_of direction }
{
    match direction {
        Direction::Write => Protocol::Command,
        Direction::Read => Protocol::Return,
    }
}
