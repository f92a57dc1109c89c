use crate::fault::{Fault, PartFault};
use crate::frame::Frame;
use crate::frame_list::FrameList;

/// Why not all frames of a capture are given.
#[derive(Drop)]
pub enum Cut<'c> {
    /// A growth of memory was refused, or a frame begins at 2^32 or later.
    Memory,
    /// The capture has a fault.
    Bad {
        /// Its first fault, as far as its file header and its frame headers say.
        fault: Fault,
        /// The frames before the fault.
        before: Vec<Frame<'c>>,
    },
}

/// Why not all frames of parts are given.
#[derive(Drop)]
pub enum PartCut<'c> {
    /// A growth of memory was refused, or a frame begins at 2^32 or later.
    Memory,
    /// A part has a fault.
    Bad {
        /// The first fault, as far as file headers and frame headers say.
        found: PartFault,
        /// The frames before the fault, those of earlier parts too.
        before: FrameList<'c>,
    },
}

/// Why not all frames of one part are given.
#[derive(Clone, Copy)]
pub(crate) enum Stopped {
    Memory,
    Bad(Fault),
}
