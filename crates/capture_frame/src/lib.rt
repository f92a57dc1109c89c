//! The file header and the frames of a capture, or of several parts that are read as one. It also
//! has the shape that all readers of units share (`specs/ReadOn.antt`, `specs/Readers.antt`).
#![tactic(auto)]

mod all_frames;
mod cut_off;
mod direction;
mod fault;
mod frame;
mod frame_list;
mod frames;
mod header;
pub mod laws;
mod number;
mod process;
mod version;

pub use all_frames::{cut, cut_parts};
pub use cut_off::{Cut, PartCut};
pub use direction::Direction;
pub use fault::{Fault, FaultKind, PartFault};
pub use frame::Frame;
pub use frame_list::{FrameList, FrameSlice};
pub use frames::Frames;
pub use header::{FILE_HEADER, check_header};
pub use number::{u32_at, u64_at};
pub use process::{Process, Thread};
pub use version::Version;
