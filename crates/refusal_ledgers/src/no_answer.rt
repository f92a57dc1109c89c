//! Why a call prints no answer.
use std::alloc::AllocError;
use std::io;
use streams::RunError;

/// Whether the answer of a call is printed.
pub type Printed = Result<(), NoAnswer>;

/// Why no answer is printed.
#[derive(Clone, Copy, Debug)]
pub enum NoAnswer {
    /// The call, or what comes before it, was refused memory.
    Memory,
    /// A stream failed, even if it failed because memory was refused.
    Stream,
    /// No call has the name.
    Unknown,
    /// The capture has a fault, or the list can't be summed, and the call needs one without.
    Unfit,
}

impl NoAnswer {
    /// The status that the process ends with. It is 0 if the call answered, even with a fault of
    /// the capture, and if the names were listed.
    pub fn status(self) -> u8 {
        match self {
            NoAnswer::Memory => 3,
            NoAnswer::Stream => 4,
            NoAnswer::Unknown => 64,
            NoAnswer::Unfit => 65,
        }
    }
}

impl From<AllocError> for NoAnswer {
    fn from(_error: AllocError) -> NoAnswer {
        NoAnswer::Memory
    }
}

impl From<io::Error> for NoAnswer {
    fn from(_error: io::Error) -> NoAnswer {
        NoAnswer::Stream
    }
}

impl From<RunError> for NoAnswer {
    fn from(error: RunError) -> NoAnswer {
        match error {
            RunError::Memory => NoAnswer::Memory,
            _ => NoAnswer::Stream,
        }
    }
}
