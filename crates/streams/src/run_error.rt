//! The errors that end a run without an answer.
ghost use Rattle.std.specs.Prelude.{◌≡◌};
ghost use Rattle.streams.specs.RunError.{error_line};

use thiserror::Error;

/// What ended a run without an answer. Contracts allow `Memory` at any time and `Read` while a
/// capture is read. An error is displayed as the line that the program prints for it, without the
/// line feed; no contract says so.
#[derive(Clone, Copy, Debug, PartialEq, Eq, Error)]
#[error("{}", self.line().trim_end())]
pub enum RunError {
    /// Memory was refused.
    Memory,
    /// The capture, all its parts together, has more bytes than the limit.
    TooLarge,
    /// A read failed.
    Read,
    /// A write or the flush failed. A beginning of the text may have been written.
    Write,
    /// A file could not be opened.
    Open,
}

impl RunError {
    /// The line of standard error.
    pub fn line(self) -> &'static str
        ensures { result.now ≡ error_line self }
    {
        match self {
            RunError::Memory => "fault Memory\n",
            RunError::TooLarge => "fault TooLarge\n",
            RunError::Read => "fault Read\n",
            RunError::Write => "fault Write\n",
            RunError::Open => "fault Open\n",
        }
    }
}
