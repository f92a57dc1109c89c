//! The errors that end a listing early.

ghost use Rattle.std.specs.Prelude.{◌≡◌};
ghost use Rattle.std.specs.IoError.{error_kind};
ghost use Rattle.listing_fields.specs.Errors.{error_of_write, line_of, status_of};

use std::alloc::{AllocError, AllocFailed};
use std::io::{self, ErrorKind};
use streams::RunError;
use thiserror::Error;

/// Why a listing ended early. `Display` shows its line without the line feed.
#[derive(Clone, Copy, Debug, PartialEq, Eq, Error)]
#[error("{}", self.line().trim_end())]
pub enum ListingError {
    /// The command line has another form than the usage line.
    Usage,
    /// Memory ran out.
    Memory,
    /// A file has more bytes than are allowed.
    TooLarge,
    /// A read failed.
    Read,
    /// A write or the flush failed.
    Write,
    /// A file could not be opened.
    Open,
    /// The reader of the listing has closed the pipe. This is no failure: the listing ends without
    /// a line, with status 0.
    Closed,
}

/// What a step of a listing returns that gives nothing.
pub type Outcome = Result<(), ListingError>;

impl ListingError {
    /// The status that the process ends with.
    pub fn status(self) -> u8
        ensures { result ≡ status_of self }
    {
        match self {
            ListingError::Usage => 64,
            ListingError::Memory => 3,
            ListingError::Closed => 0,
            _ => 4,
        }
    }

    /// The line for standard error, with its line feed; empty for `Closed`.
    pub fn line(self) -> &'static str
        ensures { result.now ≡ line_of self }
    {
        match self {
            ListingError::Usage => {
                "usage: binder_tables --tables FOLDER FILE..., --table NAME FILE..., or --lines \
[--objects] [--at PLACE]... [--frame PLACE]... [--call PLACE]... FILE...\n"
            }
            ListingError::Memory => "fault Memory\n",
            ListingError::TooLarge => "fault TooLarge\n",
            ListingError::Read => "fault Read\n",
            ListingError::Write => "fault Write\n",
            ListingError::Open => "fault Open\n",
            ListingError::Closed => "",
        }
    }
}

impl From<AllocError> for ListingError {
    ghost use Rattle.std.specs.Prelude.{◌≡◌};
    ghost use Rattle.listing_fields.specs.declared.error.ListingError.TheVariants.{Memory};

    ghost from_gives = { λ _ error. error ≡ Memory };

    fn from(_error: AllocError) -> ListingError {
        ListingError::Memory
    }
}

impl<T: Drop> From<AllocFailed<T>> for ListingError {
    ghost use Rattle.std.specs.Prelude.{◌≡◌};
    ghost use Rattle.listing_fields.specs.declared.error.ListingError.TheVariants.{Memory};

    ghost from_gives = { λ _ error. error ≡ Memory };

    fn from(_error: AllocFailed<T>) -> ListingError {
        ListingError::Memory
    }
}

impl From<RunError> for ListingError {
    ghost use Rattle.std.specs.Prelude.{◌≡◌};
    ghost use Rattle.listing_fields.specs.Errors.{listing_error};

    ghost from_gives = { λ error listed. listed ≡ listing_error error };

    fn from(error: RunError) -> ListingError {
        match error {
            RunError::Memory => ListingError::Memory,
            RunError::TooLarge => ListingError::TooLarge,
            RunError::Read => ListingError::Read,
            RunError::Write => ListingError::Write,
            RunError::Open => ListingError::Open,
        }
    }
}

/// The error for a write that failed.
pub fn write_error(error: &io::Error) -> ListingError
    ensures { result ≡ error_of_write (error_kind error.now) }
{
    match error.kind() {
        ErrorKind::BrokenPipe => ListingError::Closed,
        _ => ListingError::Write,
    }
}
