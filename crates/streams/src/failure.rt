//! What ends the program without an answer: a status, and a line on standard error.
ghost use Rattle.std.specs.Prelude.{◌≡◌, OnOk, OnErr, IsOkUnless};
ghost use Rattle.std.specs.Io.KnownBytes.{Appends};
ghost use Rattle.streams.specs.KnownBytes.{AppendsPrefix};
ghost use Rattle.streams.specs.Failure.{line_of, status_of};

use crate::run_error::RunError;
use crate::writing::write_text;
use std::io::Write;

/// What ended the program without an answer.
#[derive(Clone, Copy)]
pub enum Failure {
    /// The words of the command line ask for nothing.
    Usage,
    Run(RunError),
}

impl Failure {
    /// The status that the process ends with.
    pub fn status(self) -> u8
        ensures { result ≡ status_of self }
    {
        match self {
            Failure::Usage => 64,
            Failure::Run(RunError::Memory) => 3,
            Failure::Run(_) => 4,
        }
    }

    /// The line of standard error.
    pub fn line(self) -> &'static str
        ensures { result.now ≡ line_of self }
    {
        match self {
            Failure::Usage => {
                "usage: binder_audit report [--workers N] [--piece N] FILE... or first-fault FILE...\n"
            }
            Failure::Run(error) => error.line(),
        }
    }

    /// Writes the failure's line.
    pub fn tell<E: Write>(self, err: &mut E) -> Result<(), RunError>
        ensures ok { OnOk result
            (Appends (E.contents err.old) (E.contents err.new) (line_of self)) }
        ensures err { OnErr result
            (AppendsPrefix (E.contents err.old) (E.contents err.new) (line_of self)) }
        ensures fault { IsOkUnless result RunError.Write }
    {
        write_text(err, self.line().as_bytes())
    }
}

impl From<RunError> for Failure {
    ghost use Rattle.streams.specs.declared.failure.Failure.TheVariants.{Run};

    ghost from_gives = { λ error failure. failure ≡ Run error };

    fn from(error: RunError) -> Failure {
        Failure::Run(error)
    }
}
