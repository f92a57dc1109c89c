//! From the words of a command line to two streams and a status.
ghost use Rattle.std.specs.Prelude.{◌≡◌, IfOk, map, string_bytes};
ghost use Rattle.std.specs.Process.{exit_status};
ghost use Rattle.std.specs.Vec.Iter.{into_iter_items};
ghost use Rattle.streams.specs.Failure.{line_of, status_of};
ghost use Rattle.audit_program.specs.Failure.{failure_of_words};
ghost use Rattle.audit_program.specs.Program.{EndsOn, HostProgramEnds, ProgramEnds, Tells};

use crate::answers::answer_words;
use audit_run::{HostFiles, Store};
use std::alloc::{AllocError, Global};
use std::env::Args;
use std::fs::Files;
use std::io;
use std::io::{ErrorKind, Write};
use std::process::ExitCode;
use std::thread::Threads;
use streams::{Failure, RunError, SharedFiles};

/// How the program ended.
#[derive(Clone, Copy, Debug, PartialEq, Eq)]
pub struct Ending {
    /// The status that the process must end with.
    pub status: u8,
    /// Whether standard error took the line of a failure; true if there was none.
    pub told: bool,
}

/// `program_on` the files of the system: does what the words ask for, and gives the status that the
/// process must end with.
pub fn program<T: Files + SharedFiles + Threads + Sync, W: Write, E: Write>(
    rt: &T,
    alloc: Global,
    words: &[String],
    out: &mut W,
    err: &mut E,
) -> u8
    ensures { HostProgramEnds (map string_bytes words.now)
        (W.contents out.old) (W.contents out.new)
        (E.contents err.old) (E.contents err.new) result }
{
    program_on(rt, alloc, &HostFiles { files: rt }, words, out, err).status
}

/// Does what the words ask for, with the files that the store opens. The first word is the program's
/// own name.
pub fn program_on<T: Threads + Sync, S: Store, W: Write, E: Write>(
    rt: &T,
    alloc: Global,
    store: &S,
    words: &[String],
    out: &mut W,
    err: &mut E,
) -> Ending
    ensures { ProgramEnds (S.bytes_of store.now) (map string_bytes words.now)
        (W.contents out.old) (W.contents out.new)
        (E.contents err.old) (E.contents err.new) result.status result.told }
{
    match answer_words(rt, alloc, store, words, out) {
        Ok(status) => Ending { status, told: true },
        Err(failure) => ended_by(failure, err),
    }
}

/// Writes the failure's line, and gives its status even if the line can't be written.
fn ended_by<E: Write>(failure: Failure, err: &mut E) -> Ending
    ensures status { result.status ≡ status_of failure }
    ensures line { Tells result.told (E.contents err.old) (E.contents err.new) (line_of failure) }
{
    let told = failure.tell(err).is_ok();
    let status = failure.status();
    Ending { status, told }
}

/// `program` on the words of the process, as the system gave them. If the system could not give
/// them, the status is that of `Memory` or of `Usage`.
pub fn ended<T: Files + SharedFiles + Threads + Sync, W: Write, E: Write>(
    rt: &T,
    alloc: Global,
    words: io::Result<Args>,
    out: &mut W,
    err: &mut E,
) -> ExitCode
    ensures { EndsOn words (W.contents out.old) (W.contents out.new)
        (E.contents err.old) (E.contents err.new) (exit_status result) }
{
    match words {
        Ok(words) => ExitCode::from(program_on_args(rt, alloc, words, out, err)),
        Err(error) => ExitCode::from(ended_by(words_failure(error.kind()), err).status),
    }
}

/// The failure if the system could not give the process its words.
fn words_failure(kind: ErrorKind) -> Failure
    ensures { result ≡ failure_of_words kind }
{
    match kind {
        ErrorKind::OutOfMemory => Failure::Run(RunError::Memory),
        _ => Failure::Usage,
    }
}

/// `program` on words that are not yet in a list.
fn program_on_args<T: Files + SharedFiles + Threads + Sync, W: Write, E: Write>(
    rt: &T,
    alloc: Global,
    words: Args,
    out: &mut W,
    err: &mut E,
) -> u8
    ensures { HostProgramEnds (map string_bytes (into_iter_items words))
        (W.contents out.old) (W.contents out.new)
        (E.contents err.old) (E.contents err.new) result }
{
    match list_of(alloc, words) {
        Ok(words) => program(rt, alloc, words.as_slice(), out, err),
        Err(_) => ended_by(Failure::Run(RunError::Memory), err).status,
    }
}

/// These words in a list.
fn list_of(alloc: Global, words: Args) -> Result<Vec<String>, AllocError>
    ensures { IfOk result (λ list. list.items ≡ into_iter_items words) }
{
    let mut list = Vec::new(alloc);
    for word in words {
        list.push(word)?;
    }
    Ok(list)
}
