//! Answers a question about a capture whose parts come from readers or from files.
ghost use Rattle.std.specs.Prelude.{◌≡◌, ◌<◌, ◌^◌, ℕ, List, length, map, vec_len, Err, IfErr, IfOk, IfSome, IsOkUnless, ⊤};
ghost use Rattle.std.specs.List.{AllZip};
ghost use Rattle.transaction_view.specs.Grammar.{frames_of_parts};
ghost use Rattle.audit_join.specs.declared.limits.TheConstants.{CAPTURE_LIMIT};
ghost use Rattle.streams.specs.Stretches.{AreStretchesOf, IsStretchError};
ghost use Rattle.audit_words.specs.Request.{names_of};
ghost use Rattle.audit_run.specs.PartRuns.{AreOfOneFile, FilesGive, IsOpeningError, ReadersGive};
ghost use Rattle.audit_run.specs.Stretches.{unless_not_opened};
ghost use Rattle.audit_run.specs.Question.{IsByAll, answer_to, reading_status};
ghost use Rattle.audit_run.specs.Run.{RunEnds};
ghost use Rattle.audit_run.specs.Store.{HasLeft};

use crate::part_runs::{run_first_fault_parts, run_parts};
use crate::store::Store;
use crate::stretch_runs::report_stretches;
use crate::written::PartsWritten;
use audit_join::{CAPTURE_LIMIT, Piece};
use audit_words::{Question, Request};
use claim_board::{NoGate, Workers};
use std::alloc::Global;
use std::io::{Read, Write};
use std::thread::Threads;
use streams::{RunError, SharedFiles, read_stretches};

/// Opens the files that the request names, in order and all before the first is read, and answers
/// its question as `answer` does.
pub fn answer_files<T: Threads + Sync, S: Store, W: Write>(
    rt: &T,
    alloc: Global,
    store: &S,
    request: Request<'_>,
    out: &mut W,
) -> Result<u8, RunError>
    requires { length request.files.now < 2 ^ 32 }

    // The answer is about the files that the request names, in its order.
    ensures { RunEnds (FilesGive (map (S.bytes_of store.now) (names_of request.entry)))
        (answer_to request.entry.question) (λ parts. reading_status (frames_of_parts parts))
        (W.contents out.old) (W.contents out.new) result }
{
    let readers = open_files(alloc, store, request.files)?;
    let parts = read_together(rt, alloc, store, request)?;
    match (request.question, parts) {
        (Question::Report { workers, piece }, Some(parts)) => {
            report_stretches(rt, alloc, parts, out, workers, piece)
        }
        _ => answer(rt, alloc, request.question, readers, out),
    }
}

/// Reads the one file that a report is asked of by all workers at once, as parts. None if it is to
/// be read by its reader.
fn read_together<T: Threads + Sync, S: Store>(
    rt: &T,
    alloc: Global,
    store: &S,
    request: Request<'_>,
) -> Result<Option<Vec<Vec<u8>>>, RunError>
    ensures read { IfOk result (λ found. IfSome found (λ parts.
        AreOfOneFile (map (S.bytes_of store.now) (names_of request.entry))
        (map (λ part. part.items) parts.items))) }
    ensures faults { IfErr result (IsStretchError (λ error. ⊤)) }
    ensures always { (name : List ℕ) → IsByAll request.entry name →
        IfSome (S.always_of store.now name) (λ error. result ≡ unless_not_opened (Err error)) }
{
    let Question::Report { workers, piece: _ } = request.question else {
        return Ok(None);
    };
    if request.files.len() != 1 || workers.get() == 1 {
        return Ok(None);
    }
    read_file(rt, alloc, store, request.files[0], workers.get())
}

/// Reads a file by so many threads at once, as parts.
fn read_file<T: Threads + Sync, S: Store>(
    rt: &T,
    alloc: Global,
    store: &S,
    name: &str,
    threads: u64,
) -> Result<Option<Vec<Vec<u8>>>, RunError>
    ensures read { IfOk result (λ found. IfSome found (λ parts. AreStretchesOf CAPTURE_LIMIT
        (S.bytes_of store.now name.now) (map (λ part. part.items) parts.items))) }
    ensures faults { IfErr result (IsStretchError (S.errors_of store.now name.now)) }
    ensures always { IfSome (S.always_of store.now name.now) (λ error.
        result ≡ unless_not_opened (Err error)) }
{
    let Some(files) = store.shared() else {
        return Ok(None);
    };
    let Some(found) = files.find(name) else {
        return Ok(None);
    };
    let read = read_stretches(rt, alloc, files, name, found, CAPTURE_LIMIT, threads);
    unless_not_opened(read)
}

/// What reading a file as parts has given. If it could not be opened again, it is left to its
/// reader: no more files may be open, or the name has become that of another file.
fn unless_not_opened(
    read: Result<Option<Vec<Vec<u8>>>, RunError>,
) -> Result<Option<Vec<Vec<u8>>>, RunError>
    ensures { result ≡ unless_not_opened read }
{
    match read {
        Err(RunError::Open) => Ok(None),
        read => read,
    }
}

/// Opens these files in order. Memory for the list of all of them is taken first.
fn open_files<S: Store>(alloc: Global, store: &S, files: &[&str]) -> Result<Vec<S::Part>, RunError>
    ensures each { IfOk result (λ opened. AllZip HasLeft
        (map (S.bytes_of store.now) (map (λ file. file.now) files.now))
        (map S.Part.remaining opened.items)) }
    ensures faults { IfErr result IsOpeningError }
{
    let mut opened = Vec::with_capacity(alloc, files.len()).map_err(|_| RunError::Memory)?;
    for file in files {
        let reader = open_file(store, file)?;
        opened.push(reader).map_err(|_| RunError::Memory)?;
    }
    Ok(opened)
}

fn open_file<S: Store>(store: &S, file: &str) -> Result<S::Part, RunError>
    ensures left { IfOk result (λ part.
        HasLeft (S.bytes_of store.now file.now) (S.Part.remaining part)) }
    ensures fault { IsOkUnless result RunError.Open }
{
    store.open(file).map_err(|_| RunError::Open)
}

/// Reads the parts of a capture in order, writes the answer to the question about them, and gives
/// the status that goes with it.
pub fn answer<T: Threads + Sync, R: Read + Drop, W: Write>(
    rt: &T,
    alloc: Global,
    question: Question,
    readers: Vec<R>,
    out: &mut W,
) -> Result<u8, RunError>
    requires { vec_len readers < 2 ^ 32 }
    ensures { RunEnds (ReadersGive (map R.remaining readers.items)) (answer_to question)
        (λ parts. reading_status (frames_of_parts parts))
        (W.contents out.old) (W.contents out.new) result }
{
    match question {
        Question::Report { workers, piece } => {
            match run_parts(rt, alloc, readers, out, workers, piece, &NoGate)? {
                PartsWritten::Report => Ok(0),
                PartsWritten::Malformed(_) => Ok(2),
            }
        }
        Question::FirstFault => match run_first_fault_parts(alloc, readers, out)? {
            None => Ok(0),
            Some(_) => Ok(2),
        },
    }
}
