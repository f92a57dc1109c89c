//! Answers what the words of a command line ask for.
ghost use Rattle.std.specs.Prelude.{map, string_bytes, IfErr, IfOk};
ghost use Rattle.audit_program.specs.Program.{AnswersWords, FailureLeaves};

use audit_run::{Store, answer_files};
use audit_words::{free, matches_of, request_of};
use std::alloc::Global;
use std::io::Write;
use std::thread::Threads;
use streams::Failure;

/// Answers what the words ask for. The first word is the program's own name.
pub(crate) fn answer_words<T: Threads + Sync, S: Store, W: Write>(
    rt: &T,
    alloc: Global,
    store: &S,
    words: &[String],
    out: &mut W,
) -> Result<u8, Failure>
    ensures answered { IfOk result
        (AnswersWords (S.bytes_of store.now) (map string_bytes words.now)
        (W.contents out.old) (W.contents out.new)) }
    ensures failed { IfErr result
        (FailureLeaves (S.bytes_of store.now) (map string_bytes words.now)
        (W.contents out.old) (W.contents out.new)) }
{
    let matches = matches_of(alloc, words)?;
    let Some(request) = request_of(&matches) else {
        free(matches);
        return Err(Failure::Usage);
    };
    let status = answer_files(rt, alloc, store, request, out);
    free(matches);
    Ok(status?)
}
