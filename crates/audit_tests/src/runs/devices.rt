//! Tests of `answer` with a device that fails: at each read, at each write, and at the flush. The
//! failed call is the last one, and up to it the text was written byte for byte.

ghost use Rattle.std.specs.Prelude.{◌≡◌, IfOk, vec_len};

use crate::devices::{Drip, Sink};
use audit_run::{Piece, Question, RunError, Workers, answer};
use std::alloc::{AllocError, Global};
use std::io::{ErrorKind, Read};
use std::process::Abort;
use std::test::Fail;
use std::thread::Threads;

/// A call and its reply.
pub(super) const CAPTURE: &[u8] = b"BNDRCAP1\x08\0\0\0\0\0\0\0\
\x01\0\0\0\0\0\0\0\x64\0\0\0\x65\0\0\0\x01\0\0\0\x44\0\0\0\0\0\0\0\0\0\0\0\
\0\x63\x40\x40\x01\0\0\0\0\0\0\0\0\0\0\0\0\0\0\0\x02\0\0\0\0\0\0\0\
\0\0\0\0\0\0\0\0\0\0\0\0\0\0\0\0\0\0\0\0\0\0\0\0\0\0\0\0\0\0\0\0\0\0\0\0\0\0\0\0\
\x02\0\0\0\0\0\0\0\x64\0\0\0\x65\0\0\0\x02\0\0\0\x4c\0\0\0\0\0\0\0\0\0\0\0\
\x0c\x72\0\0\x06\x72\0\0\x03\x72\x40\x80\0\0\0\0\0\0\0\0\0\0\0\0\0\0\0\0\
\0\0\0\0\0\0\0\0\0\0\0\0\0\0\0\0\0\0\0\0\0\0\0\0\0\0\0\0\0\0\0\0\
\0\x70\0\0\0\0\0\0\0\0\0\0\0\0\0\0";

pub(super) const REPORT: &[u8] = b"BINDER AUDIT 2\n\
frames 2 records 4 opaque 0 missing 0\n\
codes 4\n  0x00007206 BR_TRANSACTION_COMPLETE 1\n  0x0000720c BR_NOOP 1\n  \
0x40406300 BC_TRANSACTION 1\n  0x80407203 BR_REPLY 1\n\
calls 1 answered 1 failed 0 unanswered 0\n\
served 0 replied 0 crossed 0 open 0\n\
strays 0\n\
refused 0\n\
handles 0 unbalanced 0\n\
nodes 0 unbalanced 0\n\
buffers 1 leaked 1\n  156 0 100 0x7000 0 BR_REPLY\n\
frees 0 stray 0\n\
requests 0 standing 0\n\
deaths 0 unacknowledged 0 stray 0\n\
clears 0 unconfirmed 0 stray 0\n\
oneway sent 0 received 0 refused 0\n\
objects binder 0 weak_binder 0 handle 0 weak_handle 0 fd 0 fda 0 ptr 0 bad 0\n\
flags 0\n";

const LINE: &[u8] = b"no malformed record\n";

/// How many reads give the whole capture: one a byte, and the one that finds its end.
const READS: u64 = 225;

/// What was answered; and how many reads, writes, bytes of the text that were taken, and flushes
/// there were.
type Seen = (Result<u8, RunError>, [u64; 4]);

/// The list of readers of a capture that is a single part.
fn alone<R: Read + Drop>(alloc: Global, reader: R) -> Result<Vec<R>, AllocError>
    ensures { IfOk result (λ readers. vec_len readers ≡ 1) }
{
    let mut readers = Vec::new(alloc);
    readers.push(reader)?;
    Ok(readers)
}

fn seen<T: Threads + Sync>(
    rt: &T,
    alloc: Global,
    question: Question,
    mut reader: Drip<'_>,
    mut sink: Sink<'_>,
) -> Seen {
    let outcome = match alone(alloc, &mut reader) {
        Ok(readers) => answer(rt, alloc, question, readers, &mut sink),
        Err(_) => Err(RunError::Memory),
    };
    let counts = [reader.reads, sink.writes, sink.taken as u64, sink.flushes];
    (outcome, counts)
}

fn expect<T: Abort>(rt: &T, seen: Seen, outcome: Result<u8, RunError>, counts: [u64; 4]) {
    assert_eq!(rt; seen.0, outcome);
    assert_eq!(rt; seen.1, counts);
}

fn report() -> Option<Question> {
    Some(Question::Report {
        workers: Workers::new(1)?,
        piece: Piece::new(1)?,
    })
}

const FIRST_FAULT: Question = Question::FirstFault;

/// If this read fails, it is the last one, and nothing is written.
fn fail_read<T: Threads + Abort + Sync>(rt: &T, alloc: Global, question: Question, at: u64) {
    for kind in [ErrorKind::Other, ErrorKind::Interrupted] {
        let reader = Drip::failing(CAPTURE, at, kind);
        let seen = seen(rt, alloc, question, reader, Sink::new(b""));
        expect(rt, seen, Err(RunError::Read), [at, 0, 0, 0]);
    }
}

#[test]
fn each_read_fails(rt: HostRuntime) -> Result<(), Fail> {
    let report = report().ok_or("report")?;
    for at in 1..=READS {
        fail_read(&rt, rt.alloc(), report, at);
        fail_read(&rt, rt.alloc(), FIRST_FAULT, at);
    }
    Ok(())
}

/// If this write fails, it is the last one, the bytes before it are written, and nothing is
/// flushed.
fn fail_write<T: Threads + Abort + Sync>(
    rt: &T,
    alloc: Global,
    question: Question,
    text: &[u8],
    at: u64,
) {
    for fault in [Some(ErrorKind::Other), Some(ErrorKind::Interrupted), None] {
        let sink = Sink::failing(text, at, fault);
        let seen = seen(rt, alloc, question, Drip::new(CAPTURE), sink);
        expect(
            rt,
            seen,
            Err(RunError::Write),
            [READS, at, at.saturating_sub(1), 0],
        );
    }
}

/// Each write of the text fails in turn, then its flush, then nothing.
fn fail_writes<T: Threads + Abort + Sync>(rt: &T, alloc: Global, question: Question, text: &[u8]) {
    let length = text.len() as u64;
    for at in 1..=length {
        fail_write(rt, alloc, question, text, at);
    }
    let all = [READS, length, length, 1];
    for kind in [ErrorKind::Other, ErrorKind::Interrupted] {
        let sink = Sink::unflushed(text, kind);
        let seen = seen(rt, alloc, question, Drip::new(CAPTURE), sink);
        expect(rt, seen, Err(RunError::Write), all);
    }
    let seen = seen(rt, alloc, question, Drip::new(CAPTURE), Sink::new(text));
    expect(rt, seen, Ok(0), all);
}

#[test]
fn each_write_fails(rt: HostRuntime) -> Result<(), Fail> {
    let report = report().ok_or("report")?;
    fail_writes(&rt, rt.alloc(), report, REPORT);
    fail_writes(&rt, rt.alloc(), FIRST_FAULT, LINE);
    Ok(())
}
