//! Tests of `streams`: a reader read whole and a text written whole, byte by byte, also with
//! devices that fail; and the lines of errors.

use crate::devices::{Drip, Sink};
use std::alloc::Global;
use std::io::ErrorKind;
use std::process::Abort;
use std::test::Fail;
use streams::{Failure, RunError, read_capture, write_text};

// ---- reading

#[test]
fn reads_up_to_the_limit(rt: HostRuntime) -> Result<(), Fail> {
    let capture = read_capture(rt.alloc(), &mut b"hello".as_slice(), 5)?;
    assert_eq!(rt; capture.as_slice(), b"hello".as_slice());
    let outcome = read_capture(rt.alloc(), &mut b"hello".as_slice(), 4);
    assert!(rt; matches!(outcome, Err(RunError::TooLarge)));
    Ok(())
}

/// How many bytes a reader has, at which read it fails, and the limit; then how many bytes are
/// read, or the error, and by how many reads.
type Reading = (u64, u64, usize, Result<usize, RunError>, u64);

const READINGS: &[Reading] = &[
    // There is one read more than the limit.
    (64, 0, 64, Ok(64), 65),
    (u64::MAX, 0, 64, Err(RunError::TooLarge), 65),
    // Any read can fail, and is not tried again.
    (5, 1, 5, Err(RunError::Read), 1),
    (5, 2, 5, Err(RunError::Read), 2),
    (5, 5, 5, Err(RunError::Read), 5),
    (5, 6, 5, Err(RunError::Read), 6),
    // The error that happens first is the answer.
    (9, 5, 3, Err(RunError::TooLarge), 4),
    (9, 4, 3, Err(RunError::Read), 4),
];

/// Reads a reader that gives one byte a read, and compares with the row.
fn expect_reading<T: Abort>(rt: &T, alloc: Global, row: &Reading, kind: ErrorKind) {
    let (bytes, fails_at, limit, outcome, reads) = *row;
    let mut reader = Drip::of_letters(bytes, fails_at, kind);
    let read = read_capture(alloc, &mut reader, limit).map(|capture| capture.len());
    assert_eq!(rt; read, outcome);
    assert_eq!(rt; reader.reads, reads);
}

#[test]
fn reads_byte_by_byte(rt: HostRuntime) {
    for row in READINGS {
        expect_reading(&rt, rt.alloc(), row, ErrorKind::Other);
        expect_reading(&rt, rt.alloc(), row, ErrorKind::Interrupted);
    }
}

// ---- writing

const TEXT: &[u8] = b"text\n";

/// Writes five bytes to a writer that takes one byte a write, and compares with what is due: the
/// outcome, and how many writes, bytes of the text that were taken, and flushes there were.
fn expect_writing<T: Abort>(
    rt: &T,
    mut sink: Sink<'_>,
    outcome: Result<(), RunError>,
    counts: [u64; 3],
) {
    assert_eq!(rt; write_text(&mut sink, TEXT), outcome);
    assert_eq!(rt; [sink.writes, sink.taken as u64, sink.flushes], counts);
}

#[test]
fn writes_byte_by_byte(rt: HostRuntime) {
    expect_writing(&rt, Sink::new(TEXT), Ok(()), [5, 5, 1]);
    for kind in [ErrorKind::Other, ErrorKind::Interrupted] {
        expect_writing(
            &rt,
            Sink::unflushed(TEXT, kind),
            Err(RunError::Write),
            [5, 5, 1],
        );
    }
}

#[test]
fn stops_where_a_write_fails(rt: HostRuntime) {
    for at in 1..=5u64 {
        for fault in [Some(ErrorKind::Other), Some(ErrorKind::Interrupted), None] {
            let sink = Sink::failing(TEXT, at, fault);
            expect_writing(
                &rt,
                sink,
                Err(RunError::Write),
                [at, at.saturating_sub(1), 0],
            );
        }
    }
}

// ---- failures

const SHOWN: [(RunError, &str); 5] = [
    (RunError::Memory, "fault Memory"),
    (RunError::TooLarge, "fault TooLarge"),
    (RunError::Read, "fault Read"),
    (RunError::Write, "fault Write"),
    (RunError::Open, "fault Open"),
];

#[test]
fn displays_each_error_without_a_line_feed(rt: HostRuntime) -> Result<(), Fail> {
    for (error, shown) in SHOWN {
        let text = format!(in rt.alloc(); "{error}")?;
        assert_eq!(rt; text.as_str(), shown);
    }
    Ok(())
}

#[test]
fn tells_a_beginning_where_a_write_fails(rt: HostRuntime) {
    let mut sink = Sink::failing(b"fault Memory\n", 4, Some(ErrorKind::Other));
    let told = Failure::Run(RunError::Memory).tell(&mut sink);
    assert_eq!(rt; told, Err(RunError::Write));
    assert_eq!(rt; [sink.writes, sink.taken as u64, sink.flushes], [4, 3, 0]);
}
