//! Tests on captures in parts: how many reads there are, and that workers share the frames of all
//! parts.

use super::devices::{CAPTURE, REPORT};
use super::gate::OF_TWO;
use crate::devices::Sink;
use crate::writes::RELEASE_FIRST;
use audit_run::{
    Gate, NoGate, PartsWritten, Piece, RunError, Workers, read_parts, run_first_fault_parts,
    run_parts,
};
use capture_frame::PartFault;
use std::alloc::{AllocError, Global};
use std::io;
use std::io::{ErrorKind, Read, Write};
use std::process::Abort;
use std::sync::atomic::{AtomicU64, Ordering};
use std::test::Fail;
use std::thread::Threads;
use test_kit::Meeting;

// ---- readers

/// A reader that gives its bytes, one a read. The reads of all parts are counted together, and one
/// of them can fail.
#[derive(Drop)]
struct Part<'a, 'r> {
    rest: &'a [u8],
    reads: &'r AtomicU64,
    /// The number of the read that fails, from 1; 0 for none.
    fails_at: u64,
}

impl<'a, 'r> Read for Part<'a, 'r> {
    fn read(&mut self, buf: &mut [u8]) -> io::Result<usize> {
        let before = self.reads.fetch_add(1, Ordering::SeqCst);
        if before.saturating_add(1) == self.fails_at {
            return Err(io::Error::from(ErrorKind::Other));
        }
        if buf.is_empty() {
            return Ok(0);
        }
        match self.rest.split_first() {
            Some((first, rest)) => {
                buf[0] = *first;
                self.rest = rest;
                Ok(1)
            }
            None => Ok(0),
        }
    }
}

type Readers<'a, 'r> = Result<Vec<Part<'a, 'r>>, AllocError>;

/// A reader for each part.
fn readers_of<'a, 'r>(
    alloc: Global,
    parts: &[&'a [u8]],
    reads: &'r AtomicU64,
    fails_at: u64,
) -> Readers<'a, 'r> {
    let mut readers = Vec::new(alloc);
    for part in parts {
        readers.push(Part {
            rest: *part,
            reads,
            fails_at,
        })?;
    }
    Ok(readers)
}

/// How many reads give these parts whole: one a byte, and for each part the one that finds its end.
fn reads_of(parts: &[&[u8]]) -> u64 {
    let mut reads = parts.len() as u64;
    for part in parts {
        reads = reads.saturating_add(part.len() as u64);
    }
    reads
}

// ---- what is written

fn ran<T: Threads + Sync + Abort, W: Write, G: Gate + Sync>(
    rt: &T,
    alloc: Global,
    readers: Readers<'_, '_>,
    out: &mut W,
    shares: (Workers, Piece),
    gate: &G,
) -> Result<PartsWritten, RunError> {
    let Ok(readers) = readers else {
        return Err(RunError::Memory);
    };
    assert!(rt; readers.len() <= 256);
    run_parts(rt, alloc, readers, out, shares.0, shares.1, gate)
}

fn ran_first_fault<T: Abort>(
    rt: &T,
    alloc: Global,
    readers: Readers<'_, '_>,
    sink: &mut Sink<'_>,
) -> Result<Option<PartFault>, RunError> {
    let Ok(readers) = readers else {
        return Err(RunError::Memory);
    };
    assert!(rt; readers.len() <= 256);
    run_first_fault_parts(alloc, readers, sink)
}

/// Every part was read to its end, and this text was written byte for byte.
fn expect_whole<T: Abort>(rt: &T, parts: &[&[u8]], reads: u64, sink: &Sink<'_>, text: &[u8]) {
    let length = text.len() as u64;
    let seen = [reads, sink.writes, sink.taken as u64, sink.flushes];
    assert_eq!(rt; seen, [reads_of(parts), length, length, 1]);
}

/// What is answered, and the text.
type Due<'a> = (PartsWritten, &'a [u8]);

fn expect_by<T: Threads + Sync + Abort>(
    rt: &T,
    alloc: Global,
    parts: &[&[u8]],
    shares: (Workers, Piece),
    due: Due<'_>,
) {
    let reads = AtomicU64::new(0);
    let mut sink = Sink::new(due.1);
    let readers = readers_of(alloc, parts, &reads, 0);
    let written = ran(rt, alloc, readers, &mut sink, shares, &NoGate);
    assert_eq!(rt; written, Ok(due.0));
    expect_whole(rt, parts, reads.load(Ordering::SeqCst), &sink, due.1);
}

/// The same for `run_first_fault_parts`, which finds no fault.
fn expect_first_fault<T: Abort>(rt: &T, alloc: Global, parts: &[&[u8]], line: &[u8]) {
    let reads = AtomicU64::new(0);
    let mut sink = Sink::new(line);
    let readers = readers_of(alloc, parts, &reads, 0);
    let answer = ran_first_fault(rt, alloc, readers, &mut sink);
    assert_eq!(rt; answer, Ok(None));
    expect_whole(rt, parts, reads.load(Ordering::SeqCst), &sink, line);
}

fn shares(workers: u64, piece: u64) -> Result<(Workers, Piece), &'static str> {
    let workers = Workers::new(workers).ok_or("workers")?;
    let piece = Piece::new(piece).ok_or("piece")?;
    Ok((workers, piece))
}

// ---- reading

/// The parts, which read fails, and the limit; then the error, or none if all are read, and how
/// many reads there are.
type Reading = (&'static [&'static [u8]], u64, usize, Option<RunError>, u64);

const READINGS: &[Reading] = &[
    // Exactly the limit, with and without empty parts.
    (&[b"hello", b"more"], 0, 9, None, 11),
    (&[b"hello", b"", b"more"], 0, 9, None, 12),
    (&[b"", b"hello", b""], 0, 5, None, 8),
    (&[b"", b""], 0, 0, None, 2),
    (&[], 0, 0, None, 0),
    // One byte more: the part is read no further, and no later part is read.
    (&[b"hello", b"more"], 0, 8, Some(RunError::TooLarge), 10),
    (
        &[b"hello", b"more", b"x"],
        0,
        8,
        Some(RunError::TooLarge),
        10,
    ),
    (
        &[b"hello", b"more", b"x"],
        0,
        9,
        Some(RunError::TooLarge),
        12,
    ),
    (&[b"hello", b"", b"x"], 0, 5, Some(RunError::TooLarge), 8),
    (&[b"hello", b""], 0, 4, Some(RunError::TooLarge), 5),
    // Any read can fail, and is then the last one.
    (&[b"hello", b"more"], 1, 9, Some(RunError::Read), 1),
    (&[b"hello", b"more"], 6, 9, Some(RunError::Read), 6),
    (&[b"hello", b"more"], 7, 9, Some(RunError::Read), 7),
    (&[b"hello", b"more"], 11, 9, Some(RunError::Read), 11),
    // The error that happens first is the answer.
    (&[b"hello", b"more"], 10, 8, Some(RunError::Read), 10),
    (&[b"hello", b"more"], 11, 8, Some(RunError::TooLarge), 10),
];

fn expect_same<T: Abort>(rt: &T, read: &[Vec<u8>], parts: &[&[u8]]) {
    assert_eq!(rt; read.len(), parts.len());
    for (read, part) in read.iter().zip(parts) {
        assert_eq!(rt; read.as_slice(), *part);
    }
}

/// Reads readers that give one byte a read, and compares with the row.
fn expect_reading<T: Abort>(rt: &T, alloc: Global, row: &Reading) -> Result<(), AllocError> {
    let (parts, fails_at, limit, error, count) = *row;
    let reads = AtomicU64::new(0);
    let readers = readers_of(alloc, parts, &reads, fails_at)?;
    match read_parts(alloc, readers, limit) {
        Ok(read) => {
            assert_eq!(rt; error, None);
            expect_same(rt, read.as_slice(), parts);
        }
        Err(seen) => assert_eq!(rt; error, Some(seen)),
    }
    assert_eq!(rt; reads.load(Ordering::SeqCst), count);
    Ok(())
}

#[test]
fn reads_parts_in_order(rt: HostRuntime) -> Result<(), Fail> {
    for row in READINGS {
        expect_reading(&rt, rt.alloc(), row)?;
    }
    Ok(())
}

pub(super) const HEADER: &[u8] = b"BNDRCAP1\x08\0\0\0\0\0\0\0";

const CALL_AND_REPLY: &[&[u8]] = &[HEADER, CAPTURE];

/// How many reads give these whole.
const READS: u64 = 242;

/// That read is the last one, and nothing is written.
fn expect_unwritten<T: Abort>(rt: &T, reads: u64, sink: &Sink<'_>, at: u64) {
    let seen = [reads, sink.writes, sink.taken as u64, sink.flushes];
    assert_eq!(rt; seen, [at, 0, 0, 0]);
}

fn fail_read<T: Threads + Sync + Abort>(rt: &T, alloc: Global, shares: (Workers, Piece), at: u64) {
    let reads = AtomicU64::new(0);
    let mut sink = Sink::new(b"");
    let readers = readers_of(alloc, CALL_AND_REPLY, &reads, at);
    let written = ran(rt, alloc, readers, &mut sink, shares, &NoGate);
    assert_eq!(rt; written, Err(RunError::Read));
    expect_unwritten(rt, reads.load(Ordering::SeqCst), &sink, at);
}

fn fail_read_of_first_fault<T: Abort>(rt: &T, alloc: Global, at: u64) {
    let reads = AtomicU64::new(0);
    let mut sink = Sink::new(b"");
    let readers = readers_of(alloc, CALL_AND_REPLY, &reads, at);
    let answer = ran_first_fault(rt, alloc, readers, &mut sink);
    assert_eq!(rt; answer, Err(RunError::Read));
    expect_unwritten(rt, reads.load(Ordering::SeqCst), &sink, at);
}

#[test]
fn each_read_of_parts_fails(rt: HostRuntime) -> Result<(), Fail> {
    let shares = shares(1, 1)?;
    for at in 1..=READS {
        fail_read(&rt, rt.alloc(), shares, at);
        fail_read_of_first_fault(&rt, rt.alloc(), at);
    }
    assert_eq!(rt; reads_of(CALL_AND_REPLY), READS);
    Ok(())
}

#[test]
fn parts_are_read_and_answered_whole(rt: HostRuntime) -> Result<(), Fail> {
    let shares = shares(1, 1)?;
    let due = (PartsWritten::Report, REPORT);
    expect_by(&rt, rt.alloc(), CALL_AND_REPLY, shares, due);
    expect_first_fault(&rt, rt.alloc(), CALL_AND_REPLY, b"no malformed record\n");
    Ok(())
}

// ---- the gate

/// A part with this file header and these frames.
pub(super) fn part_of(alloc: Global, header: &[u8], frames: &[u8]) -> Result<Vec<u8>, AllocError> {
    let mut part = Vec::new(alloc);
    part.extend_from_slice(header)?;
    part.extend_from_slice(frames)?;
    Ok(part)
}

/// Two workers are at work at the same time, each with a frame of these parts.
fn expect_meeting<T: Threads + Sync + Abort>(
    rt: &T,
    alloc: Global,
    parts: &[&[u8]],
    shares: (Workers, Piece),
) -> Result<(), AllocError> {
    let gate = Meeting::<2>::new();
    let reads = AtomicU64::new(0);
    let readers = readers_of(alloc, parts, &reads, 0);
    let mut out = Vec::new(alloc);
    let written = ran(rt, alloc, readers, &mut out, shares, &gate);
    assert_eq!(rt; written, Ok(PartsWritten::Report));
    assert!(rt; out.as_slice().starts_with(OF_TWO));
    assert!(rt; gate.was_held());
    Ok(())
}

#[test]
fn two_pieces_of_one_part_meet(rt: HostRuntime) -> Result<(), Fail> {
    expect_meeting(&rt, rt.alloc(), &[RELEASE_FIRST], shares(2, 1)?)?;
    Ok(())
}

/// The same if the capture is cut at this place, so that each frame is in a part of its own.
fn expect_parts_meet<T: Threads + Sync + Abort>(
    rt: &T,
    alloc: Global,
    capture: &[u8],
    at: usize,
    shares: (Workers, Piece),
) -> Result<(), AllocError> {
    let (first, rest) = capture.split_at(at.min(capture.len()));
    let second = part_of(alloc, HEADER, rest)?;
    expect_meeting(rt, alloc, &[first, second.as_slice()], shares)
}

#[test]
fn two_parts_meet(rt: HostRuntime) -> Result<(), Fail> {
    expect_parts_meet(&rt, rt.alloc(), RELEASE_FIRST, 56, shares(2, 1)?)?;
    Ok(())
}
