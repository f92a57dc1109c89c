//! Frames by their bytes.

use crate::expect::{holds, same};
use capture_frame::{Direction, Fault, Frame, Frames};
use std::alloc::{AllocError, Global};
use std::process::Abort;
use std::test::Fail;

/// The file header and a write of four command bytes, of the sequence 7: 52 bytes.
const BEFORE: &[u8] = b"BNDRCAP1\x08\0\0\0\0\0\0\0\
    \x07\0\0\0\0\0\0\0\x64\0\0\0\x65\0\0\0\x01\0\0\0\x04\0\0\0\0\0\0\0\0\0\0\0\x0c\x63\0\0";

/// A read of eight command bytes and three attachment bytes.
const READ: &[u8] = b"\x08\x07\x06\x05\x04\x03\x02\x01\x0c\x0b\x0a\x09\x10\x0f\x0e\x0d\
    \x02\0\0\0\x08\0\0\0\x03\0\0\0\0\0\0\0commandsend";

/// A capture whose first frame is followed by these bytes.
fn capture_with(alloc: Global, rest: &[u8]) -> Result<Vec<u8>, AllocError> {
    let mut capture = Vec::from_slice(alloc, BEFORE)?;
    capture.extend_from_slice(rest)?;
    Ok(capture)
}

pub(crate) fn expect_number(rt: &impl Abort, found: u64, expected: u64) {
    same(rt, found, expected);
}

pub(crate) fn expect_bytes(rt: &impl Abort, found: &[u8], expected: &[u8]) {
    same(rt, found, expected);
}

fn expect_first(rt: &impl Abort, frame: Frame<'_>) {
    expect_number(rt, frame.place, 16);
    expect_number(rt, frame.sequence, 7);
    expect_number(rt, u64::from(frame.device), 0);
    holds(rt, frame.direction == Direction::Write);
    expect_bytes(rt, frame.commands, b"\x0c\x63\0\0");
}

fn expect_second(rt: &impl Abort, frame: Frame<'_>) {
    expect_number(rt, frame.place, 52);
    expect_number(rt, frame.sequence, 0x0102_0304_0506_0708);
    expect_number(rt, u64::from(frame.process), 0x090a_0b0c);
    expect_number(rt, u64::from(frame.thread), 0x0d0e_0f10);
    holds(rt, frame.direction == Direction::Read);
    expect_bytes(rt, frame.commands, b"commands");
    expect_bytes(rt, frame.attachments, b"end");
    expect_number(rt, frame.commands_place(), 84);
    expect_number(rt, frame.attachments_place(), 92);
}

fn expect_end(rt: &impl Abort, reader: &mut Frames<'_>) -> Result<(), Fault> {
    holds(rt, reader.next_frame()?.is_none());
    Ok(())
}

/// The next frame, by a call of its own, so that a test does not carry what `next_frame` promises.
fn next<'c>(reader: &mut Frames<'c>) -> Result<Frame<'c>, Fail> {
    Ok(reader.next_frame()?.ok_or("a frame is missing")?)
}

#[test]
fn reads_frame_by_frame(rt: HostRuntime) -> Result<(), Fail> {
    let capture = capture_with(rt.alloc(), READ)?;
    let mut reader = Frames::new(capture.as_slice())?;
    expect_first(&rt, next(&mut reader)?);
    expect_second(&rt, next(&mut reader)?);
    for _ in 0..2 {
        expect_end(&rt, &mut reader)?;
    }
    Ok(())
}

fn first_frame(capture: &[u8]) -> Result<Frame<'_>, Fail> {
    let mut reader = Frames::new(capture)?;
    next(&mut reader)
}

#[test]
fn leaves_a_frame_that_outlives_its_reader(rt: HostRuntime) -> Result<(), Fail> {
    expect_first(&rt, first_frame(BEFORE)?);
    Ok(())
}
