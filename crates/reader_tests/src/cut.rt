//! Whole captures at once: good ones, one with a fault of the file header, and one with a fault of
//! the third frame.

use crate::expect::same;
use crate::frames::{expect_bytes, expect_number};
use capture_frame::{Cut, Fault, FaultKind, Frame, cut};
use std::alloc::Global;
use std::process::Abort;
use std::test::Fail;

/// A capture, how many frames are given of it, and its first fault.
#[derive(Clone, Copy)]
struct Row {
    capture: &'static [u8],
    frames: usize,
    fault: Option<Fault>,
}

/// The frames are those of process 100 and thread 101, of 36 bytes each, with the sequences 1, 2
/// and on.
const ROWS: &[Row] = &[
    Row {
        capture: b"BNDRCAP1\x08\0\0\0\0\0\0\0",
        frames: 0,
        fault: None,
    },
    Row {
        capture: b"BNDRCAP1\x08\0\0\0\0\0\0\0\
            \x01\0\0\0\0\0\0\0\x64\0\0\0\x65\0\0\0\x01\0\0\0\x04\0\0\0\0\0\0\0\0\0\0\0\x0c\x63\0\0\
            \x02\0\0\0\0\0\0\0\x64\0\0\0\x65\0\0\0\x01\0\0\0\x04\0\0\0\0\0\0\0\0\0\0\0\x0c\x63\0\0",
        frames: 2,
        fault: None,
    },
    Row {
        capture: b"BNDRCAP2\x08\0\0\0\0\0\0\0\
            \x01\0\0\0\0\0\0\0\x64\0\0\0\x65\0\0\0\x01\0\0\0\
            \x04\0\0\0\0\0\0\0\x01\0\0\0\x0c\x63\0\0\
            \x02\0\0\0\0\0\0\0\x64\0\0\0\x65\0\0\0\x01\0\0\0\
            \x04\0\0\0\0\0\0\0\xff\xff\xff\xff\x0c\x63\0\0",
        frames: 2,
        fault: None,
    },
    Row {
        capture: b"BNDRCAP1\x08\0\0\0\0\0\0",
        frames: 0,
        fault: Some(Fault {
            kind: FaultKind::HeaderShort,
            place: 0,
        }),
    },
    Row {
        capture: b"BNDRCAP1\x08\0\0\0\0\0\0\0\
            \x01\0\0\0\0\0\0\0\x64\0\0\0\x65\0\0\0\x01\0\0\0\x04\0\0\0\0\0\0\0\0\0\0\0\x0c\x63\0\0\
            \x02\0\0\0\0\0\0\0\x64\0\0\0\x65\0\0\0\x01\0\0\0\x04\0\0\0\0\0\0\0\0\0\0\0\x0c\x63\0\0\
            \x03\0\0\0\0\0\0\0\x64\0\0\0\x65\0\0\0\x01\0\0\0\
            \x04\0\0\0\x01\0\0\0\0\0\0\0\x0c\x63\0\0",
        frames: 2,
        fault: Some(Fault {
            kind: FaultKind::FrameLength,
            place: 88,
        }),
    },
];

fn expect_frame(rt: &impl Abort, frame: Frame<'_>, place: u64, sequence: u64) {
    expect_number(rt, frame.place, place);
    expect_number(rt, frame.sequence, sequence);
    expect_bytes(rt, frame.commands, b"\x0c\x63\0\0");
}

/// There are `count` frames, one directly after another.
fn expect_frames(rt: &impl Abort, frames: &[Frame<'_>], count: usize) {
    same(rt, frames.len(), count);
    let mut place = 16u64;
    let mut sequence = 1u64;
    for frame in frames {
        expect_frame(rt, *frame, place, sequence);
        place = place.saturating_add(36);
        sequence = sequence.saturating_add(1);
    }
}

fn expect_cut(rt: &impl Abort, alloc: Global, row: Row) -> Result<(), Fail> {
    match cut(alloc, row.capture) {
        Ok(frames) => {
            same(rt, row.fault, None);
            expect_frames(rt, &frames, row.frames);
        }
        Err(Cut::Bad { fault, before }) => {
            same(rt, row.fault, Some(fault));
            expect_frames(rt, &before, row.frames);
        }
        Err(Cut::Memory) => return Err("no memory")?,
    }
    Ok(())
}

#[test]
fn gives_all_frames_or_those_before_the_fault(rt: HostRuntime) -> Result<(), Fail> {
    for row in ROWS {
        expect_cut(&rt, rt.alloc(), *row)?;
    }
    Ok(())
}
