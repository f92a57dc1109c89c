//! Tests that `run_gated` hands on its workers, its piece and its gate.

use crate::writes::{FOUR_WRITES, RELEASE_FIRST};
use audit_run::{Gate, Piece, RunError, Workers, Written, run_gated};
use std::alloc::Global;
use std::test::Fail;
use std::thread::Threads;
use test_kit::Meeting;

/// Whether the capture has a report that begins so, in pieces of one frame.
fn is_report<T: Threads + Sync, G: Gate + Sync>(
    rt: &T,
    alloc: Global,
    capture: &[u8],
    workers: Workers,
    gate: &G,
    beginning: &[u8],
) -> Result<bool, RunError> {
    let Some(piece) = Piece::new(1) else {
        return Ok(false);
    };
    let mut reader = capture;
    let mut out = Vec::new(alloc);
    let written = run_gated(rt, alloc, &mut reader, &mut out, workers, piece, gate)?;
    Ok(written == Written::Report && out.as_slice().starts_with(beginning))
}

/// How the report on `RELEASE_FIRST` begins.
pub(super) const OF_TWO: &[u8] = b"BINDER AUDIT 2\nframes 2 records 2 opaque 0 missing 0\n";

#[test]
fn two_pieces_meet(rt: HostRuntime) -> Result<(), Fail> {
    let gate = Meeting::<2>::new();
    let two = Workers::new(2).ok_or("workers")?;
    assert!(rt; is_report(&rt, rt.alloc(), RELEASE_FIRST, two, &gate, OF_TWO)?);
    assert!(rt; gate.was_held());
    Ok(())
}

const OF_FOUR: &[u8] = b"BINDER AUDIT 2\nframes 4 records 4 opaque 0 missing 0\n";

#[test]
fn four_pieces_meet(rt: HostRuntime) -> Result<(), Fail> {
    let gate = Meeting::<4>::new();
    let four = Workers::new(4).ok_or("workers")?;
    assert!(rt; is_report(&rt, rt.alloc(), FOUR_WRITES, four, &gate, OF_FOUR)?);
    assert!(rt; gate.was_held());
    Ok(())
}
