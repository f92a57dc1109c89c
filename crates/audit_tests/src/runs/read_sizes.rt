//! Tests how many bytes `run` asks its reader for at a time.

use audit_run::{Piece, RunError, Workers, Written, run};
use std::alloc::{AllocError, Global};
use std::io;
use std::io::Read;
use std::test::Fail;
use std::thread::Threads;

/// A reader that gives as many bytes as it is asked for, as long as it has them.
#[derive(Drop)]
struct Giver<'a> {
    rest: &'a [u8],
    reads: u64,
    /// The fewest bytes that a read asked for.
    fewest: usize,
}

impl<'a> Read for Giver<'a> {
    fn read(&mut self, buf: &mut [u8]) -> io::Result<usize> {
        self.reads = self.reads.saturating_add(1);
        self.fewest = self.fewest.min(buf.len());
        self.rest.read(buf)
    }
}

/// The headers of a capture of one write with 8,192 bytes of records.
const HEADERS: &[u8] = b"BNDRCAP1\x08\0\0\0\0\0\0\0\
\x01\0\0\0\0\0\0\0\x64\0\0\0\x65\0\0\0\x01\0\0\0\0\x20\0\0\0\0\0\0\0\0\0\0";

/// `BC_ENTER_LOOPER`, of four bytes.
const RECORD: &[u8] = b"\x0c\x63\0\0";

fn long_capture(alloc: Global) -> Result<Vec<u8>, AllocError> {
    let mut capture = Vec::new(alloc);
    capture.extend_from_slice(HEADERS)?;
    for _ in 0..2_048 {
        capture.extend_from_slice(RECORD)?;
    }
    Ok(capture)
}

/// What `run` answers about the reader's bytes.
fn written<T: Threads + Sync>(
    rt: &T,
    alloc: Global,
    reader: &mut Giver<'_>,
    workers: Workers,
    piece: Piece,
) -> Result<Written, RunError> {
    let mut out = Vec::new(alloc);
    run(rt, alloc, reader, &mut out, workers, piece)
}

#[test]
fn asks_for_many_bytes_at_a_time(rt: HostRuntime) -> Result<(), Fail> {
    let capture = long_capture(rt.alloc())?;
    let mut reader = Giver {
        rest: capture.as_slice(),
        reads: 0,
        fewest: usize::MAX,
    };
    let one = Workers::new(1).ok_or("workers")?;
    let piece = Piece::new(256).ok_or("piece")?;
    let written = written(&rt, rt.alloc(), &mut reader, one, piece)?;
    assert_eq!(rt; written, Written::Report);
    assert!(rt; reader.rest.is_empty());
    assert!(rt; reader.reads <= 10, "{} reads", reader.reads);
    assert!(rt; reader.fewest >= 1_024, "{} bytes", reader.fewest);
    Ok(())
}
