//! Runs on a capture in one part, from a reader to a writer.

ghost use Rattle.std.specs.Prelude.{◌≡◌, ◌≤◌, [], ◌∷◌, length, vec_len, IfOk, IfErr, IfSome, IsOkUnless};
ghost use Rattle.std.specs.Result.{result_err};
ghost use Rattle.report_text.specs.Answers.{answer, first_fault_line};
ghost use Rattle.audit_run.specs.Run.{ReaderGives, RunEnds, Writes, frames_of_capture, written_of};
ghost use Rattle.audit_join.specs.declared.limits.TheConstants.{CAPTURE_LIMIT};

use crate::part_runs::{as_bytes, write_first_fault_parts, write_parts};
use crate::written::Written;
use audit_join::{CAPTURE_LIMIT, Piece};
use capture_frame::Fault;
use claim_board::{Gate, NoGate, Workers};
use std::alloc::Global;
use std::io::{Read, Write};
use std::thread::Threads;
use streams::{RunError, read_capture};

/// Reads a capture to its end, and writes its report, or the line that names its first fault. The
/// workers share its frames, a piece at a time. The text does not depend on workers and piece: see
/// `run_parts`.
pub fn run<T: Threads + Sync, R: Read, W: Write>(
    rt: &T,
    alloc: Global,
    reader: &mut R,
    writer: &mut W,
    workers: Workers,
    piece: Piece,
) -> Result<Written, RunError>
    // A run that is Ok has written the answer to what was read, and nothing else.
    ensures { RunEnds (ReaderGives (R.remaining reader.old)) (λ capture. answer (capture ∷ []))
        (λ capture. written_of (frames_of_capture capture))
        (W.contents writer.old) (W.contents writer.new) result }
{
    run_gated(rt, alloc, reader, writer, workers, piece, &NoGate)
}

/// The same as `run`, with a gate that is told before and after each piece.
pub fn run_gated<T: Threads + Sync, R: Read, W: Write, G: Gate + Sync>(
    rt: &T,
    alloc: Global,
    reader: &mut R,
    writer: &mut W,
    workers: Workers,
    piece: Piece,
    gate: &G,
) -> Result<Written, RunError>
    // A run that is Ok has written the answer to what was read, and nothing else.
    ensures { RunEnds (ReaderGives (R.remaining reader.old)) (λ capture. answer (capture ∷ []))
        (λ capture. written_of (frames_of_capture capture))
        (W.contents writer.old) (W.contents writer.new) result }
{
    let capture = read_within(alloc, reader)?;
    write_report(
        rt,
        alloc,
        as_bytes(capture.as_slice()),
        writer,
        workers,
        piece,
        gate,
    )
}

/// Reads a capture whole, within the limit.
fn read_within<R: Read>(alloc: Global, reader: &mut R) -> Result<Vec<u8>, RunError>
    ensures known { IfOk result
        (λ capture. IfSome (R.remaining reader.old) (λ known. capture.items ≡ known)) }
    ensures within { IfOk result (λ capture. vec_len capture ≤ CAPTURE_LIMIT) }
    ensures none { IfErr result (λ error. ReaderGives (R.remaining reader.old) (Err error)) }
{
    read_capture(alloc, reader, CAPTURE_LIMIT)
}

/// Writes the report on a capture, as a single part, or the line that names its first fault.
fn write_report<T: Threads + Sync, W: Write, G: Gate + Sync>(
    rt: &T,
    alloc: Global,
    capture: &[u8],
    writer: &mut W,
    workers: Workers,
    piece: Piece,
    gate: &G,
) -> Result<Written, RunError>
    requires { length capture.now ≤ CAPTURE_LIMIT }
    ensures { Writes (λ capture. answer (capture ∷ []))
        (λ capture. written_of (frames_of_capture capture)) capture.now
        (W.contents writer.old) (W.contents writer.new) result }
{
    match write_parts(rt, alloc, &[capture], writer, workers, piece, gate)? {
        Written::Report => Ok(Written::Report),
        Written::Malformed(found) => Ok(Written::Malformed(found.fault)),
    }
}

/// Reads a capture to its end, and writes the line that names its first fault, or that says that
/// there is none. Only reading takes memory (see `write_first_fault`).
pub fn run_first_fault<R: Read, W: Write>(
    alloc: Global,
    reader: &mut R,
    writer: &mut W,
) -> Result<Option<Fault>, RunError>
    ensures { RunEnds (ReaderGives (R.remaining reader.old))
        (λ capture. first_fault_line (capture ∷ []))
        (λ capture. result_err (frames_of_capture capture))
        (W.contents writer.old) (W.contents writer.new) result }
{
    let capture = read_within(alloc, reader)?;
    write_first_fault(as_bytes(capture.as_slice()), writer)
}

/// Writes the line that names a capture's first fault, or that says that there is none. It takes no
/// memory: it has no allocator.
pub fn write_first_fault<W: Write>(
    capture: &[u8],
    writer: &mut W,
) -> Result<Option<Fault>, RunError>
    ensures written { Writes (λ capture. first_fault_line (capture ∷ []))
        (λ capture. result_err (frames_of_capture capture)) capture.now
        (W.contents writer.old) (W.contents writer.new) result }
    ensures fault { IsOkUnless result RunError.Write }
{
    match write_first_fault_parts(&[capture], writer)? {
        Some(found) => Ok(Some(found.fault)),
        None => Ok(None),
    }
}
