//! Runs on a capture that was read in stretches, as parts.

ghost use Rattle.std.specs.Prelude.{◌≡◌, ◌<◌, ◌≤◌, ◌+◌, ◌^◌, ◌∷◌, [], None, All, drop, length, map, vec_len, IfOk, IfSome, IsErr, IsOk, IsOkUnless, string_bytes};
ghost use Rattle.capture_frame.specs.declared.version.Version.{Version};
ghost use Rattle.capture_frame.specs.Parts.{joined_as};
ghost use Rattle.transaction_view.specs.Grammar.{frames_of_parts};
ghost use Rattle.report_text.specs.Answers.{answer};
ghost use Rattle.audit_join.specs.declared.limits.TheConstants.{CAPTURE_LIMIT};
ghost use Rattle.streams.specs.Parts.{bytes_of};
ghost use Rattle.streams.specs.Stretches.{IsPartOf};
ghost use Rattle.audit_run.specs.Question.{reading_status};
ghost use Rattle.audit_run.specs.Run.{Writes};
ghost use Rattle.audit_run.specs.Stretches.{unless_malformed};

use crate::part_runs::{report_on, room_for, slices_of, write_parts};
use crate::written::PartsWritten;
use audit_join::{PartsError, Piece};
use capture_frame::FILE_HEADER;
use claim_board::{NoGate, Workers};
use std::alloc::Global;
use std::io::Write;
use std::thread;
use std::thread::Threads;
use streams::{RunError, write_text};

/// Writes the report on the capture that was read as these parts, or the line that names its first
/// fault, and gives the status that goes with it. The parts are judged as they are. Only if they
/// have a fault, which may be that of a wrong guess, the capture is joined in memory and judged.
pub(crate) fn report_stretches<T: Threads + Sync, W: Write>(
    rt: &T,
    alloc: Global,
    parts: Vec<Vec<u8>>,
    writer: &mut W,
    workers: Workers,
    piece: Piece,
) -> Result<u8, RunError>
    requires some { 1 ≤ vec_len parts }
    requires good { (version : Version) × All (IsPartOf version)
        (map (λ part. part.items) parts.items) }
    requires limit { 16 + bytes_of (map (λ part. part.items) parts.items) ≤ CAPTURE_LIMIT }
    ensures { (version : Version) → All (IsPartOf version) (map (λ part. part.items) parts.items) →
        Writes answer (λ parts. reading_status (frames_of_parts parts))
        (joined_as version (map (λ part. part.items) parts.items) ∷ [])
        (W.contents writer.old) (W.contents writer.new) result }
{
    match report_as_parts(rt, alloc, parts.as_slice(), workers, piece)? {
        Some(text) => {
            let mut parts = parts;
            free(rt, alloc, parts.as_mut_slice());
            write_text(writer, text.as_bytes())?;
            Ok(0)
        }
        None => {
            let capture = joined(parts)?;
            report_joined(rt, alloc, capture.as_slice(), writer, workers, piece)
        }
    }
}

/// The report on parts, if they have no fault.
fn report_as_parts<T: Threads + Sync>(
    rt: &T,
    alloc: Global,
    parts: &[Vec<u8>],
    workers: Workers,
    piece: Piece,
) -> Result<Option<String>, RunError>
    requires few { length parts.now < 2 ^ 32 }
    requires limit { bytes_of (map (λ part. part.items) parts.now) ≤ CAPTURE_LIMIT }
    ensures read { IfOk result (λ found. IfSome found (λ text.
        IsOk (frames_of_parts (map (λ part. part.items) parts.now)))) }
    ensures report { IfOk result (λ found. IfSome found (λ text.
        string_bytes text ≡ answer (map (λ part. part.items) parts.now))) }
    ensures malformed { IfOk result (λ found. found ≡ None →
        IsErr (frames_of_parts (map (λ part. part.items) parts.now))) }
    ensures memory { IsOkUnless result RunError.Memory }
{
    let room = room_for(alloc, parts.len())?;
    let slices = slices_of(room, parts);
    let reported = report_on(rt, alloc, slices.as_slice(), workers, piece, &NoGate);
    unless_malformed(reported)
}

/// What making the report on parts has given; none if they have a fault.
fn unless_malformed(reported: Result<String, PartsError>) -> Result<Option<String>, RunError>
    ensures { result ≡ unless_malformed reported }
{
    match reported {
        Ok(text) => Ok(Some(text)),
        Err(PartsError::Memory) => Err(RunError::Memory),
        Err(PartsError::Malformed(_)) => Ok(None),
    }
}

/// Gives the memory of the parts back, by several threads at once.
fn free<T: Threads + Sync>(rt: &T, alloc: Global, parts: &mut [Vec<u8>]) {
    thread::for_each_chunk_mut(
        rt,
        parts,
        1,
        &|_start: usize, some: &mut [Vec<u8>]| {
            for part in some {
                *part = Vec::new(alloc);
            }
        },
    );
}

/// The first part, and then what the others have after their file headers.
fn joined(parts: Vec<Vec<u8>>) -> Result<Vec<u8>, RunError>
    requires { 1 ≤ vec_len parts }
    ensures joined { IfOk result (λ capture. (version : Version) →
        All (IsPartOf version) (map (λ part. part.items) parts.items) →
        capture.items ≡ joined_as version (map (λ part. part.items) parts.items)) }
    ensures memory { IsOkUnless result RunError.Memory }
{
    let mut others = parts;
    let mut capture = others.remove(0);
    for part in others {
        capture
            .extend_from_slice(body_of(part.as_slice()))
            .map_err(|_| RunError::Memory)?;
    }
    Ok(capture)
}

/// What a part has after its file header.
fn body_of(part: &[u8]) -> &[u8]
    ensures { result.now ≡ drop 16 part.now }
{
    match part.split_at_checked(FILE_HEADER) {
        Some((_, body)) => body,
        None => &[],
    }
}

/// Writes the report on a capture, or the line that names its first fault, and gives the status.
fn report_joined<T: Threads + Sync, W: Write>(
    rt: &T,
    alloc: Global,
    capture: &[u8],
    writer: &mut W,
    workers: Workers,
    piece: Piece,
) -> Result<u8, RunError>
    requires { length capture.now ≤ CAPTURE_LIMIT }
    ensures { Writes answer (λ parts. reading_status (frames_of_parts parts)) (capture.now ∷ [])
        (W.contents writer.old) (W.contents writer.new) result }
{
    match write_parts(rt, alloc, &[capture], writer, workers, piece, &NoGate)? {
        PartsWritten::Report => Ok(0),
        PartsWritten::Malformed(_) => Ok(2),
    }
}
