//! Runs on a capture in parts, from several readers to a writer.

ghost use Rattle.std.specs.Prelude.{◌≡◌, ◌<◌, ◌≤◌, ◌^◌, List, [], length, map, vec_len, vec_capacity, All, IfOk, IfErr, OnOk, OnErr, IsOk, IsOkUnless, string_bytes};
ghost use Rattle.std.specs.Io.KnownBytes.{Appends};
ghost use Rattle.std.specs.Result.{result_err};
ghost use Rattle.capture_frame.specs.Units.{IsBytes};
ghost use Rattle.transaction_view.specs.Grammar.{frames_of_parts};
ghost use Rattle.audit_findings.specs.Findings.{findings_of};
ghost use Rattle.audit_judge.specs.Audit.{AreMalformed};
ghost use Rattle.audit_join.specs.declared.limits.TheConstants.{CAPTURE_LIMIT};
ghost use Rattle.report_text.specs.Fault.{part_fault_line};
ghost use Rattle.report_text.specs.Answers.{answer, first_fault_line};
ghost use Rattle.report_text.specs.Text.{report_text};
ghost use Rattle.streams.specs.KnownBytes.{AppendsPrefix};
ghost use Rattle.streams.specs.Parts.{AreRead, bytes_of};
ghost use Rattle.audit_run.specs.PartRuns.{ReadersGive};
ghost use Rattle.audit_run.specs.Run.{RunEnds, Writes, written_of};

use crate::written::PartsWritten;
use audit_findings::Findings;
use audit_join::{CAPTURE_LIMIT, PartsError, Piece, audit_parts};
use capture_frame::PartFault;
use claim_board::{Gate, Workers};
use report_text::{part_fault_text, text};
use std::alloc::{AllocError, Global};
use std::io::{Read, Write};
use std::thread::Threads;
use streams::{RunError, read_parts, write_text};
use transaction_view::first_fault_parts;

/// Reads the parts of a capture in order, each to its end, and writes the report on the joined
/// capture, or the line that names the first fault. The joined capture is one file header and then
/// the frames of all parts, in order. The number of a part is a `u32`, so there may be any number of
/// readers below 2^32, also none; a command line names 1 to 256 files. The workers share the frames,
/// a piece at a time, and the gate is told before and after each piece that is judged.
/// The contract names neither workers nor piece nor gate, and the answer is a function of the parts.
/// So two runs that are both Ok, whose readers have the same known bytes and whose writers have
/// known bytes, have written the same text.
pub fn run_parts<T: Threads + Sync, R: Read + Drop, W: Write, G: Gate + Sync>(
    rt: &T,
    alloc: Global,
    readers: Vec<R>,
    writer: &mut W,
    workers: Workers,
    piece: Piece,
    gate: &G,
) -> Result<PartsWritten, RunError>
    requires { vec_len readers < 2 ^ 32 }

    // A run that is Ok has written the answer to what was read, and nothing else.
    ensures { RunEnds (ReadersGive (map R.remaining readers.items)) answer
        (λ parts. written_of (frames_of_parts parts))
        (W.contents writer.old) (W.contents writer.new) result }
{
    let room = room_for(alloc, readers.len())?;
    let parts = read_within(alloc, readers)?;
    let slices = slices_of(room, parts.as_slice());
    write_parts(rt, alloc, slices.as_slice(), writer, workers, piece, gate)
}

/// Reads the parts of a capture in order, each to its end, and writes the line that names the first
/// fault, or that says that there is none. Only reading takes memory (see `write_first_fault`).
pub fn run_first_fault_parts<R: Read + Drop, W: Write>(
    alloc: Global,
    readers: Vec<R>,
    writer: &mut W,
) -> Result<Option<PartFault>, RunError>
    requires { vec_len readers < 2 ^ 32 }
    ensures { RunEnds (ReadersGive (map R.remaining readers.items)) first_fault_line
        (λ parts. result_err (frames_of_parts parts))
        (W.contents writer.old) (W.contents writer.new) result }
{
    let room = room_for(alloc, readers.len())?;
    let parts = read_within(alloc, readers)?;
    let slices = slices_of(room, parts.as_slice());
    write_first_fault_parts(slices.as_slice(), writer)
}

/// An empty list with room for the slices of this many parts. The room is taken before anything is
/// read. So once the parts are read, looking for their first fault asks for no memory.
pub(crate) fn room_for<'p>(alloc: Global, parts: usize) -> Result<Vec<&'p [u8]>, RunError>
    ensures empty { IfOk result (λ room. room.items ≡ []) }
    ensures room { IfOk result (λ room. vec_capacity room ≡ parts) }
    ensures memory { IsOkUnless result RunError.Memory }
{
    Vec::with_capacity(alloc, parts).map_err(|_| RunError::Memory)
}

/// Reads the parts whole, together within the limit.
fn read_within<R: Read + Drop>(alloc: Global, readers: Vec<R>) -> Result<Vec<Vec<u8>>, RunError>
    ensures parts { IfOk result (λ parts. AreRead CAPTURE_LIMIT (map R.remaining readers.items)
        (map (λ part. part.items) parts.items)) }
    ensures none { IfErr result
        (λ error. ReadersGive (map R.remaining readers.items) (Err error)) }
{
    read_parts(alloc, readers, CAPTURE_LIMIT)
}

/// Puts the slice of each part into the list, which is empty and has room for them.
pub(crate) fn slices_of<'p>(room: Vec<&'p [u8]>, parts: &'p [Vec<u8>]) -> Vec<&'p [u8]>
    requires empty { room.items ≡ [] }
    requires room { length parts.now ≤ vec_capacity room }
    ensures slices { map (λ slice. slice.now) result.items ≡ map (λ part. part.items) parts.now }
    ensures bytes { All IsBytes (map (λ slice. slice.now) result.items) }
{
    let mut slices = room;
    for part in parts {
        slices.push_reserved(as_bytes(part.as_slice()));
    }
    slices
}

/// The same slice, with a clause that its elements are bytes. Of the elements of a `Vec` no clause
/// says so.
pub(crate) fn as_bytes(slice: &[u8]) -> &[u8]
    ensures same { result.now ≡ slice.now }
    ensures bytes { IsBytes slice.now }
{
    slice
}

/// Writes the report on parts, or the line that names their first fault.
pub(crate) fn write_parts<T: Threads + Sync, W: Write, G: Gate + Sync>(
    rt: &T,
    alloc: Global,
    parts: &[&[u8]],
    writer: &mut W,
    workers: Workers,
    piece: Piece,
    gate: &G,
) -> Result<PartsWritten, RunError>
    requires few { length parts.now < 2 ^ 32 }
    requires limit { bytes_of (map (λ part. part.now) parts.now) ≤ CAPTURE_LIMIT }
    ensures { Writes answer (λ parts. written_of (frames_of_parts parts))
        (map (λ part. part.now) parts.now)
        (W.contents writer.old) (W.contents writer.new) result }
{
    match report_on(rt, alloc, parts, workers, piece, gate) {
        Ok(text) => {
            write_text(writer, text.as_bytes())?;
            Ok(PartsWritten::Report)
        }
        Err(error) => match error {
            PartsError::Memory => Err(RunError::Memory),
            PartsError::Malformed(found) => {
                write_fault(writer, found, parts.len())?;
                Ok(PartsWritten::Malformed(found))
            }
        },
    }
}

/// The report on parts.
pub(crate) fn report_on<T: Threads + Sync, G: Gate + Sync>(
    rt: &T,
    alloc: Global,
    parts: &[&[u8]],
    workers: Workers,
    piece: Piece,
    gate: &G,
) -> Result<String, PartsError>
    requires few { length parts.now < 2 ^ 32 }
    requires limit { bytes_of (map (λ part. part.now) parts.now) ≤ CAPTURE_LIMIT }
    ensures read { OnOk result (IsOk (frames_of_parts (map (λ part. part.now) parts.now))) }
    ensures report { IfOk result (λ text.
        string_bytes text ≡ answer (map (λ part. part.now) parts.now)) }
    ensures malformed { IfErr result (AreMalformed (map (λ part. part.now) parts.now)) }
{
    let found = audit_parts(rt, alloc, parts, workers, piece, gate)?;
    Ok(report_of(rt, alloc, found)?)
}

/// The report on findings, which are dropped here.
fn report_of<T: Threads + Sync>(
    rt: &T,
    alloc: Global,
    found: Findings<'_>,
) -> Result<String, AllocError>
    ensures { IfOk result (λ text. string_bytes text ≡ report_text (findings_of found.entry)) }
{
    let text = text(rt, alloc, &found);
    found.discard();
    text
}

/// Writes the line that names the first fault of parts, or that says that there is none. It takes
/// no memory.
pub(crate) fn write_first_fault_parts<W: Write>(
    parts: &[&[u8]],
    writer: &mut W,
) -> Result<Option<PartFault>, RunError>
    requires { length parts.now < 2 ^ 32 }
    ensures written { Writes first_fault_line (λ parts. result_err (frames_of_parts parts))
        (map (λ part. part.now) parts.now)
        (W.contents writer.old) (W.contents writer.new) result }
    ensures fault { IsOkUnless result RunError.Write }
{
    match first_fault_parts(parts) {
        Some(found) => {
            write_fault(writer, found, parts.len())?;
            Ok(Some(found))
        }
        None => {
            write_text(writer, b"no malformed record\n")?;
            Ok(None)
        }
    }
}

/// Writes the line that names a fault, given how many parts there are.
fn write_fault<W: Write>(writer: &mut W, found: PartFault, parts: usize) -> Result<(), RunError>
    ensures ok { OnOk result (Appends (W.contents writer.old) (W.contents writer.new)
        (part_fault_line parts found)) }
    ensures err { OnErr result (AppendsPrefix (W.contents writer.old) (W.contents writer.new)
        (part_fault_line parts found)) }
    ensures fault { IsOkUnless result RunError.Write }
{
    let line = part_fault_text(found, parts);
    write_text(writer, line.as_str().as_bytes())
}
