//! Frames are judged by workers in threads.

ghost use Rattle.std.specs.Prelude.{◌≡◌, ◌<◌, ◌^◌, length, map, Err, IfErr, IfOk, Some};
ghost use Rattle.capture_frame.specs.declared.fault.Fault.{Fault};
ghost use Rattle.transaction_view.specs.Grammar.{first_content_fault, frames_of_parts};
ghost use Rattle.audit_judge.specs.Audit.{AreMalformed};
ghost use Rattle.audit_judge.specs.Jobs.{AreCut, AreSound};
ghost use Rattle.audit_judge.specs.Judged.{IsFirstError};
ghost use Rattle.audit_judge.specs.Parts.{IsInPart, in_part};

use crate::audit_error::{AuditError, PartsError};
use crate::part_places::part_of;
use crate::piece::Piece;
use crate::piece_checks::fault_at;
use crate::piece_work::PieceWork;
use crate::plan::Plan;
use capture_frame::FrameSlice;
use claim_board::{Gate, Stop, Workers, run_all};
use std::alloc::Global;
use std::thread::Threads;

/// Judges frames of parts. The error is the first fault of the parts, or want of memory.
pub fn judge_parts<T: Threads + Sync, G: Gate + Sync>(
    rt: &T,
    alloc: Global,
    parts: &[&[u8]],
    frames: &FrameSlice<'_, '_>,
    workers: Workers,
    piece: Piece,
    gate: &G,
) -> Result<(), PartsError>
    requires few { length parts.now < 2 ^ 32 }
    requires cut { AreCut frames.now }
    requires there { (fault : Fault) → first_content_fault frames.now ≡ Some fault →
        IsInPart (map (λ part. part.now) parts.now) fault.place
        × (frames_of_parts (map (λ part. part.now) parts.now)
        ≡ Err (in_part (map (λ part. part.now) parts.now) fault)) }
    ensures sound { IfOk result (λ _. AreSound frames.now) }
    ensures malformed { IfErr result (AreMalformed (map (λ part. part.now) parts.now)) }
{
    match judge(rt, alloc, frames, workers, piece, gate) {
        Ok(()) => Ok(()),
        Err(AuditError::Memory) => Err(PartsError::Memory),
        Err(AuditError::Malformed(fault)) => Err(PartsError::Malformed(part_of(parts, fault))),
    }
}

/// Judges these frames, which workers take in pieces. The error is their first fault, or want of
/// memory.
fn judge<T: Threads + Sync, G: Gate + Sync>(
    rt: &T,
    alloc: Global,
    frames: &FrameSlice<'_, '_>,
    workers: Workers,
    piece: Piece,
    gate: &G,
) -> Result<(), AuditError>
    requires { AreCut frames.now }
    ensures sound { IfOk result (λ _. AreSound frames.now) }
    ensures fault { IfErr result (IsFirstError frames.now) }
{
    // Without a frame there is nothing to judge, and no thread is started.
    if frames.is_empty() {
        return Ok(());
    }
    let plan = Plan::new(alloc, frames, piece)?;
    let work = PieceWork {
        pieces: plan.pieces(),
    };
    match run_all(rt, alloc, &work, workers, gate) {
        Ok(_) => Ok(()),
        Err(Stop::Least(place)) => Err(AuditError::Malformed(fault_at(frames, place))),
        Err(Stop::Memory) => Err(AuditError::Memory),
    }
}
