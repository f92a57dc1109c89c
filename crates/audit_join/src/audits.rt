//! From a capture, or from its parts, to its findings or its first fault.

ghost use Rattle.std.specs.Prelude.{◌≡◌, ◌<◌, ◌≤◌, ◌^◌, ◌∷◌, [], List, length, map, IfErr, IfOk, Ok};
ghost use Rattle.std.specs.List.{sum_by};
ghost use Rattle.capture_frame.specs.Envelope.{FrameText};
ghost use Rattle.capture_frame.specs.Parts.{joined_frames};
ghost use Rattle.transaction_view.specs.Grammar.{frames_of_parts};
ghost use Rattle.audit_findings.specs.Frames.{AreGoodFrames};
ghost use Rattle.audit_findings.specs.Handles.{handles_of_each};
ghost use Rattle.audit_findings.specs.Kept.{AreSectionsOf};
ghost use Rattle.audit_judge.specs.Audit.{AreMalformed, IsMalformed};
ghost use Rattle.audit_judge.specs.Jobs.{AreCut, AreSound};
ghost use Rattle.audit_join.specs.declared.limits.TheConstants.{CAPTURE_LIMIT};

use crate::limits::CAPTURE_LIMIT;
use crate::look_work::LookWork;
use crate::shares::sum_shares;
use audit_findings::{Findings, ProcessHandles, SecondLook, Sections};
use audit_judge::{AuditError, PartsError, Piece, judge_parts};
use capture_frame::{FrameList, FrameSlice, PartCut, cut_parts};
use claim_board::{Gate, NoGate, Stop, Workers, run_all};
use std::alloc::{AllocError, Global};
use std::thread::Threads;

/// The findings of a capture that is read in parts, in order, or the first fault of the parts.
/// Workers judge the frames of all parts, each a piece at a time, and then sum them in shares. The
/// clauses hold for any workers, piece and gate, and say nothing of `Memory`.
pub fn audit_parts<'c, T: Threads + Sync, G: Gate + Sync>(
    rt: &T,
    alloc: Global,
    parts: &[&'c [u8]],
    workers: Workers,
    piece: Piece,
    gate: &G,
) -> Result<Findings<'c>, PartsError>
    requires few { length parts.now < 2 ^ 32 }
    requires limit { sum_by length (map (λ part. part.now) parts.now) ≤ CAPTURE_LIMIT }
    ensures found { IfOk result
        (λ found. frames_of_parts (map (λ part. part.now) parts.now) ≡ Ok found) }
    ensures malformed { IfErr result (AreMalformed (map (λ part. part.now) parts.now)) }
{
    match cut_parts(alloc, parts) {
        Ok(frames) => {
            judge_parts(rt, alloc, parts, &frames.as_slice(), workers, piece, gate)?;
            Ok(findings_of(rt, alloc, frames, workers)?)
        }
        Err(PartCut::Memory) => Err(PartsError::Memory),
        Err(PartCut::Bad { found, before }) => {
            // A fault of the frames before it comes first.
            judge_parts(rt, alloc, parts, &before.as_slice(), workers, piece, gate)?;
            Err(PartsError::Malformed(found))
        }
    }
}

/// The findings of a capture, or its first fault: `audit_parts` of a single part.
pub fn audit<'c, T: Threads + Sync, G: Gate + Sync>(
    rt: &T,
    alloc: Global,
    capture: &'c [u8],
    workers: Workers,
    piece: Piece,
    gate: &G,
) -> Result<Findings<'c>, AuditError>
    requires { length capture.now ≤ CAPTURE_LIMIT }
    ensures found { IfOk result (λ found. frames_of_parts (capture.now ∷ []) ≡ Ok found) }
    ensures malformed { IfErr result (IsMalformed capture.now) }
{
    Ok(audit_parts(rt, alloc, &[capture], workers, piece, gate)?)
}

/// The same by one worker, with pieces of 256 frames and `NoGate`.
pub fn audit_one<'c, T: Threads + Sync>(
    rt: &T,
    alloc: Global,
    capture: &'c [u8],
) -> Result<Findings<'c>, AuditError>
    requires { length capture.now ≤ CAPTURE_LIMIT }
    ensures found { IfOk result (λ found. frames_of_parts (capture.now ∷ []) ≡ Ok found) }
    ensures malformed { IfErr result (IsMalformed capture.now) }
{
    let workers = Workers::new(1).unwrap();
    let piece = Piece::new(256).unwrap();
    audit(rt, alloc, capture, workers, piece, &NoGate)
}

/// The findings of these frames.
fn findings_of<'c, T: Threads + Sync>(
    rt: &T,
    alloc: Global,
    frames: FrameList<'c>,
    workers: Workers,
) -> Result<Findings<'c>, AllocError>
    requires joined { (texts : List FrameText) × (frames ≡ joined_frames texts) }
    requires cut { AreCut frames }
    requires sound { AreSound frames }
    ensures { IfOk result (λ found. found ≡ frames.entry) }
{
    let sections = sections_of(rt, alloc, &frames.as_slice(), workers)?;
    Ok(Findings::new(frames, sections))
}

/// What the findings keep of these frames, which workers sum in shares.
fn sections_of<'c, T: Threads + Sync>(
    rt: &T,
    alloc: Global,
    frames: &FrameSlice<'_, 'c>,
    workers: Workers,
) -> Result<Sections<u64>, AllocError>
    requires cut { AreCut frames.now }
    requires sound { AreSound frames.now }
    ensures { IfOk result (AreSectionsOf frames.now) }
{
    let whole = sum_shares(rt, alloc, frames, workers.get())?;
    let look = SecondLook::of(whole, frames)?;
    match look_again(rt, alloc, &look, workers) {
        Ok(handles) => look.sections(handles.as_slice()),
        Err(error) => {
            look.discard();
            Err(error)
        }
    }
}

/// The rows of handles of each process, by workers that take a process at a time.
fn look_again<T: Threads + Sync>(
    rt: &T,
    alloc: Global,
    look: &SecondLook<'_, '_>,
    workers: Workers,
) -> Result<Vec<ProcessHandles>, AllocError>
    requires { AreGoodFrames look.now }
    ensures { IfOk result
        (λ lists. map (λ list. list.items) lists.items ≡ handles_of_each look.now) }
{
    match run_all(rt, alloc, &LookWork { look }, workers, &NoGate) {
        Ok(lists) => Ok(lists),
        Err(Stop::Memory) => Err(AllocError),
        // No job has a fault.
        Err(Stop::Least(_)) => unreachable!(),
    }
}
