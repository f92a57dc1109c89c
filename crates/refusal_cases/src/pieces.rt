//! The frames of a capture in pieces, and their summaries.

ghost use Rattle.std.specs.Prelude.{◌∷◌, [], None, IfOk, OnOk};
ghost use Rattle.capture_frame.specs.Cut.{CutsTo};
ghost use Rattle.audit_findings.specs.Frames.{AreGoodFrames};
ghost use Rattle.audit_findings.specs.Summary.{SumsPiece};
ghost use Rattle.audit_judge.specs.Jobs.{AreSound};

use crate::told;
use audit_findings::{PieceSummary, ProcessHandles, SecondLook, Sections};
use audit_join::{CAPTURE_LIMIT, Piece, Plan};
use capture_frame::{FrameList, FrameSlice, PartCut, cut_parts};
use refusal_ledgers::{NoAnswer, Printed, Way};
use std::alloc::{AllocError, Global};
use std::io::Write;
use transaction_view::check_frame;

/// Prints the frames in pieces of one.
pub(crate) fn plan<W: Write>(alloc: Global, capture: &[u8], out: &mut W) -> Printed {
    let frames = kept_frames(alloc, capture)?;
    let piece = Piece::new(1).unwrap();
    let plan = Plan::new(alloc, &frames.as_slice(), piece)?;
    for piece in plan.pieces() {
        refusal_ledgers::kept_frames(piece, out)?;
    }
    Ok(())
}

/// The frames of a capture whose headers are good, kept by their places.
fn kept_frames<'c>(alloc: Global, capture: &'c [u8]) -> Result<FrameList<'c>, NoAnswer>
    ensures { IfOk result (λ frames. CutsTo (capture.now ∷ []) frames None) }
{
    match cut_parts(alloc, &[capture]) {
        Ok(frames) => Ok(frames),
        Err(PartCut::Memory) => Err(NoAnswer::Memory),
        Err(_) => Err(NoAnswer::Unfit),
    }
}

/// If the records or the entries of these frames have a fault, that is `Unfit`.
fn check_all(frames: &FrameSlice<'_, '_>) -> Result<(), NoAnswer>
    ensures { OnOk result (AreSound frames.now) }
{
    for number in 0..frames.len() {
        if let Some(_) = check_frame(frames.get(number)) {
            return Err(NoAnswer::Unfit);
        }
    }
    Ok(())
}

/// The frames of a capture without a fault.
fn good_frames<'c>(alloc: Global, capture: &'c [u8]) -> Result<FrameList<'c>, NoAnswer>
    ensures { IfOk result AreGoodFrames }
{
    if capture.len() > CAPTURE_LIMIT {
        return Err(NoAnswer::Unfit);
    }
    let frames = kept_frames(alloc, capture)?;
    check_all(&frames.as_slice())?;
    Ok(frames)
}

/// Prints the sections of a summary of these frames.
fn tell<'c, W: Write>(
    alloc: Global,
    frames: &FrameSlice<'_, 'c>,
    summary: PieceSummary<'c>,
    out: &mut W,
) -> Printed
    requires good { AreGoodFrames frames.now }
    requires sums { SumsPiece summary frames.now }
{
    match SecondLook::of(summary, frames) {
        Ok(look) => tell_look(alloc, look, out),
        Err(AllocError) => Err(NoAnswer::Memory),
    }
}

/// Prints the sections that a second look gives.
fn tell_look<W: Write>(alloc: Global, look: SecondLook<'_, '_>, out: &mut W) -> Printed {
    match handles_of(alloc, &look) {
        Ok(handles) => tell_sections(look, handles.as_slice(), out),
        Err(AllocError) => {
            look.discard();
            Err(NoAnswer::Memory)
        }
    }
}

/// The rows of handles of each process.
fn handles_of(alloc: Global, look: &SecondLook<'_, '_>) -> Result<Vec<ProcessHandles>, AllocError> {
    let mut handles = Vec::new(alloc);
    for number in 0..look.process_count() {
        let rows = look.handles(number)?;
        handles.push(rows)?;
    }
    Ok(handles)
}

fn tell_sections<W: Write>(
    look: SecondLook<'_, '_>,
    handles: &[ProcessHandles],
    out: &mut W,
) -> Printed {
    match look.sections(handles) {
        Ok(sections) => tell_whole(sections, out),
        Err(AllocError) => Err(NoAnswer::Memory),
    }
}

/// Prints sections, and drops them.
fn tell_whole<W: Write>(sections: Sections<u64>, out: &mut W) -> Printed {
    let printed = told::sections(&sections, out);
    sections.discard();
    printed
}

pub(crate) fn summed<W: Write>(alloc: Global, bytes: &[u8], way: Way, out: &mut W) -> Printed {
    let frames = good_frames(alloc, bytes)?;
    let views = frames.as_slice().to_vec(alloc)?;
    let summary = refusal_ledgers::summed(alloc, views.as_slice(), way)?;
    tell(alloc, &frames.as_slice(), summary, out)
}
