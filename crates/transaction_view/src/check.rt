//! The first fault of a frame's content, and of a whole capture. No call here takes memory.

ghost use Rattle.std.specs.Prelude.{◌≡◌, ◌<◌, ◌^◌, [], ◌∷◌, length, map, None, Some, MatchResult};
ghost use Rattle.std.specs.Option.{option_map};
ghost use Rattle.capture_frame.specs.Envelope.{placed_frame};
ghost use Rattle.capture_frame.specs.Parts.{frames_of_part, last_of};
ghost use Rattle.capture_frame.specs.Units.{units_of};
ghost use Rattle.record_view.specs.Records.{records_of};
ghost use Rattle.transaction_view.specs.Attachments.{entries_of};
ghost use Rattle.transaction_view.specs.Grammar.{content_fault, whole_parser, wholes_of};

use crate::attachments::Attachments;
use capture_frame::{Fault, Frame, Frames, PartFault};
use record_view::Records;

/// The first fault of a capture; None if the capture is in the grammar.
pub fn first_fault(capture: &[u8]) -> Option<Fault>
    ensures { result ≡ option_map (λ found. found.fault) (wholes_of (capture.now ∷ [])).fault }
{
    check_part(capture, None).err()
}

/// The first fault of a capture in parts, with the number of its part, from 1, and its place in
/// that part; None if the parts are in the grammar. There must be fewer than 2^32 parts.
pub fn first_fault_parts(parts: &[&[u8]]) -> Option<PartFault>
    requires { length parts.now < 2 ^ 32 }
    ensures { result ≡ (wholes_of (map (λ part. part.now) parts.now)).fault }
{
    check_parts(parts).err()
}

/// The first fault of a frame's records, or, if these are good, of its entries; None if both are
/// good.
pub fn check_frame(frame: Frame<'_>) -> Option<Fault>
    ensures { result ≡ content_fault (placed_frame frame.entry) }
{
    check_content(frame).err()
}

fn check_parts(parts: &[&[u8]]) -> Result<(), PartFault>
    requires { length parts.now < 2 ^ 32 }
    ensures { MatchResult result
        (λ _. (wholes_of (map (λ part. part.now) parts.now)).fault ≡ None)
        (λ found. (wholes_of (map (λ part. part.now) parts.now)).fault ≡ Some found) }
{
    let mut before = None;
    let mut number = 0;
    for part in parts {
        number += 1;
        match check_part(*part, before) {
            Ok(last) => before = last,
            Err(fault) => {
                return Err(PartFault {
                    part: number,
                    fault,
                });
            }
        }
    }
    Ok(())
}

/// Checks a part that comes after the frame with the sequence `before`, if there is one, and gives
/// the last sequence so far.
fn check_part(part: &[u8], before: Option<u64>) -> Result<Option<u64>, Fault>
    ensures { MatchResult result
        (λ last. ((frames_of_part whole_parser before part.now).fault ≡ None)
        × (last ≡ last_of before (units_of (frames_of_part whole_parser before part.now).units)))
        (λ fault. (frames_of_part whole_parser before part.now).fault ≡ Some fault) }
{
    let mut frames = Frames::after(part, 0, before)?;
    let mut last = before;
    while let Some(frame) = frames.next_frame()? {
        check_content(frame)?;
        last = Some(frame.sequence);
    }
    Ok(last)
}

// A part of each loop over frames, since a call costs as much as the judging of two records.
#[inline(always)]
fn check_content(frame: Frame<'_>) -> Result<(), Fault>
    ensures { MatchResult result
        (λ _. content_fault (placed_frame frame.entry) ≡ None)
        (λ fault. content_fault (placed_frame frame.entry) ≡ Some fault) }
{
    check_records(frame)?;
    check_entries(frame)
}

/// Checks the records of one frame.
#[inline(always)]
fn check_records(frame: Frame<'_>) -> Result<(), Fault>
    ensures { MatchResult result
        (λ _. (records_of (placed_frame frame.entry)).fault ≡ None)
        (λ fault. (records_of (placed_frame frame.entry)).fault ≡ Some fault) }
{
    let mut records = Records::of(frame);
    while let Some(_) = records.next_record()? {}
    Ok(())
}

/// Checks the entries of one frame, whose records have no fault.
#[inline(always)]
fn check_entries(frame: Frame<'_>) -> Result<(), Fault>
    requires { (records_of (placed_frame frame)).fault ≡ None }
    ensures { MatchResult result
        (λ _. (entries_of (placed_frame frame.entry)).fault ≡ None)
        (λ fault. (entries_of (placed_frame frame.entry)).fault ≡ Some fault) }
{
    let mut attachments = Attachments::of(frame);
    while let Some(_) = attachments.next_entry()? {}
    Ok(())
}
