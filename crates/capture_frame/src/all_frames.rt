//! All frames of a capture at once.

ghost use Rattle.std.specs.Prelude.{◌≡◌, ◌+◌, ◌<◌, ◌^◌, [], ◌∷◌, length, map, None, MatchResult};
ghost use Rattle.std.specs.List.{sum_by};
ghost use Rattle.capture_frame.specs.FrameList.{AreKept, bodies};
ghost use Rattle.capture_frame.specs.Cut.{CutsTo, IsCutOff, IsPartCutOff, IsPushed, IsStopped, kept, shown_by};

use crate::cut_off::{Cut, PartCut, Stopped};
use crate::fault::{Fault, PartFault};
use crate::frame::Frame;
use crate::frame_list::{FrameList, PartBytes};
use crate::frames::Frames;
use crate::header::FILE_HEADER;
use std::alloc::Global;

/// All frames of a capture, in order, if its file header and all its frame headers are good.
/// Otherwise the first fault as far as the headers say, with the frames before it; or `Memory`,
/// about which the contract says nothing. Only this call, `cut_parts` and `FrameSlice::to_vec` take
/// memory.
pub fn cut<'c>(alloc: Global, capture: &'c [u8]) -> Result<Vec<Frame<'c>>, Cut<'c>>
    ensures { MatchResult result
        (λ frames. CutsTo (capture.now ∷ []) (shown_by frames.items) None)
        (IsCutOff capture.now) }
{
    match cut_parts(alloc, &[capture]) {
        Ok(frames) => match frames.as_slice().to_vec(alloc) {
            Ok(views) => Ok(views),
            Err(_) => Err(Cut::Memory),
        },
        Err(PartCut::Memory) => Err(Cut::Memory),
        Err(PartCut::Bad { found, before }) => match before.as_slice().to_vec(alloc) {
            Ok(before) => Err(Cut::Bad {
                fault: found.fault,
                before,
            }),
            Err(_) => Err(Cut::Memory),
        },
    }
}

/// All frames of all parts of a capture, in order, each at its place in the joined capture.
/// Otherwise the first fault of the parts as far as the headers say, with the frames before it; or
/// `Memory`, about which the contract says nothing. `Memory` is the answer too where a frame begins
/// at 2^32 or later. The programs never meet this: they read at most 1 GiB. There must be fewer than
/// 2^32 parts, and their lengths together must fit 64 bits.
pub fn cut_parts<'c>(alloc: Global, parts: &[&'c [u8]]) -> Result<FrameList<'c>, PartCut<'c>>
    requires few { length parts.now < 2 ^ 32 }
    requires fits { sum_by length (map (λ part. part.now) parts.now) < 2 ^ 64 }
    ensures { MatchResult result
        (λ frames. CutsTo (map (λ part. part.now) parts.now) frames None)
        (IsPartCutOff (map (λ part. part.now) parts.now)) }
{
    let mut row = Vec::new(alloc);
    let mut places = Vec::new(alloc);
    let mut base = 0;
    let mut before = None;
    let mut number = 0;
    for part in parts {
        number += 1;
        match push_part(&mut row, &mut places, *part, base, before) {
            Ok(last) => {
                base += (part.len() - FILE_HEADER) as u64;
                before = last;
            }
            Err(Stopped::Memory) => return Err(PartCut::Memory),
            Err(Stopped::Bad(fault)) => {
                let found = PartFault {
                    part: number,
                    fault,
                };
                return Err(PartCut::Bad {
                    found,
                    before: FrameList::of(row, places),
                });
            }
        }
    }
    Ok(FrameList::of(row, places))
}

/// Adds the frames of a part, and gives the last sequence so far. The frame before the part has the
/// sequence `before`. `base` is how many bytes the parts before it have without their file headers;
/// it is added to the places of the part's frames, and not to the place of a fault.
fn push_part<'c>(
    row: &mut Vec<PartBytes<'c>>,
    places: &mut Vec<u32>,
    part: &'c [u8],
    base: u64,
    before: Option<u64>,
) -> Result<Option<u64>, Stopped>
    requires fits { base + length part.now < 2 ^ 64 }
    requires base { base ≡ length (bodies row.old.items) }
    requires kept { AreKept row.old.items places.old.items }
    ensures { MatchResult result
        (λ last. IsPushed part.now before last
        (kept row.old.items places.old.items) (kept row.new.items places.new.items))
        (IsStopped part.now before
        (kept row.old.items places.old.items) (kept row.new.items places.new.items)) }
{
    let mut reader = match Frames::after(part, base, before) {
        Ok(reader) => reader,
        Err(fault) => return Err(Stopped::Bad(fault)),
    };
    let body = PartBytes {
        start: base + FILE_HEADER as u64,
        bytes: &part[FILE_HEADER..],
    };
    if row.push(body).is_err() {
        return Err(Stopped::Memory);
    }
    let mut last = before;
    loop {
        match reader.next_frame() {
            Ok(Some(frame)) => {
                last = Some(frame.sequence);
                let Ok(place) = u32::try_from(frame.place) else {
                    return Err(Stopped::Memory);
                };
                if places.push(place).is_err() {
                    return Err(Stopped::Memory);
                }
            }
            Ok(None) => return Ok(last),
            Err(fault) => {
                return Err(Stopped::Bad(Fault {
                    kind: fault.kind,
                    place: fault.place - base,
                }));
            }
        }
    }
}
