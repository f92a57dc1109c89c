//! How far a capture goes: up to its end, or up to its first fault.

ghost use Rattle.std.specs.Prelude.{◌≡◌, ◌<◌, ◌≤◌, ◌-◌, ◌^◌, All, length, map, take, IfOk};
ghost use Rattle.std.specs.List.{sum_by};
ghost use Rattle.transaction_view.specs.Grammar.{IsGood};
ghost use Rattle.listing_tables.specs.Walk.{counted_frames, up_to_fault};

use crate::numbered::sum;
use crate::rows::{Column, RowWriter, columns};
use crate::spans::number_at;
use capture_frame::{FILE_HEADER, FaultKind, FrameList, FrameSlice, PartCut, PartFault, cut_parts};
use listing_fields::{ListingError, Outcome};
use std::alloc::Global;
use std::io::Write;
use transaction_view::{check_frame, first_fault_parts};

/// The layout of the tables.
const LAYOUT: u64 = 5;

/// How far a capture goes.
#[derive(Clone, Copy)]
pub struct Ending {
    /// How many files the capture has.
    pub parts: u64,
    /// The length of the joined capture, or the place of its first fault in it.
    pub bytes: u64,
    /// The first fault.
    pub fault: Option<PartFault>,
    /// How many frames have a good header, up to the one with the fault.
    pub(crate) count: usize,
    /// The sequences of the first and of the last of them.
    pub(crate) span: Option<(u64, u64)>,
}

/// The frames of the parts with good headers, and how far the capture goes. The content of all but
/// the last frame up to there is good.
pub(crate) fn frames_of<'c>(
    alloc: Global,
    parts: &[&'c [u8]],
) -> Result<(FrameList<'c>, Ending), ListingError>
    requires few { length parts.now < 2 ^ 32 }
    requires fits { sum_by length (map (λ part. part.now) parts.now) < 2 ^ 64 }
    ensures few { IfOk result (λ found. found.1.count ≤ length found.0) }
    ensures counted { IfOk result (λ found. take found.1.count found.0
        ≡ counted_frames (map (λ part. part.now) parts.now)) }
    ensures good { IfOk result (λ found. All IsGood (take (found.1.count - 1) found.0)) }
{
    match cut_parts(alloc, parts) {
        Ok(frames) => with_ending(frames, None, parts),
        Err(PartCut::Memory) => Err(ListingError::Memory),
        Err(PartCut::Bad { found, before }) => with_ending(before, Some(found), parts),
    }
}

/// The frames, and how far the capture goes in whose parts they are. After them a header has the
/// fault `cut`, if there is one.
fn with_ending<'c>(
    frames: FrameList<'c>,
    cut: Option<PartFault>,
    parts: &[&[u8]],
) -> Result<(FrameList<'c>, Ending), ListingError>
    requires { length parts.now < 2 ^ 32 }
    ensures same { IfOk result (λ found. found.0 ≡ frames.entry) }
    ensures few { IfOk result (λ found. found.1.count ≤ length frames.entry) }
    ensures counted { IfOk result (λ found.
        take found.1.count frames.entry ≡ up_to_fault frames.entry) }
    ensures good { IfOk result (λ found. All IsGood (take (found.1.count - 1) frames.entry)) }
{
    match ending_of(&frames.as_slice(), cut, parts) {
        Ok(ending) => Ok((frames, ending)),
        Err(error) => {
            drop(frames);
            Err(error)
        }
    }
}

/// How far a capture goes that has these frames, and that is in these parts.
fn ending_of(
    frames: &FrameSlice<'_, '_>,
    cut: Option<PartFault>,
    parts: &[&[u8]],
) -> Result<Ending, ListingError>
    requires { length parts.now < 2 ^ 32 }
    ensures few { IfOk result (λ ending. ending.count ≤ length frames.now) }
    ensures counted { IfOk result (λ ending. take ending.count frames.now ≡ up_to_fault frames.now) }
    ensures good { IfOk result (λ ending. All IsGood (take (ending.count - 1) frames.now)) }
{
    let count = count_up_to_fault(frames);
    let fault = if ends_with_fault(frames, count) {
        first_fault_parts(parts)
    } else {
        cut
    };
    Ok(Ending {
        parts: parts.len() as u64,
        bytes: bytes_up_to(parts, fault)?,
        fault,
        count,
        span: span_of(frames, count),
    })
}

/// How many frames there are up to the first one whose content has a fault, with that one.
fn count_up_to_fault(frames: &FrameSlice<'_, '_>) -> usize
    ensures few { result ≤ length frames.now }
    ensures counted { take result frames.now ≡ up_to_fault frames.now }
    ensures good { All IsGood (take (result - 1) frames.now) }
{
    for number in 0..frames.len() {
        if check_frame(frames.get(number)).is_some() {
            return number + 1;
        }
    }
    frames.len()
}

/// Whether the content of the last of the first `count` frames has a fault.
fn ends_with_fault(frames: &FrameSlice<'_, '_>, count: usize) -> bool
    requires { count ≤ length frames.now }
{
    count > 0 && check_frame(frames.get(count - 1)).is_some()
}

/// The sequences of the first and of the last of the first `count` frames.
fn span_of(frames: &FrameSlice<'_, '_>, count: usize) -> Option<(u64, u64)>
    requires { count ≤ length frames.now }
{
    if count == 0 {
        return None;
    }
    let first = frames.get(0);
    let last = frames.get(count - 1);
    Some((first.sequence, last.sequence))
}

/// The length of the joined capture, or the place in it of this fault.
fn bytes_up_to(parts: &[&[u8]], fault: Option<PartFault>) -> Result<u64, ListingError> {
    let mut bytes = 0u64;
    for at in 0..parts.len() {
        if let Some(found) = fault
            && found.part as usize == at + 1
        {
            return sum(bytes, found.fault.place);
        }
        bytes = sum(bytes, parts[at].len().saturating_sub(FILE_HEADER) as u64)?;
    }
    sum(bytes, FILE_HEADER as u64)
}

impl Ending {
    /// How many sequences between the first and the last frame have no frame.
    fn missing(self) -> u64 {
        match self.span {
            Some((first, last)) => last
                .wrapping_sub(first)
                .wrapping_add(1)
                .wrapping_sub(self.count as u64),
            None => 0,
        }
    }

    /// The number of the kind of its first fault.
    pub(crate) fn fault_number(self) -> Option<u64> {
        self.fault.map(|found| fault_number(found.fault.kind))
    }

    /// Writes the row of the table capture, with this many records.
    pub(crate) fn write<W: Write + Drop>(self, records: u64, rows: &mut RowWriter<W>) -> Outcome {
        rows.push(&columns! {
            layout: LAYOUT,
            parts: self.parts,
            bytes: self.bytes,
            frames: self.count as u64,
            records: records,
            first_seq: self.span.map(|(first, _)| first),
            last_seq: self.span.map(|(_, last)| last),
            missing: self.missing(),
            fault: self.fault_number(),
            fault_place: self.fault.map(|found| found.fault.place),
            fault_part: self.fault.map(|found| found.part),
        })
    }
}

/// The number of a kind of fault in the list of docs/ENVELOPE.md.
fn fault_number(kind: FaultKind) -> u64 {
    number_at(kind as usize)
}
