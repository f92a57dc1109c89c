//! The calls on a capture in parts: to its bytes, its frames, its findings and its text.

ghost use Rattle.std.specs.Bool.{OnTrue};
ghost use Rattle.std.specs.List.{sum_by};
ghost use Rattle.std.specs.Prelude.{◌≤◌, length, map, vec_len, IfOk};
ghost use Rattle.audit_join.specs.declared.limits.TheConstants.{CAPTURE_LIMIT};

use crate::given::Given;
use crate::runs::Shown;
use audit_join::{CAPTURE_LIMIT, PartsError, Piece, audit_parts};
use audit_run::{Question, answer, run_first_fault_parts, run_parts};
use capture_frame::{PartCut, cut_parts};
use claim_board::{NoGate, Workers};
use refusal_ledgers::{NoAnswer, Printed, kept_frames, value};
use std::alloc::{AllocError, Global};
use std::io::Write;
use std::thread::Threads;
use streams::read_parts;

/// The most parts that a list may have: as many as the program takes.
const MOST_PARTS: usize = 256;

/// The first part of a list, and what comes after it. The part comes after its length, which has
/// two bytes, the lower one first.
fn first_part(input: &[u8]) -> Option<(&[u8], &[u8])> {
    if input.len() < 2 {
        return None;
    }
    let length = input[0] as usize + 256 * (input[1] as usize);
    let (_, after) = input.split_at(2);
    if length > after.len() {
        return None;
    }
    Some(after.split_at(length))
}

/// Whether these parts have at most this many bytes together.
fn are_within(parts: &[&[u8]], left: usize) -> bool
    ensures { OnTrue result (sum_by length (map (λ part. part.now) parts.now) ≤ left) }
{
    match parts {
        [] => true,
        [part, others @ ..] => part.len() <= left && are_within(others, left - part.len()),
    }
}

/// The parts of a list. If anything else comes after them, the list is `Unfit`.
fn parts_of<'c>(alloc: Global, input: &'c [u8]) -> Result<Vec<&'c [u8]>, NoAnswer>
    ensures few { IfOk result (λ parts. vec_len parts ≤ 256) }
    ensures limit { IfOk result (λ parts.
        sum_by length (map (λ part. part.now) parts.items) ≤ CAPTURE_LIMIT) }
{
    let mut parts = Vec::new(alloc);
    let mut rest = input;
    for _ in 0..MOST_PARTS {
        if let Some((part, after)) = first_part(rest) {
            parts.push(part).map_err(AllocError::from)?;
            rest = after;
        }
    }
    if !rest.is_empty()
        || parts.len() > MOST_PARTS
        || !are_within(parts.as_slice(), CAPTURE_LIMIT)
    {
        return Err(NoAnswer::Unfit);
    }
    Ok(parts)
}

/// Prints the bytes of each part that is read.
pub(crate) fn read<W: Write>(alloc: Global, input: &[u8], out: &mut W) -> Printed {
    let readers = parts_of(alloc, input)?;
    let parts = read_parts(alloc, readers, CAPTURE_LIMIT)?;
    value(&parts, out)
}

/// Prints the frames of the parts, or the first fault of a header and the frames before it.
pub(crate) fn cut_all<W: Write>(alloc: Global, input: &[u8], out: &mut W) -> Printed {
    let parts = parts_of(alloc, input)?;
    match cut_parts(alloc, parts.as_slice()) {
        Ok(frames) => kept_frames(&frames.as_slice(), out),
        Err(PartCut::Memory) => Err(NoAnswer::Memory),
        Err(PartCut::Bad { found, before }) => {
            value(&found, out)?;
            kept_frames(&before.as_slice(), out)
        }
    }
}

/// Prints what `run_first_fault_parts` writes about the parts, and the fault that it answers.
pub(crate) fn ran_first_fault<W: Write>(alloc: Global, input: &[u8], out: &mut W) -> Printed {
    let readers = parts_of(alloc, input)?;
    let found = run_first_fault_parts(alloc, readers, out)?;
    value(&found, out)
}

/// The question for a report, by this many workers and in pieces of one frame.
pub(crate) fn report_by(workers: Workers) -> Question {
    let piece = Piece::new(1).unwrap();
    Question::Report { workers, piece }
}

impl<T: Threads + Sync> Given<'_, T> {
    /// Prints the findings of the parts, or their first fault.
    pub(crate) fn audited_parts<W: Write>(&self, workers: Workers, out: &mut W) -> Printed {
        let parts = parts_of(self.alloc, self.bytes)?;
        self.tell_parts(parts.as_slice(), workers, out)
    }

    fn tell_parts<W: Write>(&self, parts: &[&[u8]], workers: Workers, out: &mut W) -> Printed
        requires few { length parts.now ≤ 256 }
        requires limit { sum_by length (map (λ part. part.now) parts.now) ≤ CAPTURE_LIMIT }
    {
        let piece = Piece::new(1).unwrap();
        match audit_parts(self.rt, self.alloc, parts, workers, piece, &NoGate) {
            Ok(found) => self.tell_findings(found, Shown::Sections, out),
            Err(PartsError::Memory) => Err(NoAnswer::Memory),
            Err(PartsError::Malformed(found)) => value(&found, out),
        }
    }

    /// Prints what `run_parts` writes about the parts, and what it answers.
    pub(crate) fn ran_parts<W: Write>(&self, workers: Workers, out: &mut W) -> Printed {
        let readers = parts_of(self.alloc, self.bytes)?;
        let piece = Piece::new(1).unwrap();
        let written = run_parts(self.rt, self.alloc, readers, out, workers, piece, &NoGate)?;
        value(&written, out)
    }

    /// Prints the answer to a question about the parts, and the status.
    pub(crate) fn answered<W: Write>(&self, question: Question, out: &mut W) -> Printed {
        let readers = parts_of(self.alloc, self.bytes)?;
        let status = answer(self.rt, self.alloc, question, readers, out)?;
        value(&status, out)
    }
}
