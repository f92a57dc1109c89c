//! The frames of a capture, each kept by its place.

ghost use Rattle.std.specs.Prelude.{◌≡◌, ◌+◌, ◌∷◌, [], length, leb};
ghost use Rattle.capture_frame.specs.FrameList.{AreKept, HasFrameAt, AreBytesFrom};
ghost use Rattle.capture_frame.specs.Envelope.{placed_frame};
ghost use Rattle.capture_frame.specs.Lookup.{span_of};

use crate::frame::Frame;
use crate::frames::frame_of;
use std::alloc::{AllocError, Global};
use std::marker::Model;

/// What follows the file header of a part of a capture.
#[derive(Clone, Copy)]
pub(crate) struct PartBytes<'c> {
    /// Where it begins in the joined capture.
    pub start: u64,
    pub bytes: &'c [u8],
}

/// The frames of a capture that is read in parts, in order. Only the place of each frame is kept,
/// in four bytes; the frame is read again from the capture when it is asked for. In contracts the
/// value is the list of frames: what each says, and where it begins (`PlacedFrame`).
#[derive(Drop)]
pub struct FrameList<'c> {
    parts: Vec<PartBytes<'c>>,
    places: Vec<u32>,
}

impl<'c> Model for FrameList<'c> {
    ghost use Rattle.std.specs.Prelude.{List};
    ghost use Rattle.capture_frame.specs.Envelope.{PlacedFrame};
    ghost use Rattle.capture_frame.specs.FrameList.{AreKept, bodies, frames_at};

    ghost Value = { List PlacedFrame };

    ghost view = { λ l. frames_at (bodies l.parts.items) l.places.items };

    ghost invariant = { λ l. AreKept l.parts.items l.places.items };
}

impl<'c> FrameList<'c> {
    ghost use Rattle.capture_frame.specs.FrameList.{AreKept, bodies, frames_at};

    /// The frames at these places of the parts.
    pub(crate) fn of(parts: Vec<PartBytes<'c>>, places: Vec<u32>) -> FrameList<'c>
        requires { AreKept parts.items places.items }
        ensures { result ≡ frames_at (bodies parts.entry.items) places.items }
    {
        FrameList { parts, places }
    }

    /// All frames of the list.
    pub fn as_slice(&self) -> FrameSlice<'_, 'c>
        ensures { result ≡ self.now }
    {
        FrameSlice {
            parts: self.parts.as_slice(),
            places: self.places.as_slice(),
        }
    }
}

/// Some frames of a list, one after another.
#[derive(Drop)]
pub struct FrameSlice<'f, 'c> {
    parts: &'f [PartBytes<'c>],
    places: &'f [u32],
}

impl<'f, 'c> Model for FrameSlice<'f, 'c> {
    ghost use Rattle.std.specs.Prelude.{List};
    ghost use Rattle.capture_frame.specs.Envelope.{PlacedFrame};
    ghost use Rattle.capture_frame.specs.FrameList.{AreKept, bodies, frames_at};

    ghost Value = { List PlacedFrame };

    ghost view = { λ s. frames_at (bodies s.parts.now) s.places.now };

    ghost invariant = { λ s. AreKept s.parts.now s.places.now };
}

impl<'f, 'c> FrameSlice<'f, 'c> {
    ghost use Rattle.std.specs.Prelude.{◌≤◌, ◌<◌, ◌↔◌, IsTrue, take, drop, slice_get, Some, AllPairs, IfOk};
    ghost use Rattle.capture_frame.specs.Cut.{shown_by};
    ghost use Rattle.capture_frame.specs.Envelope.{PlacedFrame, placed_frame};
    ghost use Rattle.capture_frame.specs.Lookup.{AreApart, IsFrameAt, IsSplitAt};

    /// How many frames there are.
    pub fn len(&self) -> usize
        ensures { result ≡ length self.now }
    {
        self.places.len()
    }

    /// Whether there are none.
    pub fn is_empty(&self) -> bool
        ensures { IsTrue result ↔ (self.now ≡ []) }
    {
        self.places.is_empty()
    }

    /// Where the frame with this number begins in the capture, in bytes. Numbers count from 0.
    pub fn place(&self, number: usize) -> u64
        requires { number < length self.now }
        ensures { (frame : PlacedFrame) → slice_get self.now number ≡ Some frame →
            result ≡ frame.place }
    {
        let places = self.places;
        u64::from(places[number])
    }

    /// The frame with this number, from 0. It is read again.
    pub fn get(&self, number: usize) -> Frame<'c>
        requires { number < length self.now }
        ensures { slice_get self.now number ≡ Some (placed_frame result) }
    {
        let places = self.places;
        let place = u64::from(places[number]);
        let bytes = bytes_from(self.parts, place);
        // It was judged when it was listed, so its fields are read alone.
        frame_of(bytes, place)
    }

    /// The frames without the first `count`.
    pub fn without_first(&self, count: usize) -> FrameSlice<'f, 'c>
        requires { count ≤ length self.now }
        ensures { result ≡ drop count self.now }
    {
        let (_, others) = self.split_at(count);
        others
    }

    /// The first `count` frames, and the others.
    pub fn split_at(&self, count: usize) -> (FrameSlice<'f, 'c>, FrameSlice<'f, 'c>)
        requires { count ≤ length self.now }
        ensures front { result.0 ≡ take count self.now }
        ensures back { result.1 ≡ drop count self.now }
    {
        let (front, back) = self.places.split_at(count);
        let parts = self.parts;
        (
            FrameSlice {
                parts,
                places: front,
            },
            FrameSlice {
                parts,
                places: back,
            },
        )
    }

    /// All of them, each read again.
    pub fn to_vec(&self, alloc: Global) -> Result<Vec<Frame<'c>>, AllocError>
        ensures { IfOk result (λ frames. shown_by frames.items ≡ self.now) }
    {
        let mut frames = Vec::new(alloc);
        for number in 0..self.len() {
            frames.push(self.get(number))?;
        }
        Ok(frames)
    }

    /// How many of these frames begin at a place of the capture or before it. Each must end before
    /// every later one begins.
    pub fn count_begun(&self, place: u64) -> usize
        requires { AllPairs AreApart self.now }
        ensures { IsSplitAt self.now place result }
    {
        self.places.partition_point(
            |start: &u32| -> bool
                ensures { result ≡ leb start.now place }
            { u64::from(*start) <= place },
        )
    }

    /// The frame that the byte at a place of the capture belongs to; None where it belongs to none
    /// of these frames. Each must end before every later one begins.
    pub fn frame_at(&self, place: u64) -> Option<Frame<'c>>
        requires { AllPairs AreApart self.now }
        ensures { IsFrameAt self.now place result }
    {
        let count = self.count_begun(place);
        if count == 0 {
            return None;
        }
        let frame = self.get(count - 1);
        if place < end_of(frame) {
            Some(frame)
        } else {
            None
        }
    }
}

/// Where the frame ends in the capture.
fn end_of(frame: Frame<'_>) -> u64
    ensures { result ≡ frame.entry.place + span_of (placed_frame frame.entry) }
{
    frame.attachments_place() + frame.attachments.len() as u64
}

/// The bytes of a part from the frame at this place on.
fn bytes_from<'c>(parts: &[PartBytes<'c>], place: u64) -> &'c [u8]
    requires { AreKept parts.now (place ∷ []) }
    ensures { AreBytesFrom parts.now place result.now }
{
    let PartBytes { start, bytes } = part_with(parts, place);
    let (_, rest) = bytes.split_at((place - start) as usize);
    rest
}

/// The part with the frame at this place: the last one that begins there or before.
fn part_with<'c>(parts: &[PartBytes<'c>], place: u64) -> PartBytes<'c>
    requires { AreKept parts.now (place ∷ []) }
    ensures { (has : HasFrameAt parts.now place) × (has.part ≡ result) }
{
    if parts.len() == 1 {
        return parts[0];
    }
    let count = parts.partition_point(
        |part: &PartBytes<'_>| -> bool
            ensures { result ≡ leb part.now.start place }
        { part.start <= place },
    );
    parts[count - 1]
}
