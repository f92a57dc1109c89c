//! The reader of a capture's frames.

ghost use Rattle.std.specs.Prelude.{◌≡◌, ◌<◌, ◌≤◌, ◌+◌, ◌==◌, ◌&&◌, ◌^◌, length, IsTrue, None, Ok, Err, MatchResult};
ghost use Rattle.capture_frame.specs.declared.version.Version.{Version};
ghost use Rattle.capture_frame.specs.Envelope.{in_version, frame_text, placed_frame, number_at, device_at};
ghost use Rattle.capture_frame.specs.Frames.{frame_at, frame_at_start, has_whole_frame, is_device_in};
ghost use Rattle.capture_frame.specs.Parts.{header_at};
ghost use Rattle.capture_frame.specs.Tests.{is_above};
ghost use Rattle.capture_frame.specs.Units.{placed_at};

use crate::direction::Direction;
use crate::fault::{Fault, FaultKind};
use crate::frame::Frame;
use crate::header::{self, FILE_HEADER};
use crate::number::{u24_at, u32_at, u64_at};
use crate::version::Version;
use std::marker::Model;

/// The length of a frame header, in bytes.
pub(crate) const FRAME_HEADER: usize = 32;

/// Where a reader is: before a frame, `offset` bytes after the file header, with `last` the
/// sequence of the frame before; or failed, with its fault.
#[derive(Clone, Copy)]
enum State {
    At { offset: usize, last: Option<u64> },
    Failed(Fault),
}

/// Reads the frames of a capture in order. A reader that has failed gives its fault again at every
/// later call, and one that has ended gives `None`.
#[derive(Drop)]
pub struct Frames<'c> {
    /// What follows the file header.
    bytes: &'c [u8],
    /// Where its first byte is in the capture.
    start: u64,
    /// The version that the file header names.
    version: Version,
    state: State,
}

impl<'c> Model for Frames<'c> {
    ghost use Rattle.capture_frame.specs.Envelope.{FrameText};
    ghost use Rattle.capture_frame.specs.ReadOn.{Parsed};

    ghost Value = { Parsed FrameText };

    ghost use Rattle.capture_frame.specs.State.{ahead_of, IsWithin};

    ghost view = { λ r. ahead_of r.version r.bytes.now r.start r.state };

    ghost invariant = { λ r. IsWithin r.bytes.now r.start r.state };
}

impl<'c> Frames<'c> {
    ghost use Rattle.capture_frame.specs.State.{Steps, frames_after};

    /// A reader of the capture's frames, if its file header is good, of either version. Otherwise
    /// the header's fault, by the first kind that applies.
    pub fn new(capture: &'c [u8]) -> Result<Frames<'c>, Fault>
        ensures { MatchResult result
            (λ reader. (version : Version) × (header_at capture.now ≡ Ok version)
            × (reader ≡ frames_after version capture.now 0 None))
            (λ fault. header_at capture.now ≡ Err fault) }
    {
        Frames::after(capture, 0, None)
    }

    /// A reader of the frames of a part, if its file header is good. The frame before the part has
    /// the sequence `before`, if there is one. `base` is added to the places of the part's frames
    /// and of their faults, but not to the place of a fault of the file header. All places must fit
    /// 64 bits.
    pub fn after(part: &'c [u8], base: u64, before: Option<u64>) -> Result<Frames<'c>, Fault>
        requires fits { base + length part.now < 2 ^ 64 }
        ensures { MatchResult result
            (λ reader. (version : Version) × (header_at part.now ≡ Ok version)
            × (reader ≡ frames_after version part.now base before))
            (λ fault. header_at part.now ≡ Err fault) }
    {
        let version = header::check_header(part)?;
        Ok(Frames {
            bytes: &part[FILE_HEADER..],
            start: base + FILE_HEADER as u64,
            version,
            state: State::At {
                offset: 0,
                last: before,
            },
        })
    }

    /// The next frame, as a view of the capture's bytes; or `None` at the end; or the fault of its
    /// header, by the first kind that applies. A fault is given again at every later call.
    pub fn next_frame(&mut self) -> Result<Option<Frame<'c>>, Fault>
        ensures { Steps self.old result self.new }
    {
        let (offset, last) = match self.state {
            State::At { offset, last } => (offset, last),
            State::Failed(fault) => return Err(fault),
        };
        let rest = &self.bytes[offset..];
        if rest.is_empty() {
            return Ok(None);
        }
        let place = self.start + offset as u64;
        match read_frame(rest, place, self.version, last) {
            Ok(frame) => {
                let length = FRAME_HEADER + frame.commands.len() + frame.attachments.len();
                self.state = State::At {
                    offset: offset + length,
                    last: Some(frame.sequence),
                };
                Ok(Some(frame))
            }
            Err(kind) => {
                let fault = Fault { kind, place };
                self.state = State::Failed(fault);
                Err(fault)
            }
        }
    }
}

/// Whether the sequence is above that of the frame before, if there is one.
fn is_above(sequence: u64, before: Option<u64>) -> bool
    ensures { result ≡ is_above before sequence }
{
    match before {
        Some(last) => last < sequence,
        None => true,
    }
}

/// Whether the reserved fields of a frame header are 0.
fn are_zero(bytes: &[u8], version: Version) -> bool
    requires { 32 ≤ length bytes.now }
    ensures { result
        ≡ (number_at 3 17 bytes.now == 0 && is_device_in version (device_at bytes.now)) }
{
    let zeros = u24_at(bytes, 17) == 0;
    match version {
        Version::One => zeros && u32_at(bytes, 28) == 0,
        Version::Two => zeros,
    }
}

/// The frame that these bytes begin with, or the first kind of fault that applies. The bytes begin
/// at `place`, after a file header of this version and after the frame with the sequence `last`, if
/// there is one.
pub(crate) fn read_frame(
    bytes: &[u8],
    place: u64,
    version: Version,
    last: Option<u64>,
) -> Result<Frame<'_>, FaultKind>
    requires fits { place + length bytes.now < 2 ^ 64 }
    requires some { 0 < length bytes.now }
    ensures { MatchResult result
        (λ frame. (frame_at (in_version version last) bytes.now ≡ Ok (frame_text frame))
        × (frame.place ≡ place))
        (λ kind. frame_at (in_version version last) bytes.now ≡ Err kind) }
{
    if bytes.len() < FRAME_HEADER {
        return Err(FaultKind::FrameShort);
    }
    let sequence = u64_at(bytes, 0);
    if !is_above(sequence, last) {
        return Err(FaultKind::FrameSequence);
    }
    if !Direction::is_named_by(bytes[16]) {
        return Err(FaultKind::FrameDirection);
    }
    if !are_zero(bytes, version) {
        return Err(FaultKind::FrameReserved);
    }
    let body = &bytes[FRAME_HEADER..];
    if (body.len() as u64) < u64::from(u32_at(bytes, 20)) + u64::from(u32_at(bytes, 24)) {
        return Err(FaultKind::FrameLength);
    }
    Ok(frame_of(bytes, place))
}

/// The frame that these bytes begin with, field by field. They begin at `place`. Nothing is judged.
#[inline(always)]
pub(crate) fn frame_of(bytes: &[u8], place: u64) -> Frame<'_>
    requires fits { place + length bytes.now < 2 ^ 64 }
    requires whole { IsTrue (has_whole_frame bytes.now) }
    ensures { placed_frame result ≡ placed_at place (frame_at_start bytes.now) }
{
    let command_length = u32_at(bytes, 20);
    let attachment_length = u32_at(bytes, 24);
    let body = &bytes[FRAME_HEADER..];
    let (commands, rest) = body.split_at(command_length as usize);
    let (attachments, _) = rest.split_at(attachment_length as usize);
    Frame {
        place,
        sequence: u64_at(bytes, 0),
        device: u32_at(bytes, 28),
        process: u32_at(bytes, 8),
        thread: u32_at(bytes, 12),
        direction: Direction::of(bytes[16]),
        commands,
        attachments,
    }
}
