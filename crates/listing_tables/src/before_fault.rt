//! The capture of what comes before the first fault of a malformed one.

ghost use Rattle.std.specs.Prelude.{◌≡◌, ◌<◌, ◌≤◌, ◌^◌, length, map, take, IfOk, OnOk};
ghost use Rattle.std.specs.Io.KnownBytes.{Appends};
ghost use Rattle.std.specs.List.{flat_map, sum_by};
ghost use Rattle.capture_frame.specs.declared.version.Version.TheVariants.{Two};
ghost use Rattle.capture_frame.specs.Envelope.{file_header, frame_bytes, frame_header, frame_text, placed_frame};
ghost use Rattle.listing_tables.specs.BeforeFault.{before_place, capture_before_fault, good_capture, good_part};

use crate::ending::frames_of;
use byteorder::{LittleEndian, WriteBytesExt};
use capture_frame::{Frame, FrameSlice};
use listing_fields::{ListingError, Outcome, direction_number, write_error};
use std::alloc::Global;
use std::io::{self, BufWriter, ErrorKind, Write};
use transaction_view::check_frame;

/// The file header of version 2.
const FILE_HEADER_2: &[u8] = b"BNDRCAP2\x08\0\0\0\0\0\0\0";

/// Writes a good capture, in one file, of what comes before the first fault of these parts: the
/// frames that count, each at its place in the joined capture, and the last one without the record
/// or the attachment entry that is the fault, and without all that comes after. The frames are
/// written from the parts themselves.
pub(crate) fn write_before_fault<W: Write + Drop>(
    alloc: Global,
    parts: &[&[u8]],
    file: W,
) -> Result<W, ListingError>
    requires few { length parts.now < 2 ^ 32 }
    requires fits { sum_by length (map (λ part. part.now) parts.now) < 2 ^ 64 }
    ensures { IfOk result (λ written. Appends (W.contents file) (W.contents written)
        (capture_before_fault (map (λ part. part.now) parts.now))) }
{
    let (frames, ending) = frames_of(alloc, parts)?;
    let done = write_capture(alloc, &frames.as_slice(), ending.count, file);
    drop(frames);
    match done {
        Ok(written) => Ok(written),
        Err(error) => Err(write_error(&error)),
    }
}

/// Writes a capture of what is good of the first `count` frames.
fn write_capture<W: Write + Drop>(
    alloc: Global,
    frames: &FrameSlice<'_, '_>,
    count: usize,
    file: W,
) -> io::Result<W>
    requires { count ≤ length frames.now }
    ensures { IfOk result (λ written. Appends (W.contents file) (W.contents written)
        (good_capture (take count frames.now))) }
{
    let mut writer = BufWriter::new(alloc, file)?;
    write_frames(frames, count, &mut writer)?;
    Ok(writer.into_inner()?)
}

fn write_frames<W: Write>(frames: &FrameSlice<'_, '_>, count: usize, out: &mut W) -> io::Result<()>
    requires { count ≤ length frames.now }
    ensures { OnOk result (Appends (W.contents out.old) (W.contents out.new)
        (good_capture (take count frames.now))) }
{
    out.write_all(FILE_HEADER_2)?;
    for number in 0..count {
        write_frame(good_part(frames.get(number)), out)?;
    }
    Ok(())
}

/// Writes a frame.
fn write_frame<W: Write>(frame: Frame<'_>, out: &mut W) -> io::Result<()>
    ensures { OnOk result (Appends (W.contents out.old) (W.contents out.new)
        (frame_bytes (frame_text frame.entry))) }
{
    write_header(frame, out)?;
    out.write_all(frame.commands)?;
    out.write_all(frame.attachments)
}

fn write_header<W: Write>(frame: Frame<'_>, out: &mut W) -> io::Result<()>
    ensures { OnOk result (Appends (W.contents out.old) (W.contents out.new)
        (frame_header (frame_text frame.entry))) }
{
    out.write_u64::<LittleEndian>(frame.sequence)?;
    out.write_u32::<LittleEndian>(frame.process)?;
    out.write_u32::<LittleEndian>(frame.thread)?;
    out.write_u8(direction_number(frame.direction))?;
    out.write_u24::<LittleEndian>(0)?;
    out.write_u32::<LittleEndian>(length_of(frame.commands)?)?;
    out.write_u32::<LittleEndian>(length_of(frame.attachments)?)?;
    out.write_u32::<LittleEndian>(frame.device)
}

/// The length of a part of a frame, which was read from four bytes.
fn length_of(bytes: &[u8]) -> io::Result<u32>
    ensures { IfOk result (λ found. found ≡ length bytes.now) }
{
    u32::try_from(bytes.len()).map_err(|_| io::Error::from(ErrorKind::InvalidInput))
}

/// What is good of a frame.
fn good_part(frame: Frame<'_>) -> Frame<'_>
    ensures { frame_text result ≡ good_part (placed_frame frame.entry) }
{
    let Some(fault) = check_frame(frame) else {
        return frame;
    };
    Frame {
        place: frame.place,
        sequence: frame.sequence,
        device: frame.device,
        process: frame.process,
        thread: frame.thread,
        direction: frame.direction,
        commands: before_place(fault.place, frame.commands_place(), frame.commands),
        attachments: before_place(fault.place, frame.attachments_place(), frame.attachments),
    }
}

/// Those of the bytes, which begin at `start`, that come before a place.
fn before_place(place: u64, start: u64, bytes: &[u8]) -> &[u8]
    ensures { result.now ≡ before_place place start bytes.now }
{
    let count = place.saturating_sub(start).min(bytes.len() as u64);
    &bytes[..count as usize]
}
