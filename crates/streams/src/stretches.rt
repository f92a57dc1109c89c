//! Reads a capture in stretches, by several threads at once.
ghost use Rattle.std.specs.Prelude.{◌≡◌, ◌<◌, ◌≤◌, ◌+◌, ◌-◌, ◌^◌, ◌++◌, ℕ, List, length, map, drop, take, Ok, Option, All, Err, IfOk, IfErr, IfSome, IsOkUnless, IsSome, IsTrue, vec_len};
ghost use Rattle.std.specs.List.{flat_map};
ghost use Rattle.std.specs.Thread.{IsSync};
ghost use Rattle.capture_frame.specs.Envelope.{file_header};
ghost use Rattle.capture_frame.specs.Parts.{header_at};
ghost use Rattle.streams.specs.Parts.{bytes_of};
ghost use Rattle.streams.specs.Stretches.{ArePartsOf, AreStretchesOf, IsPartOf, IsStretch, IsStretchError};

use crate::run_error::RunError;
use capture_frame::{FILE_HEADER, Frames, Version, check_header};
use std::alloc::Global;
use std::thread;
use std::thread::Threads;

/// How many bytes are looked through for the beginning of a frame.
const WINDOW: usize = 65_536;

/// So many frames in a row are taken for frames.
const IN_A_ROW: usize = 8;

/// A file, as it was found.
#[derive(Clone, Copy)]
pub struct FoundFile {
    /// How many bytes it has.
    pub size: u64,
    /// The device that it is on.
    pub device: u64,
    /// Its number there.
    pub node: u64,
}

/// Files that several threads may read at once, each a stretch of its own.
pub trait SharedFiles {
    ghost use Rattle.streams.specs.declared.run_error.RunError.{RunError};

    /// All bytes of the file of this name, if a contract can say which these are.
    ghost known: { Self → List ℕ → Option (List ℕ) };

    /// The errors with which a reading of the file of this name may end.
    ghost errors: { Self → List ℕ → RunError → Type 0 };

    /// The error with which each reading of the file of this name ends, if a contract can say that
    /// the file is found and that each does.
    ghost always: { Self → List ℕ → Option RunError };

    /// The file of this name, if it can be read from any place on, and is worth it.
    fn find(&self, name: &str) -> Option<FoundFile>
        ensures { IfSome (always self.now name.now) (λ error. IsSome result) };

    /// The bytes of a file from `start` on: `most` of them, or fewer where it ends. `Open` if it
    /// can't be opened, or if the name has become that of another file.
    fn bytes(
        &self,
        alloc: Global,
        name: &str,
        found: FoundFile,
        start: u64,
        most: usize,
    ) -> Result<Vec<u8>, RunError>
        ensures bytes { IfOk result (λ bytes.
            IsStretch (known self.now name.now) start most bytes.items) }
        ensures faults { IfErr result (IsStretchError (errors self.now name.now)) }
        ensures always { IfSome (always self.now name.now) (λ error. result ≡ Err error) };
}

/// The bytes of a file from `start` on that are before `end`, after its file header.
#[derive(Clone, Copy)]
struct Stretch {
    start: u64,
    end: u64,
    ghost after_header: { 16 ≤ start },
    ghost in_order: { start ≤ end },
    ghost fits: { end < 2 ^ 63 },
}

/// A file that is read in stretches, as it was found, and the file header that each part gets.
#[derive(Drop)]
struct SharedFile<'f, F> {
    files: &'f F,
    name: &'f str,
    found: FoundFile,
    head: &'f [u8],
}

/// Reads a file by several threads at once, each a stretch of it, as parts of a capture: each
/// stretch follows the file header of the capture. It is read to its end, even if it has grown since
/// it was found. None if it has no good file header, or if the parts would pass the limit together.
/// Unless the file has grown meanwhile, only its file header has been read then.
///
/// A stretch begins where a frame seems to begin, so that each part is good if the capture is. That
/// is a guess, and nothing rests on it.
pub fn read_stretches<T: Threads + Sync, F: SharedFiles + Sync>(
    rt: &T,
    alloc: Global,
    files: &F,
    name: &str,
    found: FoundFile,
    limit: usize,
    threads: u64,
) -> Result<Option<Vec<Vec<u8>>>, RunError>
    requires { limit < 2 ^ 62 }
    ensures read { IfOk result (λ found. IfSome found (λ parts.
        AreStretchesOf limit (F.known files.now name.now)
        (map (λ part. part.items) parts.items))) }
    ensures faults { IfErr result (IsStretchError (F.errors files.now name.now)) }
    ensures always { IfSome (F.always files.now name.now) (λ error. result ≡ Err error) }
{
    let head = files.bytes(alloc, name, found, 0, FILE_HEADER)?;
    let Some(version) = version_of(head.as_slice()) else {
        return Ok(None);
    };
    let size = found.size;
    let most = limit as u64;
    if size < FILE_HEADER as u64 || most < size {
        return Ok(None);
    }
    // Each thread's part has a file header of its own.
    if (most - size) / (FILE_HEADER as u64) < threads {
        return Ok(None);
    }
    let file = SharedFile {
        files,
        name,
        found,
        head: head.as_slice(),
    };
    let first = Stretch {
        start: FILE_HEADER as u64,
        end: size,
    };
    let rest = Stretch {
        start: size,
        end: most + 1,
    };
    let parts = file.read_side_by_side(rt, alloc, first, threads)?;
    let rest = file.part_of(alloc, rest)?;
    let parts = with_rest(parts, rest)?;
    match of_one_capture(parts, version, limit) {
        Some(parts) => Ok(Some(parts)),
        None => Ok(None),
    }
}

/// The parts, if the file headers of all of them name this version, and if they are within the limit
/// together.
fn of_one_capture(parts: Vec<Vec<u8>>, version: Version, limit: usize) -> Option<Vec<Vec<u8>>>
    ensures same { IfSome result (λ all. all.items ≡ parts.items) }
    ensures version { IfSome result (λ all.
        All (IsPartOf version) (map (λ part. part.items) all.items)) }
    ensures within { IfSome result (λ all.
        16 + bytes_of (map (λ part. part.items) all.items) ≤ limit) }
{
    if are_of(parts.as_slice(), version) && are_within(parts.as_slice(), limit) {
        return Some(parts);
    }
    None
}

/// The version that a file header names, if it is good.
fn version_of(part: &[u8]) -> Option<Version>
    ensures named { IfSome result (λ version. header_at part.now ≡ Ok version) }
    ensures printed { IfSome result (λ version. take 16 part.now ≡ file_header version) }
{
    match check_header(part) {
        Ok(version) => Some(version),
        Err(_) => None,
    }
}

/// Whether the file header of a part names this version.
fn is_of(part: &[u8], version: Version) -> bool
    ensures { IsTrue result → IsPartOf version part.now }
{
    matches!(
        (version_of(part), version),
        (Some(Version::One), Version::One) | (Some(Version::Two), Version::Two)
    )
}

/// Whether the file headers of all parts name this version.
fn are_of(parts: &[Vec<u8>], version: Version) -> bool
    ensures { IsTrue result →
        All (IsPartOf version) (map (λ part. part.items) parts.now) }
{
    for part in parts {
        if !is_of(part.as_slice(), version) {
            return false;
        }
    }
    true
}

/// Whether the parts are within the limit together, with one more file header.
fn are_within(parts: &[Vec<u8>], limit: usize) -> bool
    ensures { IsTrue result → 16 + bytes_of (map (λ part. part.items) parts.now) ≤ limit }
{
    if limit < FILE_HEADER {
        return false;
    }
    let mut left = limit - FILE_HEADER;
    for part in parts {
        if left < part.len() {
            return false;
        }
        left -= part.len();
    }
    true
}

impl<F: SharedFiles> SharedFile<'_, F> {
    /// Reads a stretch by several threads at once: the stretch and the threads are halved as long as
    /// there are two threads. The parts come in order.
    fn read_side_by_side<T: Threads + Sync>(
        &self,
        rt: &T,
        alloc: Global,
        stretch: Stretch,
        threads: u64,
    ) -> Result<Vec<Vec<u8>>, RunError>
    where
        F: Sync,
        ensures read { IfOk result (λ parts.
            ArePartsOf (F.known self.now.files.now self.now.name.now) stretch.start
            (stretch.end - stretch.start) (map (λ part. part.items) parts.items)) }
        ensures faults { IfErr result (
            IsStretchError (F.errors self.now.files.now self.now.name.now)) }
    {
        if threads < 2 {
            return self.one_part(alloc, stretch);
        }
        let some = threads / 2;
        let others = threads - some;
        let Some(seam) = self.seam_in(alloc, stretch)? else {
            return self.one_part(alloc, stretch);
        };
        let front = Stretch {
            start: stretch.start,
            end: seam,
        };
        let back = Stretch {
            start: seam,
            end: stretch.end,
        };
        // A closure that has the struct, with its lifetime, would lose what it ensures.
        let (files, name, found, head) = (self.files, self.name, self.found, self.head);
        let (first, second) = thread::join(
            rt,
            || -> Result<Vec<Vec<u8>>, RunError>
                requires { IsSync T.row × IsSync F.row }
                ensures { IfOk result (λ parts.
                    ArePartsOf (F.known files.entry.now name.entry.now) front.start
                    (front.end - front.start) (map (λ part. part.items) parts.items))
                    × IfErr result (IsStretchError (F.errors files.entry.now name.entry.now)) }
            {
                let file = SharedFile {
                    files,
                    name,
                    found,
                    head,
                };
                file.read_side_by_side(rt, alloc, front, some)
            },
            || -> Result<Vec<Vec<u8>>, RunError>
                requires { IsSync T.row × IsSync F.row }
                ensures { IfOk result (λ parts.
                    ArePartsOf (F.known files.entry.now name.entry.now) back.start
                    (back.end - back.start) (map (λ part. part.items) parts.items))
                    × IfErr result (IsStretchError (F.errors files.entry.now name.entry.now)) }
            {
                let file = SharedFile {
                    files,
                    name,
                    found,
                    head,
                };
                file.read_side_by_side(rt, alloc, back, others)
            },
        );
        self.both_halves(first, second, front, back)
    }

    /// What both halves have read, or the error of one.
    fn both_halves(
        &self,
        first: Result<Vec<Vec<u8>>, RunError>,
        second: Result<Vec<Vec<u8>>, RunError>,
        front: Stretch,
        back: Stretch,
    ) -> Result<Vec<Vec<u8>>, RunError>
        requires next { back.start ≡ front.end }
        requires first { IfOk first (λ parts.
            ArePartsOf (F.known self.now.files.now self.now.name.now) front.start
            (front.end - front.start) (map (λ part. part.items) parts.items)) }
        requires second { IfOk second (λ parts.
            ArePartsOf (F.known self.now.files.now self.now.name.now) back.start
            (back.end - back.start) (map (λ part. part.items) parts.items)) }
        requires faults { IfErr first (IsStretchError (F.errors self.now.files.now self.now.name.now))
            × IfErr second (IsStretchError (F.errors self.now.files.now self.now.name.now)) }
        ensures read { IfOk result (λ parts.
            ArePartsOf (F.known self.now.files.now self.now.name.now) front.start
            (back.end - front.start) (map (λ part. part.items) parts.items)) }
        ensures faults { IfErr result (
            IsStretchError (F.errors self.now.files.now self.now.name.now)) }
    {
        let mut all = first?;
        let mut others = second?;
        all.append(&mut others).map_err(|_| RunError::Memory)?;
        Ok(all)
    }

    /// A list of one part, which is the whole stretch.
    fn one_part(&self, alloc: Global, stretch: Stretch) -> Result<Vec<Vec<u8>>, RunError>
        ensures read { IfOk result (λ parts.
            ArePartsOf (F.known self.now.files.now self.now.name.now) stretch.start
            (stretch.end - stretch.start) (map (λ part. part.items) parts.items)) }
        ensures faults { IfErr result (
            IsStretchError (F.errors self.now.files.now self.now.name.now)) }
    {
        let part = self.part_of(alloc, stretch)?;
        let mut parts = Vec::new(alloc);
        parts.push(part).map_err(|_| RunError::Memory)?;
        Ok(parts)
    }

    /// A stretch as a part. The bytes before it make room for its file header.
    fn part_of(&self, alloc: Global, stretch: Stretch) -> Result<Vec<u8>, RunError>
        ensures read { IfOk result (λ part.
            IsStretch (F.known self.now.files.now self.now.name.now) stretch.start
            (stretch.end - stretch.start) (drop 16 part.items)) }
        ensures faults { IfErr result (
            IsStretchError (F.errors self.now.files.now self.now.name.now)) }
    {
        let before = stretch.start - FILE_HEADER as u64;
        let most = (stretch.end - stretch.start) as usize + FILE_HEADER;
        let part = self
            .files
            .bytes(alloc, self.name, self.found, before, most)?;
        Ok(with_header(part, self.head)?)
    }

    /// Where a frame seems to begin after the middle of the stretch, if one is found.
    fn seam_in(&self, alloc: Global, stretch: Stretch) -> Result<Option<u64>, RunError>
        ensures within { IfOk result (λ found. IfSome found (λ seam.
            (stretch.start ≤ seam) × (seam ≤ stretch.end))) }
        ensures faults { IfErr result (
            IsStretchError (F.errors self.now.files.now self.now.name.now)) }
    {
        let middle = stretch.start + (stretch.end - stretch.start) / 2;
        let before = middle - FILE_HEADER as u64;
        let mut window = self
            .files
            .bytes(alloc, self.name, self.found, before, WINDOW)?;
        let Some(at) = guess(window.as_mut_slice(), self.head) else {
            return Ok(None);
        };
        let seam = before + at as u64;
        if stretch.end < seam {
            return Ok(None);
        }
        Ok(Some(seam))
    }
}

/// The part with this file header in place of its first bytes. If the file has become too short to
/// have these, nothing else is left of the part.
fn with_header(part: Vec<u8>, head: &[u8]) -> Result<Vec<u8>, RunError>
    ensures after { IfOk result (λ whole. drop 16 whole.items ≡ drop 16 part.items) }
    ensures memory { IsOkUnless result RunError.Memory }
{
    let mut whole = part;
    if whole.len() < FILE_HEADER && head.len() == FILE_HEADER {
        whole.clear();
        whole.extend_from_slice(head).map_err(|_| RunError::Memory)?;
        return Ok(whole);
    }
    put_header(whole.as_mut_slice(), head);
    Ok(whole)
}

/// Puts a file header over the first bytes, if there are as many.
fn put_header(bytes: &mut [u8], head: &[u8])
    ensures after { drop 16 bytes.new ≡ drop 16 bytes.old }
    ensures long { length bytes.new ≡ length bytes.old }
{
    if bytes.len() < FILE_HEADER || head.len() != FILE_HEADER {
        return;
    }
    let (front, _) = bytes.split_at_mut(FILE_HEADER);
    front.copy_from_slice(head);
}

/// The parts, and the rest of the capture as one more if there is any.
fn with_rest(parts: Vec<Vec<u8>>, rest: Vec<u8>) -> Result<Vec<Vec<u8>>, RunError>
    ensures read { IfOk result (λ all. (vec_len parts ≤ vec_len all)
        × (flat_map (drop 16) (map (λ part. part.items) all.items)
        ≡ flat_map (drop 16) (map (λ part. part.items) parts.items) ++ drop 16 rest.items)) }
    ensures memory { IsOkUnless result RunError.Memory }
{
    let mut all = parts;
    if FILE_HEADER < rest.len() {
        all.push(rest).map_err(|_| RunError::Memory)?;
    }
    Ok(all)
}

/// Where frames seem to begin in these bytes. What is before that place is written over.
fn guess(bytes: &mut [u8], head: &[u8]) -> Option<usize>
    ensures { IfSome result (λ at. (16 ≤ at) × (at ≤ length bytes.old)) }
{
    for at in FILE_HEADER..bytes.len() {
        let rest = &mut bytes[at - FILE_HEADER..];
        put_header(rest, head);
        if seem_frames(rest) {
            return Some(at);
        }
    }
    None
}

/// Whether a capture begins with so many good frame headers.
fn seem_frames(capture: &[u8]) -> bool {
    let Ok(mut frames) = Frames::new(capture) else {
        return false;
    };
    for _ in 0..IN_A_ROW {
        match frames.next_frame() {
            Ok(Some(_)) => {}
            Ok(None) | Err(_) => return false,
        }
    }
    true
}
