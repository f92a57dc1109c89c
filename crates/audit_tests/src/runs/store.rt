//! Tests of `program_on` with files whose bytes a contract knows: the answer is about the files that
//! the words name, in their order, and it is the same for a file that is read in stretches.
ghost use Rattle.audit_tests.specs.TwoFiles.{two_files};

use super::devices::{CAPTURE, REPORT};
use super::parts::{HEADER, part_of};
use audit_program::{Ending, program_on};
use audit_run::{FoundFile, RunError, SharedFiles, Store};
use std::alloc::{AllocError, Global};
use std::io;
use std::io::ErrorKind;
use std::process::Abort;
use std::test::Fail;
use std::thread::Threads;

/// Two files, `first` and `second`.
#[derive(Clone, Copy)]
struct TwoFiles<'a> {
    first: &'a [u8],
    second: &'a [u8],
}

impl<'a> Store for TwoFiles<'a> {
    type Part = &'a [u8];

    type Shared = TwoFiles<'a>;

    ghost use Rattle.std.specs.Prelude.{None, ⊤};

    ghost bytes_of = { λ store. two_files store.first.now store.second.now };

    ghost errors_of = { λ store name error. ⊤ };

    ghost always_of = { λ store name. None };

    fn open(&self, name: &str) -> io::Result<&'a [u8]> {
        if name == "first" {
            return Ok(self.first);
        }
        if name == "second" {
            return Ok(self.second);
        }
        Err(io::Error::from(ErrorKind::NotFound))
    }

    fn shared(&self) -> Option<&TwoFiles<'a>> {
        Some(self)
    }
}

impl<'a> SharedFiles for TwoFiles<'a> {
    ghost use Rattle.std.specs.Prelude.{None, ⊤};

    ghost known = { λ store. two_files store.first.now store.second.now };

    ghost errors = { λ store name error. ⊤ };

    ghost always = { λ store name. None };

    fn find(&self, name: &str) -> Option<FoundFile> {
        let Ok(bytes) = self.open(name) else {
            return None;
        };
        Some(FoundFile {
            size: bytes.len() as u64,
            device: 0,
            node: 0,
        })
    }

    fn bytes(
        &self,
        alloc: Global,
        name: &str,
        _found: FoundFile,
        start: u64,
        most: usize,
    ) -> Result<Vec<u8>, RunError> {
        let Ok(all) = self.open(name) else {
            return Err(RunError::Open);
        };
        let (_, rest) = all.split_at((start as usize).min(all.len()));
        let (stretch, _) = rest.split_at(most.min(rest.len()));
        let mut bytes = Vec::new(alloc);
        bytes
            .extend_from_slice(stretch)
            .map_err(|_| RunError::Memory)?;
        Ok(bytes)
    }
}

pub(super) fn words_of(alloc: Global, line: &str) -> Result<Vec<String>, AllocError> {
    let mut words = Vec::new(alloc);
    for word in line.split(' ') {
        words.push(String::from_str(alloc, word)?)?;
    }
    Ok(words)
}

/// A command line; then the status and what is written to standard output and to standard error.
type Case = (&'static str, u8, &'static [u8], &'static [u8]);

const CASES: &[Case] = &[
    ("binder_audit report first second", 0, REPORT, b""),
    (
        "binder_audit first-fault first second",
        0,
        b"no malformed record\n",
        b"",
    ),
    (
        "binder_audit report second first",
        2,
        b"malformed FrameSequence at 16 in part 2\n",
        b"",
    ),
    (
        "binder_audit first-fault first first",
        2,
        b"malformed FrameSequence at 16 in part 2\n",
        b"",
    ),
    ("binder_audit report first third", 4, b"", b"fault Open\n"),
];

fn expect_case<T: Threads + Sync + Abort>(
    rt: &T,
    alloc: Global,
    store: &TwoFiles<'_>,
    case: &Case,
) -> Result<(), AllocError> {
    let (line, status, text, told) = *case;
    let words = words_of(alloc, line)?;
    let mut out = Vec::new(alloc);
    let mut err = Vec::new(alloc);
    let ending = program_on(rt, alloc, store, words.as_slice(), &mut out, &mut err);
    assert_eq!(rt; ending, Ending { status, told: true });
    assert_eq!(rt; out.as_slice(), text);
    assert_eq!(rt; err.as_slice(), told);
    Ok(())
}

#[test]
fn answers_about_the_named_files_in_order(rt: HostRuntime) -> Result<(), Fail> {
    let (first, rest) = CAPTURE.split_at(116);
    let second = part_of(rt.alloc(), HEADER, rest)?;
    let store = TwoFiles {
        first,
        second: second.as_slice(),
    };
    for case in CASES {
        expect_case(&rt, rt.alloc(), &store, case)?;
    }
    Ok(())
}

/// A capture of so many frames, in each of which a thread enters its looper.
fn loopers(alloc: Global, header: &[u8], frames: u64) -> Result<Vec<u8>, AllocError> {
    let mut capture = Vec::new(alloc);
    capture.extend_from_slice(header)?;
    for sequence in 0..frames {
        capture.extend_from_slice(&sequence.to_le_bytes())?;
        capture.extend_from_slice(b"\x64\0\0\0\x65\0\0\0\x01\0\0\0\x04\0\0\0")?;
        capture.extend_from_slice(b"\0\0\0\0\0\0\0\0\x0c\x63\0\0")?;
    }
    Ok(capture)
}

/// What is written to standard output.
fn answer_of<T: Threads + Sync>(
    rt: &T,
    alloc: Global,
    store: &TwoFiles<'_>,
    line: &str,
) -> Result<Vec<u8>, AllocError> {
    let words = words_of(alloc, line)?;
    let mut out = Vec::new(alloc);
    let mut err = Vec::new(alloc);
    program_on(rt, alloc, store, words.as_slice(), &mut out, &mut err);
    Ok(out)
}

/// Cuts the capture off at many places, and compares what workers that read it in stretches answer.
fn expect_alike<T: Threads + Sync + Abort>(
    rt: &T,
    alloc: Global,
    capture: &[u8],
) -> Result<(), AllocError> {
    for cut in 0..=capture.len() / CUT {
        let first = &capture[..cut * CUT];
        let store = TwoFiles { first, second: b"" };
        let alone = answer_of(rt, alloc, &store, "binder_audit report --workers 1 first")?;
        let two = answer_of(rt, alloc, &store, "binder_audit report --workers 2 first")?;
        let seven = answer_of(rt, alloc, &store, "binder_audit report --workers 7 first")?;
        assert_eq!(rt; two, alone);
        assert_eq!(rt; seven, alone);
    }
    Ok(())
}

/// How many bytes are between two places where a capture is cut off. A frame of `loopers` has 36.
const CUT: usize = 41;

#[test]
fn reads_in_stretches_what_one_reads(rt: HostRuntime) -> Result<(), Fail> {
    for header in [HEADER, b"BNDRCAP2\x08\0\0\0\0\0\0\0".as_slice()] {
        let mut capture = loopers(rt.alloc(), header, 64)?;
        expect_alike(&rt, rt.alloc(), capture.as_slice())?;
        // A frame with a wrong direction, in a stretch in the middle.
        if let Some(direction) = capture.as_mut_slice().get_mut(16 + 40 * 36 + 16) {
            *direction = 3;
        }
        expect_alike(&rt, rt.alloc(), capture.as_slice())?;
    }
    Ok(())
}
