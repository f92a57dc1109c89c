//! Tests of `program_on` with a file no stretch of which can be read, and a contract that knows with
//! which error each reading ends: the error is told, or the file is read by its reader.
ghost use Rattle.audit_tests.specs.NotInStretches.{error_of};

use super::devices::{CAPTURE, REPORT};
use super::store::words_of;
use audit_program::{Ending, program_on};
use audit_run::{FoundFile, RunError, SharedFiles, Store};
use std::alloc::{AllocError, Global};
use std::io;
use std::process::Abort;
use std::test::Fail;
use std::thread::Threads;

/// A file with a capture, under each name.
#[derive(Clone, Copy)]
struct NotInStretches<'a> {
    capture: &'a [u8],
    /// Whether it can't be opened again. Otherwise each reading of a stretch fails.
    gone: bool,
}

impl<'a> Store for NotInStretches<'a> {
    type Part = &'a [u8];

    type Shared = NotInStretches<'a>;

    ghost use Rattle.std.specs.Prelude.{◌≡◌, Some};

    ghost bytes_of = { λ store name. Some store.capture.now };

    ghost errors_of = { λ store name error. error ≡ error_of store.gone };

    ghost always_of = { λ store name. Some (error_of store.gone) };

    fn open(&self, _name: &str) -> io::Result<&'a [u8]> {
        Ok(self.capture)
    }

    fn shared(&self) -> Option<&NotInStretches<'a>> {
        Some(self)
    }
}

impl<'a> SharedFiles for NotInStretches<'a> {
    ghost use Rattle.std.specs.Prelude.{◌≡◌, Some};

    ghost known = { λ files name. Some files.capture.now };

    ghost errors = { λ files name error. error ≡ error_of files.gone };

    ghost always = { λ files name. Some (error_of files.gone) };

    fn find(&self, _name: &str) -> Option<FoundFile> {
        Some(FoundFile {
            size: self.capture.len() as u64,
            device: 0,
            node: 0,
        })
    }

    fn bytes(
        &self,
        _alloc: Global,
        _name: &str,
        _found: FoundFile,
        _start: u64,
        _most: usize,
    ) -> Result<Vec<u8>, RunError> {
        if self.gone {
            return Err(RunError::Open);
        }
        Err(RunError::Read)
    }
}

/// Whether the file is gone; a command line; then the status and what is written to standard output
/// and to standard error.
type Case = (bool, &'static str, u8, &'static [u8], &'static [u8]);

const CASES: &[Case] = &[
    (
        false,
        "binder_audit report --workers 2 x",
        4,
        b"",
        b"fault Read\n",
    ),
    (true, "binder_audit report --workers 2 x", 0, REPORT, b""),
    (false, "binder_audit report --workers 1 x", 0, REPORT, b""),
];

fn expect_case<T: Threads + Sync + Abort>(
    rt: &T,
    alloc: Global,
    case: &Case,
) -> Result<(), AllocError> {
    let (gone, line, status, text, told) = *case;
    let store = NotInStretches {
        capture: CAPTURE,
        gone,
    };
    let words = words_of(alloc, line)?;
    let mut out = Vec::new(alloc);
    let mut err = Vec::new(alloc);
    let ending = program_on(rt, alloc, &store, words.as_slice(), &mut out, &mut err);
    assert_eq!(rt; ending, Ending { status, told: true });
    assert_eq!(rt; out.as_slice(), text);
    assert_eq!(rt; err.as_slice(), told);
    Ok(())
}

#[test]
fn tells_the_error_of_reading_in_stretches(rt: HostRuntime) -> Result<(), Fail> {
    for case in CASES {
        expect_case(&rt, rt.alloc(), case)?;
    }
    Ok(())
}
