//! The calls from a capture, or from a command line, to findings, to a text and to streams.

use crate::given::Given;
use crate::told;
use audit_join::{AuditError, CAPTURE_LIMIT, Findings, Piece, audit, audit_one};
use audit_program::program;
use audit_run::{
    HostFiles, Question, Request, SharedFiles, answer_files, run, run_first_fault, run_gated,
};
use claim_board::{NoGate, Workers};
use refusal_ledgers::{NoAnswer, Printed, value};
use report_text::{rows, text};
use std::alloc::{AllocError, Global};
use std::fs::Files;
use std::io::Write;
use std::thread::Threads;
use streams::read_capture;

/// The most files that a line may name: as many as a command line may.
const MOST_FILES: usize = 256;

/// Prints the bytes that are read.
pub(crate) fn read<W: Write>(alloc: Global, bytes: &[u8], out: &mut W) -> Printed {
    let mut reader = bytes;
    let capture = read_capture(alloc, &mut reader, CAPTURE_LIMIT)?;
    value(&capture, out)
}

/// Prints what `run_first_fault` writes, and the fault that it answers.
pub(crate) fn ran_first_fault<W: Write>(alloc: Global, bytes: &[u8], out: &mut W) -> Printed {
    let mut reader = bytes;
    let found = run_first_fault(alloc, &mut reader, out)?;
    value(&found, out)
}

/// Prints a fault.
fn tell_error<W: Write>(error: AuditError, out: &mut W) -> Printed {
    match error {
        AuditError::Memory => Err(NoAnswer::Memory),
        AuditError::Malformed(fault) => value(&fault, out),
    }
}

/// What is printed of findings.
#[derive(Clone, Copy)]
pub(crate) enum Shown {
    Sections,
    Rows,
    Text,
}

impl<T: Threads + Sync> Given<'_, T> {
    /// Prints findings, and drops them.
    pub(crate) fn tell_findings<W: Write>(
        &self,
        found: Findings<'_>,
        shown: Shown,
        out: &mut W,
    ) -> Printed {
        let printed = self.tell_of(&found, shown, out);
        found.discard();
        printed
    }

    fn tell_of<W: Write>(&self, found: &Findings<'_>, shown: Shown, out: &mut W) -> Printed {
        match shown {
            Shown::Sections => told::findings(found, out),
            Shown::Rows => self.tell_rows(found, out),
            Shown::Text => self.tell_text(found, out),
        }
    }

    fn tell_rows<W: Write>(&self, found: &Findings<'_>, out: &mut W) -> Printed {
        let rows = rows(self.rt, self.alloc, found)?;
        for row in &rows {
            let row = row.as_str();
            writeln!(out, "{row}")?;
        }
        Ok(())
    }

    fn tell_text<W: Write>(&self, found: &Findings<'_>, out: &mut W) -> Printed {
        let text = text(self.rt, self.alloc, found)?;
        writeln!(out, "{text}")?;
        Ok(())
    }

    pub(crate) fn audited<W: Write>(&self, workers: Workers, out: &mut W) -> Printed {
        if self.bytes.len() > CAPTURE_LIMIT {
            return Err(NoAnswer::Unfit);
        }
        let piece = Piece::new(1).unwrap();
        match audit(self.rt, self.alloc, self.bytes, workers, piece, &NoGate) {
            Ok(found) => self.tell_findings(found, Shown::Sections, out),
            Err(error) => tell_error(error, out),
        }
    }

    /// Prints this of the findings that one worker makes.
    pub(crate) fn audited_by_one<W: Write>(&self, shown: Shown, out: &mut W) -> Printed {
        if self.bytes.len() > CAPTURE_LIMIT {
            return Err(NoAnswer::Unfit);
        }
        match audit_one(self.rt, self.alloc, self.bytes) {
            Ok(found) => self.tell_findings(found, shown, out),
            Err(error) => tell_error(error, out),
        }
    }

    pub(crate) fn ran<W: Write>(&self, workers: Workers, out: &mut W) -> Printed {
        let mut reader = self.bytes;
        let piece = Piece::new(1).unwrap();
        let written = run(self.rt, self.alloc, &mut reader, out, workers, piece)?;
        value(&written, out)
    }

    pub(crate) fn ran_gated<W: Write>(&self, workers: Workers, out: &mut W) -> Printed {
        let mut reader = self.bytes;
        let piece = Piece::new(1).unwrap();
        let written = run_gated(
            self.rt,
            self.alloc,
            &mut reader,
            out,
            workers,
            piece,
            &NoGate,
        )?;
        value(&written, out)
    }
}

/// The words of a command line, which are separated by one tab each.
fn words_of(alloc: Global, line: &str) -> Result<Vec<String>, AllocError> {
    let mut words = Vec::new(alloc);
    for word in line.split('\t') {
        words.push(String::from_str(alloc, word)?)?;
    }
    Ok(words)
}

/// The names of the files, which are separated by one tab each.
fn files_of(alloc: Global, line: &str) -> Result<Vec<&str>, AllocError> {
    let mut files = Vec::new(alloc);
    for file in line.split('\t') {
        files.push(file)?;
    }
    Ok(files)
}

impl<T: Files + SharedFiles + Threads + Sync> Given<'_, T> {
    /// The bytes are a command line. Status 3 says that memory was refused.
    pub(crate) fn programmed<W: Write, E: Write>(&self, out: &mut W, err: &mut E) -> Printed {
        let Ok(line) = str::from_utf8(self.bytes) else {
            return Err(NoAnswer::Unfit);
        };
        let words = words_of(self.alloc, line)?;
        let status = program(self.rt, self.alloc, words.as_slice(), out, err);
        if status == 3 {
            return Err(NoAnswer::Memory);
        }
        value(&status, out)
    }

    /// The bytes are names of files.
    pub(crate) fn answered_files<W: Write>(&self, question: Question, out: &mut W) -> Printed {
        let Ok(line) = str::from_utf8(self.bytes) else {
            return Err(NoAnswer::Unfit);
        };
        let files = files_of(self.alloc, line)?;
        if files.len() > MOST_FILES {
            return Err(NoAnswer::Unfit);
        }
        let files = files.as_slice();
        let store = HostFiles { files: self.rt };
        let request = Request { question, files };
        let status = answer_files(self.rt, self.alloc, &store, request, out)?;
        value(&status, out)
    }
}
