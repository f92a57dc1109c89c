//! What the auditor answers to a command line.
use audit_program::{SharedFiles, program};
use std::alloc::{AllocError, Global};
use std::fs::Files;
use std::io;
use std::io::Write;
use std::thread::Threads;

/// A status, and what was written to standard output and to standard error.
#[derive(PartialEq, Drop)]
pub(crate) struct Answer {
    status: u8,
    out: Vec<u8>,
    err: Vec<u8>,
}

impl Answer {
    /// Writes the status and both texts, byte for byte.
    pub(crate) fn print<W: Write>(&self, out: &mut W) -> io::Result<()> {
        let status = self.status;
        writeln!(out, "status {status}")?;
        out.write_all(self.out.as_slice())?;
        if !self.err.is_empty() {
            writeln!(out, "standard error:")?;
            out.write_all(self.err.as_slice())?;
        }
        Ok(())
    }
}

/// The answer to the words of this line, which are separated by one tab each.
pub(crate) fn answer_to<T: Files + SharedFiles + Threads + Sync>(
    rt: &T,
    alloc: Global,
    line: &str,
) -> Result<Answer, AllocError> {
    let words = words_of(alloc, line)?;
    let mut out = Vec::new(alloc);
    let mut err = Vec::new(alloc);
    let status = program(rt, alloc, words.as_slice(), &mut out, &mut err);
    Ok(Answer { status, out, err })
}

/// The words that the program is given: its own name, and those of the line. An empty line has no
/// word.
fn words_of(alloc: Global, line: &str) -> Result<Vec<String>, AllocError> {
    let mut words = Vec::new(alloc);
    words.push(String::from_str(alloc, "binder_audit")?)?;
    if !line.is_empty() {
        for word in line.split('\t') {
            words.push(String::from_str(alloc, word)?)?;
        }
    }
    Ok(words)
}
