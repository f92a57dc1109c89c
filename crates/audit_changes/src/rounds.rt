//! The captures of one line, one after another.
use crate::answers::Answers;
use crate::changes::Change;
use crate::lines::{Asked, Line};
use std::alloc::Global;
use std::fs::Files;
use std::io::{ErrorKind, Read, Write};
use std::thread::Threads;
use std::{fs, io};

/// Prints a line, compares the auditor's answers to each capture that the line asks for, and prints
/// how many captures and how many reports there were.
pub(crate) fn run_line<T: Files + Threads + Sync, W: Write>(
    rt: &T,
    alloc: Global,
    line: &str,
    out: &mut W,
) -> io::Result<()> {
    writeln!(out, "> {line}")?;
    let Some(line) = Line::read(alloc, line)? else {
        return Err(io::Error::new(ErrorKind::InvalidInput, "a line of another form"));
    };
    let file = read_file(rt, alloc, line.file)?;
    let mut round = Round {
        rt,
        alloc,
        file: file.as_slice(),
        due: line.due,
        out,
        captures: 0,
        reports: 0,
    };
    round.compare_all(line.asked)?;
    round.print_counts()
}

fn read_file<T: Files>(rt: &T, alloc: Global, name: &str) -> io::Result<Vec<u8>> {
    let mut bytes = Vec::new(alloc);
    fs::open(rt, name)?.read_to_end(&mut bytes)?;
    Ok(bytes)
}

/// The file whose changed captures are audited, the answer that is due, and how many captures and
/// reports there were so far.
#[derive(Drop)]
struct Round<'a, T, W> {
    rt: &'a T,
    alloc: Global,
    file: &'a [u8],
    due: Option<&'a str>,
    out: &'a mut W,
    captures: u64,
    reports: u64,
}

impl<T: Threads + Sync, W: Write> Round<'_, T, W> {
    fn compare_all(&mut self, asked: Asked) -> io::Result<()> {
        match asked {
            Asked::Cut { from, to } => self.compare_cuts(from, to),
            Asked::Change { at, value } => self.compare(Change::Number(at, value)),
            Asked::Every => {
                for length in 0..self.file.len() {
                    self.compare(Change::Cut(length))?;
                }
                self.compare_bytes()
            }
        }
    }

    fn compare_cuts(&mut self, from: usize, to: usize) -> io::Result<()> {
        for length in from..=to {
            self.compare(Change::Cut(length))?;
        }
        Ok(())
    }

    /// Changes each byte: to 0x00, to 0xff, and to the byte plus one.
    fn compare_bytes(&mut self) -> io::Result<()> {
        let file = self.file;
        for (at, byte) in file.iter().copied().enumerate() {
            self.compare(Change::Byte(at, 0x00))?;
            self.compare(Change::Byte(at, 0xff))?;
            self.compare(Change::Byte(at, byte.wrapping_add(1)))?;
        }
        Ok(())
    }

    /// Makes one change, and prints the name of each answer that is not as it should be.
    fn compare(&mut self, change: Change) -> io::Result<()> {
        let capture = change.of(self.alloc, self.file)?;
        let answers = Answers::to(self.rt, self.alloc, capture.as_slice())?;
        self.captures = self.captures.saturating_add(1);
        if answers.is_report() {
            self.reports = self.reports.saturating_add(1);
        }
        for answer in answers.wrong(self.alloc, self.due)? {
            writeln!(self.out, "differs {change}: {answer}")?;
        }
        Ok(())
    }

    fn print_counts(&mut self) -> io::Result<()> {
        let captures = self.captures;
        let reports = self.reports;
        writeln!(self.out, "captures {captures} reports {reports}")
    }
}
