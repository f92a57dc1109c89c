//! A reader and a writer of one byte a call, which can fail and count their calls.

ghost use Rattle.std.specs.Prelude.{◌≤◌, length};

use std::io;
use std::io::{ErrorKind, Read, Write};

/// A reader that gives its bytes and then letters, one a read, and can fail at one read.
#[derive(Drop)]
pub(crate) struct Drip<'a> {
    rest: &'a [u8],
    /// How many letters are left.
    letters: u64,
    /// The number of the read that fails, from 1; 0 for none.
    fails_at: u64,
    kind: ErrorKind,
    pub(crate) reads: u64,
}

impl<'a> Drip<'a> {
    pub(crate) fn new(bytes: &'a [u8]) -> Drip<'a> {
        Drip::failing(bytes, 0, ErrorKind::Other)
    }

    /// Fails at this read.
    pub(crate) fn failing(bytes: &'a [u8], fails_at: u64, kind: ErrorKind) -> Drip<'a> {
        Drip {
            rest: bytes,
            letters: 0,
            fails_at,
            kind,
            reads: 0,
        }
    }

    /// Gives so many letters, and fails at this read.
    pub(crate) fn of_letters(letters: u64, fails_at: u64, kind: ErrorKind) -> Drip<'static> {
        Drip {
            letters,
            ..Drip::failing(b"", fails_at, kind)
        }
    }
}

impl<'a> Drip<'a> {
    // Puts a letter into the buffer if one is left, and says how many it put.
    fn letter_into(&mut self, buf: &mut [u8]) -> usize
        requires { 1 ≤ length buf.old }
        ensures { result ≤ 1 }
    {
        if self.letters == 0 {
            return 0;
        }
        self.letters -= 1;
        buf[0] = b'x';
        1
    }
}

impl<'a> Read for Drip<'a> {
    fn read(&mut self, buf: &mut [u8]) -> io::Result<usize> {
        self.reads = self.reads.saturating_add(1);
        if self.reads == self.fails_at {
            return Err(io::Error::from(self.kind));
        }
        if buf.is_empty() {
            return Ok(0);
        }
        match self.rest.split_first() {
            Some((first, rest)) => {
                buf[0] = *first;
                self.rest = rest;
                Ok(1)
            }
            None => Ok(self.letter_into(buf)),
        }
    }
}

/// A writer that takes one byte a write, and can fail at one write, or at each flush.
#[derive(Drop)]
pub(crate) struct Sink<'a> {
    due: &'a [u8],
    /// How many of the bytes that are due were taken, in order.
    pub(crate) taken: usize,
    /// The number of the write that fails, from 1; 0 for none.
    fails_at: u64,
    /// The error of that write. If there is none, that write takes no byte.
    fault: Option<ErrorKind>,
    flush_fault: Option<ErrorKind>,
    pub(crate) writes: u64,
    pub(crate) flushes: u64,
}

impl<'a> Sink<'a> {
    pub(crate) fn new(due: &'a [u8]) -> Sink<'a> {
        Sink::failing(due, 0, None)
    }

    /// Fails at this write.
    pub(crate) fn failing(due: &'a [u8], fails_at: u64, fault: Option<ErrorKind>) -> Sink<'a> {
        Sink {
            due,
            taken: 0,
            fails_at,
            fault,
            flush_fault: None,
            writes: 0,
            flushes: 0,
        }
    }

    /// Takes all, and fails at each flush.
    pub(crate) fn unflushed(due: &'a [u8], kind: ErrorKind) -> Sink<'a> {
        Sink {
            flush_fault: Some(kind),
            ..Sink::new(due)
        }
    }
}

impl<'a> Write for Sink<'a> {
    fn write(&mut self, buf: &[u8]) -> io::Result<usize> {
        self.writes = self.writes.saturating_add(1);
        if self.writes == self.fails_at {
            return match self.fault {
                Some(kind) => Err(io::Error::from(kind)),
                None => Ok(0),
            };
        }
        if buf.is_empty() {
            return Ok(0);
        }
        if self.due.get(self.taken) == Some(&buf[0]) {
            self.taken = self.taken.saturating_add(1);
        }
        Ok(1)
    }

    fn flush(&mut self) -> io::Result<()> {
        self.flushes = self.flushes.saturating_add(1);
        match self.flush_fault {
            Some(kind) => Err(io::Error::from(kind)),
            None => Ok(()),
        }
    }
}
