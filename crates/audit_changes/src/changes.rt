//! Changes of a capture.
ghost use Rattle.std.specs.Prelude.{◌≡◌, ◌+◌, ◌++◌, length, take, drop, IfOk};

use std::alloc::Global;
use std::io::ErrorKind;
use std::{fmt, io};

/// One change of a capture.
#[derive(Clone, Copy)]
pub(crate) enum Change {
    /// Only this many bytes are kept, the first ones.
    Cut(usize),
    /// The byte at this place is replaced by this one.
    Byte(usize, u8),
    /// The four bytes from this place on are replaced by this number, the lowest byte first.
    Number(usize, u32),
}

impl Change {
    /// The changed capture. It is an error if the capture ends before the change does.
    pub(crate) fn of(self, alloc: Global, capture: &[u8]) -> io::Result<Vec<u8>> {
        match self {
            Change::Cut(length) => cut(alloc, capture, length),
            Change::Byte(at, value) => replaced(alloc, capture, at, &[value]),
            Change::Number(at, value) => replaced(alloc, capture, at, &value.to_le_bytes()),
        }
    }
}

impl fmt::Display for Change {
    fn fmt<W: fmt::Write>(&self, f: &mut fmt::Formatter<W>) -> fmt::Result {
        match *self {
            Change::Cut(length) => write!(f, "cut at {length}"),
            Change::Byte(at, value) => write!(f, "byte {at} to {value:#04x}"),
            Change::Number(at, value) => write!(f, "number {at} to {value}"),
        }
    }
}

fn past_the_end() -> io::Error {
    io::Error::new(ErrorKind::InvalidInput, "the file has no such place")
}

/// The first bytes of a capture.
fn cut(alloc: Global, capture: &[u8], length: usize) -> io::Result<Vec<u8>>
    ensures { IfOk result (λ kept. kept.items ≡ take length capture.now) }
{
    if capture.len() < length {
        return Err(past_the_end());
    }
    Ok(Vec::from_slice(alloc, &capture[..length])?)
}

/// The capture with as many of its bytes, from this place on, replaced by these bytes.
fn replaced(alloc: Global, capture: &[u8], at: usize, bytes: &[u8]) -> io::Result<Vec<u8>>
    ensures { IfOk result (λ changed. changed.items
        ≡ take at capture.now ++ bytes.now ++ drop (at + length bytes.now) capture.now) }
{
    if capture.len() < at || capture.len() - at < bytes.len() {
        return Err(past_the_end());
    }
    let mut changed = Vec::from_slice(alloc, &capture[..at])?;
    changed.extend_from_slice(bytes)?;
    changed.extend_from_slice(&capture[at + bytes.len()..])?;
    Ok(changed)
}
