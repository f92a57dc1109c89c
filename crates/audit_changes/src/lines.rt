//! The lines of standard input.
use std::alloc::{AllocError, Global};

/// What is to be changed of a file.
#[derive(Clone, Copy)]
pub(crate) enum Asked {
    /// The file is cut at each of these lengths.
    Cut { from: usize, to: usize },
    /// A number of 32 bits is replaced.
    Change { at: usize, value: u32 },
    /// The file is cut at every length below its own. Every byte is changed to 0x00, to 0xff, and
    /// to itself plus one, with 0x00 after 0xff.
    Every,
}

/// What a line asks for.
#[derive(Clone, Copy)]
pub(crate) struct Line<'a> {
    pub(crate) file: &'a str,
    pub(crate) asked: Asked,
    /// The answer that is due, if the line has one.
    pub(crate) due: Option<&'a str>,
}

impl<'a> Line<'a> {
    /// Reads a line, whose words are separated by one tab each; `None` if it has another form.
    pub(crate) fn read(alloc: Global, line: &'a str) -> Result<Option<Line<'a>>, AllocError> {
        let words: Vec<&'a str> = line.split('\t').collect(alloc)?;
        Ok(line_of(words.as_slice()))
    }
}

fn line_of<'a>(words: &[&'a str]) -> Option<Line<'a>> {
    match *words {
        ["cut", file, from, to, due] => Some(Line {
            file,
            asked: Asked::Cut {
                from: from.parse().ok()?,
                to: to.parse().ok()?,
            },
            due: Some(due),
        }),
        ["change", file, at, value, due] => Some(Line {
            file,
            asked: Asked::Change {
                at: at.parse().ok()?,
                value: value_of(value)?,
            },
            due: Some(due),
        }),
        ["every", file] => Some(Line {
            file,
            asked: Asked::Every,
            due: None,
        }),
        _ => None,
    }
}

/// A number in decimal digits, or in hexadecimal digits after `0x`.
fn value_of(text: &str) -> Option<u32> {
    match text.strip_prefix("0x") {
        Some(digits) => u32::from_str_radix(digits, 16).ok(),
        None => text.parse().ok(),
    }
}
