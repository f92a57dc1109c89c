//! From the words of a command line to two streams and a status.

use crate::tables::answer;
use crate::words::request_of;
use listing_fields::ListingError;
use std::alloc::{AllocError, Global};
use std::env::Args;
use std::fs::Files;
use std::io::{self, ErrorKind, Write};
use std::process::ExitCode;
use streams::write_text;

/// Does what the words of the process ask for, as the system gave them.
pub fn ended<T: Files, W: Write, E: Write>(
    rt: &T,
    alloc: Global,
    words: io::Result<Args>,
    out: &mut W,
    err: &mut E,
) -> ExitCode {
    match words {
        Ok(words) => ExitCode::from(ended_on(rt, alloc, words, out, err)),
        Err(error) => ExitCode::from(ended_by(words_error(error.kind()), err)),
    }
}

/// The error of a process whose words could not be read.
fn words_error(kind: ErrorKind) -> ListingError {
    match kind {
        ErrorKind::OutOfMemory => ListingError::Memory,
        _ => ListingError::Usage,
    }
}

/// Does what the words ask for, and returns the status that the process ends with.
fn ended_on<T: Files, W: Write, E: Write>(
    rt: &T,
    alloc: Global,
    words: Args,
    out: &mut W,
    err: &mut E,
) -> u8 {
    let answered = match list_of(alloc, words) {
        Ok(words) => answer_words(rt, alloc, words.as_slice(), out, err),
        Err(_) => Err(ListingError::Memory),
    };
    match answered {
        Ok(status) => status,
        Err(error) => ended_by(error, err),
    }
}

/// These words in a list.
fn list_of(alloc: Global, words: Args) -> Result<Vec<String>, AllocError> {
    let mut list = Vec::new(alloc);
    for word in words {
        list.push(word)?;
    }
    Ok(list)
}

fn answer_words<T: Files, W: Write, E: Write>(
    rt: &T,
    alloc: Global,
    words: &[String],
    out: &mut W,
    err: &mut E,
) -> Result<u8, ListingError> {
    answer(rt, alloc, request_of(alloc, words)?, out, err)
}

/// Writes the line of an error, and returns its status, even if the line can't be written.
fn ended_by<E: Write>(error: ListingError, err: &mut E) -> u8 {
    let _ = write_text(err, error.line().as_bytes());
    error.status()
}
