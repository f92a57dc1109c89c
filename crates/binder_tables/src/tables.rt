//! The rows that the words of a command line ask for.

ghost use Rattle.std.specs.Prelude.{◌≡◌, ◌<◌, ◌^◌, map, vec_len, IfOk};

use crate::words::{Question, Request};
use listing_fields::{FILE_LIMIT, ListingError, push_fault};
use listing_tables::{Ending, list_rows, seek_rows, write_all, write_one};
use std::alloc::Global;
use std::fs::{self, Files};
use std::io::Write;
use streams::{read_parts, write_text};

/// Writes what is asked for, and returns the status that the process ends with.
pub fn answer<T: Files, W: Write, E: Write>(
    rt: &T,
    alloc: Global,
    request: Request<'_>,
    out: &mut W,
    err: &mut E,
) -> Result<u8, ListingError> {
    let Request { question, files } = request;
    match open_files(rt, alloc, files.as_slice()) {
        Ok(readers) => answer_of(rt, alloc, question, readers, out, err),
        Err(error) => {
            drop(question);
            Err(error)
        }
    }
}

/// Opens each of these files, in order. Memory for them all is taken first.
fn open_files<T: Files>(
    rt: &T,
    alloc: Global,
    files: &[&str],
) -> Result<Vec<T::File>, ListingError> {
    let mut opened = Vec::with_capacity(alloc, files.len())?;
    for file in files {
        let reader = open_file(rt, file)?;
        opened.push(reader).map_err(|_| ListingError::Memory)?;
    }
    Ok(opened)
}

/// Opens the file of this name.
fn open_file<T: Files>(rt: &T, name: &str) -> Result<T::File, ListingError> {
    fs::open(rt, name).map_err(|_| ListingError::Open)
}

/// Writes what is asked for of the capture whose parts the readers give.
fn answer_of<T: Files, W: Write, E: Write>(
    rt: &T,
    alloc: Global,
    question: Question<'_>,
    readers: Vec<T::File>,
    out: &mut W,
    err: &mut E,
) -> Result<u8, ListingError> {
    let parts = read_parts(alloc, readers, FILE_LIMIT)?;
    let slices = slices_of(alloc, parts.as_slice())?;
    let parts = slices.as_slice();
    match question {
        Question::One(table) => {
            let ending = write_one(alloc, parts, table, out)?;
            tell_ending(alloc, ending, err)
        }
        Question::All(folder) => {
            let ending = write_all(rt, alloc, parts, folder)?;
            tell_ending(alloc, ending, out)
        }
        Question::Records { objects } => Ok(list_rows(alloc, parts, objects, out)?.0),
        Question::Places {
            sought,
            places,
            objects,
        } => seek_rows(alloc, parts, sought, places, objects, out),
    }
}

/// The slices of the parts.
fn slices_of<'p>(alloc: Global, parts: &'p [Vec<u8>]) -> Result<Vec<&'p [u8]>, ListingError>
    ensures few { IfOk result (λ slices. vec_len slices < 2 ^ 32) }
    ensures same { IfOk result (λ slices.
        map (λ slice. slice.now) slices.items ≡ map (λ part. part.items) parts.now) }
{
    if parts.len() > u32::MAX as usize {
        return Err(ListingError::TooLarge);
    }
    let mut slices = Vec::new(alloc);
    for part in parts {
        slices.push(part.as_slice())?;
    }
    Ok(slices)
}

/// Writes the line of the capture's fault, if it has one, and returns the status.
fn tell_ending<W: Write>(alloc: Global, ending: Ending, out: &mut W) -> Result<u8, ListingError> {
    let Some(found) = ending.fault else {
        return Ok(0);
    };
    let mut text = String::new(alloc);
    push_fault(&mut text, found, ending.parts)?;
    write_text(out, text.as_bytes())?;
    Ok(2)
}
