//! The words of the command line, and what they ask for.

use clap::error::ErrorKind;
use clap::{Arg, ArgAction, ArgMatches, Command, Error};
use listing_fields::{ListingError, Table, table_of};
use listing_tables::Sought;
use std::alloc::{AllocError, Global};

/// The options that look for something by its place.
const PLACES: [(&str, Sought); 3] = [
    ("at", Sought::Record),
    ("frame", Sought::Frame),
    ("call", Sought::Call),
];

/// The options without a value.
const FLAGS: [&str; 2] = ["lines", "objects"];

/// What is asked of a capture.
#[derive(Drop)]
pub enum Question<'a> {
    /// One table.
    One(Table),
    /// All tables, into this folder.
    All(&'a str),
    /// All records, as a stream of rows, with their objects or without them.
    Records {
        objects: bool,
    },
    /// What has these places.
    Places {
        sought: Sought,
        places: Vec<u64>,
        objects: bool,
    },
}

/// What is asked, and the names of the files that hold the parts of the capture, in order.
#[derive(Drop)]
pub struct Request<'a> {
    pub question: Question<'a>,
    pub files: Vec<&'a str>,
}

/// What the words ask for. The first one is the program's own name.
pub fn request_of<'a>(alloc: Global, words: &'a [String]) -> Result<Request<'a>, ListingError> {
    let matches = matches_of(alloc, words)?;
    let request = request_in(alloc, &matches);
    drop(matches);
    request
}

// Has `clap` read the words.
fn matches_of<'a>(alloc: Global, words: &'a [String]) -> Result<ArgMatches<'a>, ListingError> {
    let Ok(command) = command(alloc) else {
        return Err(ListingError::Memory);
    };
    match command.try_get_matches_from(words) {
        Ok(matches) => Ok(matches),
        Err(error) => Err(refusal(&error)),
    }
}

fn command<'a>(alloc: Global) -> Result<Command<'a>, AllocError> {
    let mut command = Command::new(alloc, "binder_tables").arg(files(alloc))?;
    for name in FLAGS {
        command = command.arg(flag(alloc, name))?;
    }
    for (name, _) in PLACES {
        command = command.arg(option(alloc, name))?;
    }
    command
        .arg(option(alloc, "table"))?
        .arg(option(alloc, "tables"))
}

// The parts of the capture, in order.
fn files<'a>(alloc: Global) -> Arg<'a> {
    Arg::new(alloc, "files")
        .required(true)
        .action(ArgAction::Append)
        .num_args(1..)
}

fn flag<'a>(alloc: Global, name: &'a str) -> Arg<'a> {
    Arg::new(alloc, name).long(name).action(ArgAction::SetTrue)
}

// An option with a value, which may be repeated.
fn option<'a>(alloc: Global, name: &'a str) -> Arg<'a> {
    Arg::new(alloc, name).long(name).action(ArgAction::Append)
}

fn refusal(error: &Error) -> ListingError {
    match error.kind() {
        ErrorKind::OutOfMemory => ListingError::Memory,
        _ => ListingError::Usage,
    }
}

fn request_in<'a>(alloc: Global, matches: &ArgMatches<'a>) -> Result<Request<'a>, ListingError> {
    let files = files_of(alloc, matches)?;
    let question = question_of(alloc, matches)?;
    Ok(Request { question, files })
}

/// The files that are named.
fn files_of<'a>(alloc: Global, matches: &ArgMatches<'a>) -> Result<Vec<&'a str>, ListingError> {
    let Some(names) = matches.get_strs("files") else {
        return Err(ListingError::Usage);
    };
    let mut files = Vec::new(alloc);
    for name in names {
        files.push(*name)?;
    }
    Ok(files)
}

/// The one question that the words ask.
fn question_of<'a>(alloc: Global, matches: &ArgMatches<'a>) -> Result<Question<'a>, ListingError> {
    if matches.get_flag("lines") {
        if tables_of(matches)?.is_some() {
            return Err(ListingError::Usage);
        }
        return rows_of(alloc, matches);
    }
    if matches.get_flag("objects") || sought_of(matches)?.is_some() {
        return Err(ListingError::Usage);
    }
    tables_of(matches)?.ok_or(ListingError::Usage)
}

/// The tables that the words ask for, if any.
fn tables_of<'a>(matches: &ArgMatches<'a>) -> Result<Option<Question<'a>>, ListingError> {
    match (matches.get_strs("table"), matches.get_strs("tables")) {
        (None, None) => Ok(None),
        (Some([word]), None) => match table_of(word) {
            Some(table) => Ok(Some(Question::One(table))),
            None => Err(ListingError::Usage),
        },
        (None, Some([folder])) => Ok(Some(Question::All(folder))),
        _ => Err(ListingError::Usage),
    }
}

/// The rows that the words ask for.
fn rows_of<'a>(alloc: Global, matches: &ArgMatches<'a>) -> Result<Question<'a>, ListingError> {
    let objects = matches.get_flag("objects");
    let Some((sought, words)) = sought_of(matches)? else {
        return Ok(Question::Records { objects });
    };
    let mut places = Vec::new(alloc);
    for word in words {
        let Ok(place) = u64::from_str_radix(word, 10) else {
            return Err(ListingError::Usage);
        };
        places.push(place)?;
    }
    Ok(Question::Places {
        sought,
        places,
        objects,
    })
}

/// What is looked for, and the words for its places. Only one of the options with places may be there.
fn sought_of<'m, 'a>(
    matches: &'m ArgMatches<'a>,
) -> Result<Option<(Sought, &'m [&'a str])>, ListingError> {
    let mut found = None;
    for (name, sought) in PLACES {
        let Some(words) = matches.get_strs(name) else {
            continue;
        };
        if found.is_some() {
            return Err(ListingError::Usage);
        }
        found = Some((sought, words));
    }
    Ok(found)
}
