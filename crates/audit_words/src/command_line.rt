//! The words of the command line, and what they ask for.
ghost use Rattle.std.specs.Prelude.{◌≡◌, ◌≢◌, ◌≤◌, ◌^◌, ◌↔◌, ℕ, List, OnOk, IfOk, IfSome, IfNone, IsErrOf, codes, false, map, string_bytes};
ghost use Rattle.clap.specs.Words.{Text, app_of, found_of, kind_of, new_app, rows_of, rule_of, subcommand_of};
ghost use Rattle.clap.specs.Words.{subcommand_rows_of, with_subcommand};
ghost use Rattle.clap.specs.declared.builder.command.Command.TheViews.{out-Command as fields_of};
ghost use Rattle.audit_words.specs.CommandLine.{AreTaken, AsksFirstFault, AsksFor, AsksReport, NamesFiles, ReadsNumber};
ghost use Rattle.audit_words.specs.CommandLine.{audit_app, files_rule, first_fault_app, number_rule, report_app};
ghost use Rattle.audit_words.specs.declared.request.Request.{Request};

use crate::request::{Question, Request};
use audit_judge::Piece;
use claim_board::Workers;
use clap::error::ErrorKind;
use clap::{Arg, ArgAction, ArgMatches, Command, Error, value_parser};
use std::alloc::{AllocError, Global};
use streams::{Failure, RunError};

/// The most files that a command line may name.
const MOST_FILES: usize = 256;

/// Why `clap` does not take the words.
#[derive(Clone, Copy)]
pub enum WordsError {
    Memory,
    Usage,
}

impl From<WordsError> for Failure {
    ghost use Rattle.audit_words.specs.Failure.{failure_of};

    ghost from_gives = { λ error failure. failure ≡ failure_of error };

    fn from(error: WordsError) -> Failure {
        match error {
            WordsError::Memory => Failure::Run(RunError::Memory),
            WordsError::Usage => Failure::Usage,
        }
    }
}

// The option `--workers`.
fn workers<'a>(alloc: Global) -> Arg<'a>
    ensures rule { rule_of result ≡ number_rule (codes "workers") 64 (codes "4") }
    ensures local { result.global ≡ false }
{
    Arg::new(alloc, "workers")
        .long("workers")
        .action(ArgAction::Set)
        .value_parser(value_parser!(u64).range(1..=64))
        .default_value("4")
}

// The option `--piece`.
fn piece<'a>(alloc: Global) -> Arg<'a>
    ensures rule { rule_of result ≡ number_rule (codes "piece") 65536 (codes "256") }
    ensures local { result.global ≡ false }
{
    Arg::new(alloc, "piece")
        .long("piece")
        .action(ArgAction::Set)
        .value_parser(value_parser!(u64).range(1..=65_536))
        .default_value("256")
}

// The parts of the capture, in order.
fn files<'a>(alloc: Global) -> Arg<'a>
    ensures rule { rule_of result ≡ files_rule }
    ensures local { result.global ≡ false }
{
    Arg::new(alloc, "files")
        .required(true)
        .action(ArgAction::Append)
        .num_args(1..)
}

// The subcommand `report`. The clause of `Command::subcommand` is about one without global options.
fn report<'a>(alloc: Global) -> Result<Command<'a>, AllocError>
    ensures app { IfOk result (λ made. app_of made ≡ report_app) }
    ensures local { IfOk result (λ made. (fields_of made).has_globals ≡ false) }
{
    Command::new(alloc, "report")
        .arg(workers(alloc))?
        .arg(piece(alloc))?
        .arg(files(alloc))
}

// The subcommand `first-fault`.
fn first_fault<'a>(alloc: Global) -> Result<Command<'a>, AllocError>
    ensures app { IfOk result (λ made. app_of made ≡ first_fault_app) }
    ensures local { IfOk result (λ made. (fields_of made).has_globals ≡ false) }
{
    Command::new(alloc, "first-fault").arg(files(alloc))
}

// The command with its first subcommand.
fn with_report<'a>(alloc: Global) -> Result<Command<'a>, AllocError>
    ensures { IfOk result (λ made.
        app_of made ≡ with_subcommand (new_app (codes "binder_audit")) report_app.top) }
{
    Command::new(alloc, "binder_audit").subcommand(report(alloc)?)
}

// The whole command. Where the second subcommand fails, it is dropped by a call, because it is
// costly to prove that a function drops its fields itself.
fn command<'a>(alloc: Global) -> Result<Command<'a>, AllocError>
    ensures { IfOk result (λ made. app_of made ≡ audit_app) }
{
    let command = with_report(alloc)?;
    match first_fault(alloc) {
        Ok(first_fault) => command.subcommand(first_fault),
        Err(error) => {
            drop(command);
            Err(error)
        }
    }
}

// The option's value as a number.
fn number_of(matches: &ArgMatches<'_>, name: &str) -> Option<u64>
    ensures some { IfSome result (ReadsNumber name.now (rows_of (found_of matches.now))) }
    ensures none { IfNone result
        ((n : ℕ) → ReadsNumber name.now (rows_of (found_of matches.now)) n → 2 ^ 64 ≤ n) }
{
    matches.get_one(name)
}

fn files_of<'m, 'a>(matches: &'m ArgMatches<'a>) -> Option<&'m [&'a str]>
    ensures some { IfSome result (λ files.
        NamesFiles (rows_of (found_of matches.now)) (map (λ file. file.now) files.now)) }
    ensures none { IfNone result
        ((files : List Text) → ¬ NamesFiles (rows_of (found_of matches.now)) files) }
{
    let files = matches.get_strs("files")?;
    if MOST_FILES < files.len() {
        return None;
    }
    Some(files)
}

fn report_of<'m>(matches: &'m ArgMatches<'_>) -> Option<Request<'m>>
    ensures some { IfSome result (AsksReport (rows_of (found_of matches.now))) }
    ensures none { IfNone result
        ((request : Request) → ¬ AsksReport (rows_of (found_of matches.now)) request) }
{
    let workers = Workers::new(number_of(matches, "workers")?)?;
    let piece = Piece::new(number_of(matches, "piece")?)?;
    let files = files_of(matches)?;
    let question = Question::Report { workers, piece };
    Some(Request { question, files })
}

fn first_fault_of<'m>(matches: &'m ArgMatches<'_>) -> Option<Request<'m>>
    ensures some { IfSome result (AsksFirstFault (rows_of (found_of matches.now))) }
    ensures none { IfNone result
        ((request : Request) → ¬ AsksFirstFault (rows_of (found_of matches.now)) request) }
{
    let files = files_of(matches)?;
    let question = Question::FirstFault;
    Some(Request { question, files })
}

/// What the words ask for, given what `clap` has matched in them.
pub fn request_of<'m>(matches: &'m ArgMatches<'_>) -> Option<Request<'m>>
    ensures some { IfSome result (AsksFor (subcommand_rows_of matches.now)) }
    ensures none { IfNone result
        ((request : Request) → ¬ AsksFor (subcommand_rows_of matches.now) request) }
{
    let (name, inner) = matches.subcommand()?;
    if name == "report" {
        return report_of(inner);
    }
    if name == "first-fault" {
        return first_fault_of(inner);
    }
    None
}

fn refusal(error: &Error) -> WordsError
    ensures { (result ≡ WordsError.Usage) ↔ (kind_of error.now ≢ ErrorKind.OutOfMemory) }
{
    match error.kind() {
        ErrorKind::OutOfMemory => WordsError::Memory,
        _ => WordsError::Usage,
    }
}

/// Drops what `clap` has matched. A caller that leaves it to the end of a scope has to prove once
/// more that it is dropped.
pub fn free(matches: ArgMatches<'_>) {
    drop(matches);
}

/// Has `clap` read the words. The first word is the program's own name.
pub fn matches_of<'a>(alloc: Global, words: &'a [String]) -> Result<ArgMatches<'a>, WordsError>
    ensures taken { OnOk result (AreTaken (map string_bytes words.now)) }
    ensures rows { IfOk result (λ matches.
        subcommand_rows_of matches ≡ subcommand_of audit_app (map string_bytes words.now)) }
    ensures usage { IsErrOf result WordsError.Usage → ¬ AreTaken (map string_bytes words.now) }
{
    let Ok(command) = command(alloc) else {
        return Err(WordsError::Memory);
    };
    match command.try_get_matches_from(words) {
        Ok(matches) => Ok(matches),
        Err(error) => Err(refusal(&error)),
    }
}
