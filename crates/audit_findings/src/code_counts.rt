//! The counts of code words, while they are made.

ghost use Rattle.std.specs.Prelude.{◌≡◌, ℕ, ◌+◌, ◌<◌, ◌^◌, ◌++◌, ◌∷◌, List, [], map, filter, slice_index, IfOk, OnOk};
ghost use Rattle.binder_code.specs.Commands.{kind_of, protocol_of_word};
ghost use Rattle.summary_law.specs.Fits.{IsShort};
ghost use Rattle.summary_law.specs.Summary.{CanAdd, Adds, CanJoin, Joins};
ghost use Rattle.audit_findings.specs.CodeCounts.{CountWords, CountListed, has_records, listed_rows, row_of};
ghost use Rattle.audit_findings.specs.Codes.{code_rows};
ghost use Rattle.audit_findings.specs.RecordCounts.{times};

use crate::codes::CodeRow;
use binder_code::{Code, Kind, Line};
use std::alloc::{AllocError, Global};
use summary_law::{Summary, Tally};

/// How often each code word came. Most records are of listed kinds, and a listed kind has one code
/// word, so these are counted by kind.
#[derive(Drop)]
pub(crate) struct CodeCounts {
    /// How many records have the code word of each of the header's lines, in the order of the
    /// lines.
    listed: [u64; LISTED],
    /// The code words of opaque records, each with weight 0.
    opaque: Tally<u32>,
}

/// How many kinds the header lists.
const LISTED: usize = Kind::Opaque as usize;

impl CodeCounts {
    pub fn empty(alloc: Global) -> Self
        ensures { CountWords result [] }
    {
        CodeCounts {
            listed: [0; LISTED],
            opaque: Tally::empty(alloc),
        }
    }

    /// Counts the code word of a record of this kind. After an error the counts may only be
    /// dropped.
    pub fn add(&mut self, kind: Kind, code: Code) -> Result<(), AllocError>
        requires meant { kind_of (protocol_of_word code.0) code.0 ≡ Ok kind }
        requires few { CanAdd CountWords IsShort self.old code.0 }
        ensures { OnOk result (Adds CountWords IsShort self.old code.0 self.new) }
    {
        match kind {
            Kind::Opaque => self.opaque.add((code.0, 0)),
            _ => {
                self.listed[kind.place()] += 1;
                Ok(())
            }
        }
    }

    /// The counts of these records and of the later ones.
    pub fn join(self, later: CodeCounts) -> Result<CodeCounts, AllocError>
        requires { CanJoin CountWords IsShort self later }
        ensures { IfOk result (Joins CountWords IsShort self later) }
    {
        let mut listed = self.listed;
        add_all(&mut listed, &later.listed);
        let opaque = self.opaque.join(later.opaque)?;
        Ok(CodeCounts { listed, opaque })
    }

    /// How many of the records are of the listed kind.
    pub fn count(&self, kind: Kind) -> u64
        ensures { (words : List ℕ) → CountWords self.now words → result ≡ times kind words }
    {
        self.listed.get(kind.place()).copied().unwrap_or(0)
    }

    /// The rows of all words, rising.
    pub fn rows(&self, alloc: Global) -> Result<Vec<CodeRow>, AllocError>
        ensures { IfOk result (λ rows. (words : List ℕ) → CountWords self.now words →
            rows.items ≡ code_rows words) }
    {
        let tallied = self.opaque.rows()?;
        let mut rows = Vec::new(alloc);
        push_listed(&mut rows, &self.listed)?;
        push_opaque(&mut rows, tallied.as_slice())?;
        rows.sort_unstable_by_key(|row| row.word);
        Ok(rows)
    }
}

/// Adds each of the later counts to the count at its place.
fn add_all(counts: &mut [u64; LISTED], later: &[u64; LISTED])
    requires few { (k : ℕ) → slice_index counts.old k + slice_index later.now k < 2 ^ 64 }
    ensures { (k : ℕ) → slice_index counts.new k
        ≡ slice_index counts.old k + slice_index later.now k }
{
    for (place, more) in later.iter().enumerate() {
        counts[place] += *more;
    }
}

/// Pushes a row for each line of the header whose code word came.
fn push_listed(rows: &mut Vec<CodeRow>, counts: &[u64; LISTED]) -> Result<(), AllocError>
    ensures { OnOk result ((words : List ℕ) → CountListed counts.now words →
        rows.new.items ≡ rows.old.items ++ listed_rows words) }
{
    for (place, line) in Line::all().iter().enumerate() {
        let row = CodeRow {
            word: line.word,
            count: counts[place],
        };
        push_counted(rows, row)?;
    }
    Ok(())
}

/// Pushes the row if it counts any record.
fn push_counted(rows: &mut Vec<CodeRow>, row: CodeRow) -> Result<(), AllocError>
    ensures { OnOk result (rows.new.items ≡ rows.old.items ++ filter has_records (row ∷ [])) }
{
    if row.count > 0 {
        rows.push(row)?;
    }
    Ok(())
}

/// Pushes a row for each row of a tally: its key and its count.
fn push_opaque(rows: &mut Vec<CodeRow>, tallied: &[(u32, u64, u128)]) -> Result<(), AllocError>
    ensures { OnOk result (rows.new.items ≡ rows.old.items ++ map row_of tallied.now) }
{
    for (word, count, _) in tallied {
        rows.push(CodeRow {
            word: *word,
            count: *count,
        })?;
    }
    Ok(())
}
