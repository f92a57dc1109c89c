//! A section of the report, and its lines.

ghost use Rattle.std.specs.Prelude.{All, IfOk, OnOk};
ghost use Rattle.std.specs.List.{AllZip};
ghost use Rattle.audit_findings.specs.Findings.{findings_of};
ghost use Rattle.report_text.specs.Pushed.{TakesLines, TakesRows};

use crate::line::Row;
use crate::lines::{Lines, push_all};
use audit_findings::Findings;
use rayon::prelude::*;
use std::alloc::{AllocError, Global};
use std::thread::Threads;

/// How many rows are held at a time, at most, while a text is made.
const AT_ONCE: usize = 4_096;

/// A section: its head, and a line for each of its rows.
pub(crate) trait Section {
    ghost use Rattle.std.specs.Prelude.{◌≡◌, ◌∷◌, ℕ, List, All, length};
    ghost use Rattle.std.specs.List.{AllZip};
    ghost use Rattle.capture_frame.specs.Envelope.{PlacedFrame};
    ghost use Rattle.audit_findings.specs.declared.findings.Sections.{Sections};
    ghost use Rattle.event_core.specs.Events.{EventRead};
    ghost use Rattle.audit_findings.specs.Findings.{findings_of};

    /// What the findings keep of a row.
    type Kept: Sync;

    /// Its lines, from findings.
    ghost lines: { Sections EventRead → List (List ℕ) };

    /// Its head, from findings and from how many rows it has.
    ghost head_of: { Sections EventRead → ℕ → List ℕ };

    /// The row can be read again from the frames.
    ghost can_show: { List PlacedFrame → Self.Kept → Type 0 };

    /// The line is that of the row.
    ghost shows: { List PlacedFrame → Self.Kept → List ℕ → Type 0 };

    /// The head, without its line feed.
    fn head(&self, found: &Findings<'_>, rows: usize) -> Row
        ensures { result.bytes ≡ head_of (findings_of found.now) rows };

    /// What is kept of the rows.
    fn rows<'f>(&self, found: &'f Findings<'_>) -> &'f [Self::Kept]
        ensures readable { All (can_show found.now) result.now }
        ensures told { (shown : List (List ℕ)) → AllZip (shows found.now) result.now shown
            → head_of (findings_of found.now) (length result.now) ∷ shown
            ≡ lines (findings_of found.now) };

    /// The line of a row, without its line feed.
    fn line(&self, found: &Findings<'_>, kept: &Self::Kept) -> Row
        requires { can_show found.now kept.now }
        ensures { shows found.now kept.now result.bytes };
}

/// Pushes the lines of a section.
pub(crate) fn push_section<T: Threads + Sync, S: Section + Copy + Send + Sync, L: Lines>(
    rt: &T,
    alloc: Global,
    section: S,
    found: &Findings<'_>,
    lines: &mut L,
) -> Result<(), AllocError>
    ensures { OnOk result
        (TakesLines L.takes (S.lines (findings_of found.now)) lines.old lines.new) }
{
    let rows = section.rows(found);
    lines.push_line(&section.head(found, rows.len()))?;
    push_rows(rt, alloc, section, found, rows, lines)
}

/// Pushes the lines of rows, in their order.
fn push_rows<T: Threads + Sync, S: Section + Copy + Send + Sync, L: Lines>(
    rt: &T,
    alloc: Global,
    section: S,
    found: &Findings<'_>,
    kept: &[S::Kept],
    lines: &mut L,
) -> Result<(), AllocError>
    requires { All (S.can_show found.now) kept.now }
    ensures { OnOk result
        (TakesRows L.takes (S.shows found.now) kept.now lines.old lines.new) }
{
    for some in kept.chunks(AT_ONCE) {
        let rows = rendered(rt, alloc, section, found, some)?;
        push_all(lines, rows.as_slice())?;
    }
    Ok(())
}

/// The lines of rows, in their order. Threads divide the work.
fn rendered<T: Threads + Sync, S: Section + Copy + Send + Sync>(
    rt: &T,
    alloc: Global,
    section: S,
    found: &Findings<'_>,
    kept: &[S::Kept],
) -> Result<Vec<Row>, AllocError>
    requires { All (S.can_show found.now) kept.now }
    ensures { IfOk result
        (λ rows. AllZip (λ k row. S.shows found.now k row.bytes) kept.now rows.items) }
{
    kept.par_iter()
        .map(
            |kept: &S::Kept| -> Row
                requires { S.can_show found.now kept.now }
                ensures { S.shows found.entry.now kept.now result.bytes }
            { section.line(found, kept) },
        )
        .collect(rt, alloc)
}
