//! Sections whose rows are kept whole.

use crate::line::Row;
use crate::section::Section;
use audit_findings::Findings;

/// A section whose rows are kept whole.
pub(crate) trait WholeSection {
    ghost use Rattle.std.specs.Prelude.{◌≡◌};
    ghost use Rattle.audit_findings.specs.Findings.{findings_of};
    ghost use Rattle.report_text.specs.Section.{SectionText};

    /// A row.
    type Kept: Sync;

    /// The section.
    ghost section: { SectionText Self.Kept };

    /// The head, without its line feed.
    fn head(&self, found: &Findings<'_>, rows: usize) -> Row
        ensures { result.bytes ≡ section.head (findings_of found.now) rows };

    /// The rows.
    fn rows<'f>(&self, found: &'f Findings<'_>) -> &'f [Self::Kept]
        ensures { result.now ≡ section.rows (findings_of found.now) };

    /// The line of a row, without its line feed.
    fn line(&self, row: &Self::Kept) -> Row
        ensures { result.bytes ≡ section.line row.now };
}

/// A `WholeSection`, as a `Section`.
#[derive(Clone, Copy)]
pub(crate) struct OfRows<S>(pub S);

impl<S: WholeSection> Section for OfRows<S> {
    ghost use Rattle.std.specs.Prelude.{◌≡◌, ⊤};
    ghost use Rattle.report_text.specs.Section.{lines_of};

    type Kept = S::Kept;

    ghost lines = { lines_of S.section };

    ghost head_of = { S.section.head };

    ghost can_show = { λ _ _. ⊤ };

    ghost shows = { λ _ row line. line ≡ S.section.line row };

    fn head(&self, found: &Findings<'_>, rows: usize) -> Row {
        self.0.head(found, rows)
    }

    fn rows<'f>(&self, found: &'f Findings<'_>) -> &'f [S::Kept] {
        self.0.rows(found)
    }

    fn line(&self, _found: &Findings<'_>, kept: &S::Kept) -> Row {
        self.0.line(kept)
    }
}
