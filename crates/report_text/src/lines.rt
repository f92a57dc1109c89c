//! What takes the lines of a report.

ghost use Rattle.std.specs.Prelude.{OnOk, map};
ghost use Rattle.std.specs.List.{FoldsTo};

use crate::line::Row;
use std::alloc::AllocError;

/// What takes lines, one after another.
pub(crate) trait Lines {
    ghost use Rattle.std.specs.Prelude.{ℕ, List, OnOk};

    /// The second value is the first one with this line added at its end.
    ghost takes: { Self → List ℕ → Self → Type 0 };

    /// Takes a line, which has no line feed.
    fn push_line(&mut self, line: &Row) -> Result<(), AllocError>
        ensures { OnOk result (takes self.old line.now.bytes self.new) };
}

/// Lines as they are; none has more bytes than a row has room for.
impl Lines for Vec<Row> {
    ghost use Rattle.std.specs.Prelude.{◌≡◌, ◌≤◌, ◌++◌, ◌∷◌, [], map, length};

    ghost takes = { λ old line new. (length line ≤ 256) ×
        (map (λ row. row.bytes) new.items ≡ map (λ row. row.bytes) old.items ++ line ∷ []) };

    fn push_line(&mut self, line: &Row) -> Result<(), AllocError> {
        // A row has no room for more.
        prove!(line.len() <= 256);
        self.push(*line)?;
        Ok(())
    }
}

/// The text of lines, each ended by a line feed.
impl Lines for String {
    ghost use Rattle.std.specs.Prelude.{◌≡◌, ◌++◌, string_bytes};
    ghost use Rattle.report_text.specs.Line.{ended};

    ghost takes = { λ old line new. string_bytes new ≡ string_bytes old ++ ended line };

    fn push_line(&mut self, line: &Row) -> Result<(), AllocError> {
        self.push_str(line.as_str())?;
        self.push_str("\n")
    }
}

/// Pushes lines, in their order.
pub(crate) fn push_all<L: Lines>(lines: &mut L, rows: &[Row]) -> Result<(), AllocError>
    ensures { OnOk result (FoldsTo L.takes lines.old (map (λ row. row.bytes) rows.now) lines.new) }
{
    for row in rows {
        lines.push_line(row)?;
    }
    Ok(())
}
