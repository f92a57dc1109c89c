//! What the sections `handles` and `nodes` have in common.

ghost use Rattle.std.specs.Prelude.{◌≡◌};
ghost use Rattle.audit_findings.specs.References.{references};

use crate::in_turn::ProcessRow;
use crate::rows::Rows;

/// A section of references: by handle, or by node.
#[derive(Drop)]
pub struct References<R> {
    /// How many rows are unbalanced: strong or weak is not 0, or for a node strong due or weak due.
    pub unbalanced: u64,
    /// The rows of each process in turn, in the order of first frames; within a process the keys
    /// rise.
    pub rows: Rows<ProcessRow<R>>,
}

/// A row that counts the references to one thing.
pub(crate) trait Balance {
    ghost use Rattle.std.specs.Prelude.{◌≡◌, Bool};

    /// Whether the row is unbalanced.
    ghost unbalanced: { Self → Bool };

    fn is_unbalanced(&self) -> bool
        ensures { result ≡ unbalanced self.now };
}

/// The section of these rows.
pub(crate) fn references_of<R: Balance + Drop>(rows: Vec<ProcessRow<R>>) -> References<R>
    ensures { result ≡ references R.unbalanced rows.items }
{
    let unbalanced = rows.iter().filter(|row| row.row.is_unbalanced()).count() as u64;
    References {
        unbalanced,
        rows: Rows::of(rows),
    }
}
