//! The section `codes`.

ghost use Rattle.std.specs.Prelude.{◌≡◌, if◌then◌else◌, List, IfOk};
ghost use Rattle.event_core.specs.Events.{EventRead};
ghost use Rattle.audit_findings.specs.CodeCounts.{CountWords};
ghost use Rattle.audit_findings.specs.Codes.{code_rows, code_words, is_opaque_kind};

use crate::code_counts::CodeCounts;
use crate::rows::Rows;
use binder_code::Kind;
use std::alloc::{AllocError, Global};

/// A code word, and how many records have it.
#[derive(Clone, Copy, Debug)]
pub struct CodeRow {
    pub word: u32,
    pub count: u64,
}

/// The rows of the section, from the counts of the records' code words.
pub(crate) fn code_rows(alloc: Global, codes: &CodeCounts) -> Result<Rows<CodeRow>, AllocError>
    ensures { IfOk result (λ rows. (events : List EventRead) →
        CountWords codes.now (code_words events) →
        rows ≡ code_rows (code_words events)) }
{
    let rows = codes.rows(alloc)?;
    Ok(Rows::of(rows))
}

/// 1 for the kind of opaque records, 0 for any other.
pub(crate) fn opaque_count(kind: Kind) -> u64
    ensures { result ≡ (if is_opaque_kind kind then 1 else 0) }
{
    match kind {
        Kind::Opaque => 1,
        _ => 0,
    }
}
