//! The summary of a list, item by item.

ghost use Rattle.std.specs.Prelude.{IfOk};

use crate::summary::Summary;
use std::alloc::{AllocError, Global};

/// The summary of the items, which are added one by one.
pub fn summary_of<S: Summary>(alloc: Global, items: &[S::Item]) -> Result<S, AllocError>
where
    S::Item: Copy,
    requires { S.fits items.now }
    ensures { IfOk result (λ summary. S.sums summary items.now) }
{
    let mut summary = S::empty(alloc);
    for item in items {
        summary.add(*item)?;
    }
    Ok(summary)
}
