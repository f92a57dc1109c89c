//! The summary of a list, in either of two ways.

ghost use Rattle.std.specs.Prelude.{IfOk};

use std::alloc::{AllocError, Global};
use summary_law::{Summary, summary_of};

/// How a list is summed.
#[derive(Clone, Copy)]
pub enum Way {
    /// Item by item.
    Add,
    /// Each half item by item, and then both are joined.
    Join,
}

/// The summary of the items.
pub fn summed<S: Summary>(alloc: Global, items: &[S::Item], way: Way) -> Result<S, AllocError>
where
    S::Item: Copy,
    requires { S.fits items.now }
    ensures { IfOk result (λ summary. S.sums summary items.now) }
{
    match way {
        Way::Add => summary_of(alloc, items),
        Way::Join => {
            let (front, back) = items.split_at(items.len() / 2);
            let earlier: S = summary_of(alloc, front)?;
            let later: S = summary_of(alloc, back)?;
            earlier.join(later)
        }
    }
}
