//! Lists, one after another.

ghost use Rattle.std.specs.Prelude.{◌≡◌, IfOk};
ghost use Rattle.std.specs.List.{flat_map};

use std::alloc::{AllocError, Global};

/// The elements of each of these lists in turn.
pub(crate) fn joined<T: Copy>(alloc: Global, lists: &[Vec<T>]) -> Result<Vec<T>, AllocError>
    ensures { IfOk result (λ all. all.items ≡ flat_map (λ list. list.items) lists.now) }
{
    let mut all = Vec::new(alloc);
    for list in lists {
        all.extend_from_slice(list.as_slice())?;
    }
    Ok(all)
}
