//! The reference that an object carries.

ghost use Rattle.std.specs.Prelude.{◌≡◌};
ghost use Rattle.object_view.specs.Held.{held_of};

use crate::object::Object;
use crate::sort::Sort;
use transaction_view::u32_at;

/// The handle of a HANDLE or a WEAK_HANDLE, and whether it is a WEAK_HANDLE; None for every other
/// object. The buffer that delivers the object holds this reference until it is freed.
pub fn held_step(object: Object<'_>) -> Option<(u32, bool)>
    ensures { result ≡ held_of object.entry.sort object.entry.bytes.now }
{
    match object.sort {
        Sort::Handle => Some((u32_at(object.bytes, 8), false)),
        Sort::WeakHandle => Some((u32_at(object.bytes, 8), true)),
        _ => None,
    }
}
