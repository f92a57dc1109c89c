//! Whether a list of items without places can be summed.

ghost use Rattle.std.specs.Bool.{OnTrue};
ghost use Rattle.summary_law.specs.Fits.{IsShort};

/// The most items that a list may have if it is to be summed.
const MOST_ITEMS: usize = 4_294_967_296;

/// Whether there are at most 2^32 items.
pub(crate) fn is_short<T: Copy>(items: &[T]) -> bool
    ensures { OnTrue result (IsShort items.now) }
{
    items.len() <= MOST_ITEMS
}
