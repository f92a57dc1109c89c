//! A value that summarises a list of items.

ghost use Rattle.std.specs.Prelude.{List, [], IfOk, OnOk};
ghost use Rattle.summary_law.specs.Summary.{CanAdd, Adds, CanJoin, Joins, FitsInHalves};

use std::alloc::{AllocError, Global};

/// A value that summarises a list of items. Items are added at the end. The summaries of two lists
/// are joined to the summary of the one followed by the other. A value does not say which list it
/// summarises: what it gives is true of every list that it sums.
pub trait Summary: Drop {
    /// What is summarised.
    type Item;

    /// The lists that can be summarised: they have few enough items (`IsShort`), and if items have
    /// places, the places rise (`IsPlaced`). In a clause the numbers of an item have no width:
    /// what needs the width of a field that is added up keeps it in `sums`, as `IsAmount` does.
    ghost fits: { List Self.Item → Type 0 };

    /// The value is a summary of the list. An implementation names a definition of its `specs/`,
    /// since the crates above need it in their invariants. It may include that the list fits.
    ghost sums: { Self → List Self.Item → Type 0 };

    /// The summary of no item.
    fn empty(alloc: Global) -> Self
        ensures { sums result [] };

    /// Adds an item after those that are summarised. After an error nothing is said of the value:
    /// drop it.
    fn add(&mut self, item: Self::Item) -> Result<(), AllocError>
        requires { CanAdd sums fits self.old item }
        ensures { OnOk result (Adds sums fits self.old item self.new) };

    /// Joins the summary of the items that come after the items of this one. An error gives up both
    /// values.
    fn join(self, later: Self) -> Result<Self, AllocError>
        requires { CanJoin sums fits self later }
        ensures { IfOk result (Joins sums fits self later) };

    /// Both halves of a list that can be summarised can be summarised: `short_halves`,
    /// `placed_halves`, `all_halves` or `each_fits_halves`. A proof of your own must be in
    /// `specs/`, since the proof of a law can't cite `proofs/`.
    ghost fits_halves: { FitsInHalves fits };
}
