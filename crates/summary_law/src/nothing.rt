//! A summary that keeps nothing.

ghost use Rattle.std.specs.Prelude.{List, ⊤};

use crate::summary::Summary;
use std::alloc::{AllocError, Global};

/// Keeps nothing of its items. A map of it keeps the keys alone.
#[derive(Drop)]
pub struct Nothing;

impl Summary for Nothing {
    type Item = ();

    ghost fits = { λ items. ⊤ };

    ghost sums = { λ v items. ⊤ };

    fn empty(_alloc: Global) -> Nothing {
        Nothing
    }

    fn add(&mut self, _item: ()) -> Result<(), AllocError> {
        Ok(())
    }

    fn join(self, _later: Nothing) -> Result<Nothing, AllocError> {
        Ok(Nothing)
    }

    ghost fits_halves = { λ first second fits. (tt, tt) };
}
