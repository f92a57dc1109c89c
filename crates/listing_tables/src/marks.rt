//! Which messages may belong to each other, as a walk finds it.

ghost use Rattle.std.specs.Prelude.{◌≡◌, IfOk, OnOk};
ghost use Rattle.std.specs.Bool.{OnTrue};
ghost use Rattle.listing_tables.specs.Certainty.{IsUnmarked};
ghost use Rattle.listing_tables.specs.Pairing.{MarksAlso, MarksEach, NotesGuess};

use crate::fitting::Fit;
use crate::numbered::Numbered;
use listing_fields::{ListingError, Outcome};

/// Of a send: the delivery that may be its own, and the one that took it by guess. Of a delivery:
/// the send that must have come by it.
#[derive(Clone, Copy)]
pub(crate) struct Mark {
    pub other: Marked,
    pub guess: Option<u32>,
}

/// The messages by which one is marked: none, the one at this index, or several.
#[derive(Clone, Copy)]
pub(crate) enum Marked {
    Unmarked,
    By(u32),
    Several,
}

impl Marked {
    ghost use Rattle.listing_tables.specs.Learning.{marked_also};

    /// Marked by this message too.
    pub(crate) fn and(self, index: u32) -> Marked
        ensures { result ≡ marked_also self index }
    {
        match self {
            Marked::Unmarked => Marked::By(index),
            Marked::By(_) | Marked::Several => Marked::Several,
        }
    }
}

/// The mark of each message when a walk begins.
pub(crate) const UNMARKED: Mark = Mark {
    other: Marked::Unmarked,
    guess: None,
};

/// Whether no delivery so far may be that of the send at this index.
pub(crate) fn is_unmarked(marks: &Numbered<Mark>, index: u32) -> Result<bool, ListingError>
    ensures { IfOk result (λ unmarked. OnTrue unmarked (IsUnmarked marks.now.all.items index)) }
{
    Ok(matches!(marks.at(index)?.other, Marked::Unmarked))
}

/// Marks each of these sends by a delivery.
pub(crate) fn mark_each(marks: &mut Numbered<Mark>, fits: &[Fit], delivery: u32) -> Outcome
    ensures { OnOk result (MarksEach marks.old.all.items marks.new.all.items fits.now delivery) }
{
    for fit in fits {
        mark_also(marks, fit.listed.index, delivery)?;
    }
    Ok(())
}

/// Marks the message at an index by another one.
pub(crate) fn mark_also(marks: &mut Numbered<Mark>, index: u32, by: u32) -> Outcome
    ensures { OnOk result (MarksAlso marks.old.all.items marks.new.all.items index by) }
{
    let mark = marks.at(index)?;
    let other = mark.other.and(by);
    marks.set(index, Mark { other, ..mark })
}

/// Notes of the send at an index that a delivery took it by guess.
pub(crate) fn note_guess(marks: &mut Numbered<Mark>, index: u32, delivery: u32) -> Outcome
    ensures { OnOk result (NotesGuess marks.old.all.items marks.new.all.items index delivery) }
{
    let mark = marks.at(index)?;
    let guess = Some(delivery);
    marks.set(index, Mark { guess, ..mark })
}
