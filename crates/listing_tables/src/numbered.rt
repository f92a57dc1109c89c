//! Things that are known by their index. A capture has millions of them, so an index takes four
//! bytes, as the place of a record does.

ghost use Rattle.std.specs.Prelude.{◌≡◌, ◌+◌, ◌++◌, ◌∷◌, [], length, slice_get, slice_set, Some};
ghost use Rattle.std.specs.Prelude.{IfOk, IfSome, OnOk};
ghost use Rattle.listing_tables.specs.Numbered.{IsAt, thing_at};

use listing_fields::{ListingError, Outcome};
use std::alloc::Global;

/// Things, each with its index.
#[derive(Drop)]
pub(crate) struct Numbered<T> {
    pub all: Vec<T>,
}

impl<T: Drop> Numbered<T> {
    pub(crate) fn new(alloc: Global) -> Numbered<T>
        ensures { result.all.items ≡ [] }
    {
        Numbered {
            all: Vec::new(alloc),
        }
    }

    /// The index of the thing that comes next.
    pub(crate) fn next(&self) -> Result<u32, ListingError>
        ensures { IfOk result (λ index. index ≡ length self.now.all.items) }
    {
        narrow(self.all.len() as u64)
    }

    /// Takes a thing, and returns its index.
    pub(crate) fn push(&mut self, thing: T) -> Result<u32, ListingError>
        ensures last { OnOk result (self.new.all.items ≡ self.old.all.items ++ thing ∷ []) }
        ensures index { IfOk result (λ index. index ≡ length self.old.all.items) }
    {
        let index = self.next()?;
        self.all.push(thing)?;
        Ok(index)
    }

    /// The thing at this index, as `at` has it, to be changed.
    pub(crate) fn at_mut(&mut self, index: u32) -> Result<&mut T, ListingError> {
        self.all
            .as_mut_slice()
            .get_mut(index as usize)
            .ok_or(ListingError::TooLarge)
    }
}

impl<T: Copy + Drop> Numbered<T> {
    /// The thing at this index. Each index was given by `push`, so there is one; if there were not,
    /// no row would be wrong for it: that would be `TooLarge`.
    pub(crate) fn at(&self, index: u32) -> Result<T, ListingError>
        ensures { IfOk result (λ thing. slice_get self.now.all.items index ≡ Some thing) }
    {
        self.all
            .as_slice()
            .get(index as usize)
            .copied()
            .ok_or(ListingError::TooLarge)
    }

    /// Puts a thing in the place of the one at this index, as `at` has it.
    pub(crate) fn set(&mut self, index: u32, thing: T) -> Outcome
        ensures { OnOk result (self.new.all.items ≡ slice_set self.old.all.items index thing) }
    {
        let at = index as usize;
        if at >= self.all.len() {
            return Err(ListingError::TooLarge);
        }
        self.all[at] = thing;
        Ok(())
    }

    /// The thing at this index, if it is known of an index at all.
    pub(crate) fn find(&self, index: Option<u32>) -> Result<Option<T>, ListingError>
        ensures known { IfOk result (λ found. IfSome found (IsAt self.now.all.items index)) }
        ensures found { IfOk result (λ found. found ≡ thing_at self.now.all.items index) }
    {
        match index {
            Some(index) => Ok(Some(self.at(index)?)),
            None => Ok(None),
        }
    }
}

/// A place or a count in four bytes. The tables are made of captures of at most 1,073,741,824
/// bytes, so each fits; one that did not would be `TooLarge`.
pub(crate) fn narrow(number: u64) -> Result<u32, ListingError>
    ensures { IfOk result (λ narrow. narrow ≡ number) }
{
    match u32::try_from(number) {
        Ok(narrow) => Ok(narrow),
        Err(_) => Err(ListingError::TooLarge),
    }
}

/// A count in one byte, of things of which at most 64 are looked at; one that did not fit would be
/// `TooLarge`.
pub(crate) fn byte_of(count: u32) -> Result<u8, ListingError>
    ensures { IfOk result (λ byte. byte ≡ count) }
{
    match u8::try_from(count) {
        Ok(byte) => Ok(byte),
        Err(_) => Err(ListingError::TooLarge),
    }
}

/// A sum of lengths or of counts in a capture, none of which passes 64 bits; one that did would be
/// `TooLarge`.
pub(crate) fn sum(first: u64, second: u64) -> Result<u64, ListingError>
    ensures { IfOk result (λ sum. sum ≡ first + second) }
{
    first.checked_add(second).ok_or(ListingError::TooLarge)
}

/// How much later a sequence is than an earlier one.
pub(crate) fn difference(later: u64, earlier: u64) -> Result<u64, ListingError>
    ensures { IfOk result (λ difference. difference + earlier ≡ later) }
{
    later.checked_sub(earlier).ok_or(ListingError::TooLarge)
}

/// A count with one more. What is counted has an index each, so the count fits.
pub(crate) fn one_more(count: u32) -> Result<u32, ListingError>
    ensures { IfOk result (λ more. more ≡ count + 1) }
{
    count.checked_add(1).ok_or(ListingError::TooLarge)
}

/// A count with one fewer, of things of which one was counted before.
pub(crate) fn one_fewer(count: u32) -> Result<u32, ListingError>
    ensures { IfOk result (λ fewer. fewer + 1 ≡ count) }
{
    count.checked_sub(1).ok_or(ListingError::TooLarge)
}
