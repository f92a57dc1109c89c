//! A summary for each key of a list of pairs, in the order in which the keys first come.

ghost use Rattle.std.specs.Prelude.{◌≡◌, None, OnOk};
ghost use Rattle.std.specs.Map.{lookup};
ghost use Rattle.std.specs.Option.{is_some, unwrap_or};
ghost use Rattle.indexmap.specs.IndexMap.{index_of, IsUnique};
ghost use Rattle.summary_law.specs.ByKey.{EachFits, each_fits_halves};
ghost use Rattle.summary_law.specs.InOrder.{SumsInOrder};
ghost use Rattle.summary_law.specs.Summary.{CanAdd, Adds};

use crate::summary::Summary;
use indexmap::IndexMap;
use std::alloc::{AllocError, Global};
use std::hash::Hash;
use std::mem;

/// A summary of the items of each key, the keys in the order of their first items.
#[derive(Drop)]
pub struct InOrder<K: Eq + Hash + Copy, S: Summary> {
    /// The summaries by key, one for each key that has an item.
    pub entries: IndexMap<K, S>,
    /// A guess at the index of the next item's entry: that of the latest item, until a caller who
    /// knows better sets it. A wrong guess costs a look-up, and changes no answer.
    pub guess: usize,
    alloc: Global,
}

impl<K: Eq + Hash + Copy, S: Summary> InOrder<K, S> {
    // The index of the key's entry. If the guess is right, nothing is looked up.
    fn index_of(&self, key: K, guess: usize) -> Option<usize>
        ensures index { result ≡ index_of K.eq self.now.entries key }
        ensures unique { IsUnique K.eq self.now.entries }
    {
        match self.entries.as_slice().get_index(guess) {
            Some((there, _part)) if *there == key => Some(guess),
            _ => self.entries.get_index_of(&key),
        }
    }

    /// Adds the first item of a key.
    // Apart from `add`, whose every call would otherwise clear room for an empty summary.
    #[cold]
    #[inline(never)]
    fn add_first(&mut self, key: K, inner: S::Item) -> Result<(), AllocError>
        requires missing { index_of K.eq self.old.entries key ≡ None }
        requires fits { CanAdd (λ v items. SumsInOrder K.eq S.sums v.entries.entries items)
            (EachFits K.eq S.fits) self.old (key, inner) }
        ensures { OnOk result (Adds (λ v items. SumsInOrder K.eq S.sums v.entries.entries items)
            (EachFits K.eq S.fits) self.old (key, inner) self.new) }
    {
        let mut part = S::empty(self.alloc);
        part.add(inner)?;
        let (index, _) = self.entries.insert_full(key, part)?;
        self.guess = index;
        Ok(())
    }

    /// Whether the key has items. If so, an `add` of the same key that comes next takes no look-up.
    pub fn has(&mut self, key: K) -> bool
        ensures has { result ≡ is_some (lookup (K.eq key) self.old.entries.entries) }
        ensures same { self.new.entries ≡ self.old.entries }
    {
        match self.index_of(key, self.guess) {
            Some(index) => {
                self.guess = index;
                true
            }
            None => false,
        }
    }

    /// The summary of the key's items, or `none` if it has none. If `guess` is the index of the
    /// key's entry, nothing is looked up. The guess becomes the index after that entry, so keys in
    /// the order of the entries take no look-up.
    pub fn own_or<'a>(&'a self, key: K, none: &'a S, guess: &mut usize) -> &'a S
        ensures { result.now ≡ unwrap_or (lookup (K.eq key) self.now.entries.entries) none.now }
    {
        match self.index_of(key, *guess) {
            Some(index) => {
                *guess = index.saturating_add(1);
                &self.entries[index]
            }
            None => none,
        }
    }
}

/// An `add` takes no look-up if `guess` is the index of the key's entry, so also if the `add` before
/// it had the same key, or if `has` was just asked of that key; otherwise it takes at most two. A
/// `join` takes at most two for each key of the later value.
impl<K: Eq + Hash + Copy, S: Summary> Summary for InOrder<K, S> {
    type Item = (K, S::Item);

    ghost fits = { EachFits K.eq S.fits };

    ghost sums = { λ v items. SumsInOrder K.eq S.sums v.entries.entries items };

    fn empty(alloc: Global) -> InOrder<K, S> {
        InOrder {
            entries: IndexMap::new(alloc),
            guess: 0,
            alloc,
        }
    }

    fn add(&mut self, item: (K, S::Item)) -> Result<(), AllocError> {
        let (key, inner) = item;
        match self.index_of(key, self.guess) {
            Some(index) => {
                self.guess = index;
                self.entries[index].add(inner)
            }
            None => self.add_first(key, inner),
        }
    }

    fn join(self, later: InOrder<K, S>) -> Result<InOrder<K, S>, AllocError> {
        let mut joined = self;
        let alloc = joined.alloc;
        let InOrder { entries, .. } = later;
        for (key, part) in entries {
            match joined.entries.get_mut(&key) {
                Some(slot) => {
                    let mine = mem::replace(slot, S::empty(alloc));
                    *slot = mine.join(part)?;
                }
                None => {
                    joined.entries.insert(key, part)?;
                }
            }
        }
        Ok(joined)
    }

    ghost fits_halves = { each_fits_halves K.eq S.fits S.fits_halves };
}
