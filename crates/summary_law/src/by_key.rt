//! A summary for each key of a list of pairs.

ghost use Rattle.std.specs.Prelude.{◌≡◌, ◌+◌, ◌≤◌, None, OnOk, length, vec_capacity};
ghost use Rattle.std.specs.BTreeMap.{IsOrdered, get};
ghost use Rattle.std.specs.Iterator.{at_most};
ghost use Rattle.std.specs.Map.Iter.{TakesFirst, deref_pair};
ghost use Rattle.std.specs.Option.{option_copied};
ghost use Rattle.std.specs.Ordering.{eq_by_cmp};
ghost use Rattle.summary_law.specs.ByKey.{SumsByKey, EachFits, each_fits_halves};
ghost use Rattle.summary_law.specs.Places.{IsIndex, IsPut, CanMerge, Merges};
ghost use Rattle.summary_law.specs.Summary.{CanAdd, Adds};

use crate::guesses::Guesses;
use crate::summary::Summary;
use std::alloc::{AllocError, Global};
use std::collections::{BTreeMap, btree_map};
use std::hash::Hash;
use std::marker::Model;
use std::mem;

/// A summary of the items of each key.
#[derive(Drop)]
pub struct ByKey<K: Ord + Copy + Hash, S: Summary> {
    /// Where the part of each key is.
    index: BTreeMap<K, usize>,
    /// Each key with its summary, in the order of the keys' first items.
    parts: Vec<(K, S)>,
    guesses: Guesses,
    alloc: Global,
}

impl<K: Ord + Copy + Hash, S: Summary> Model for ByKey<K, S> {
    ghost use Rattle.std.specs.BTreeMap.{BTreeMap as Map};
    ghost use Rattle.std_collections.specs.Layout.BTreeMap.{btree_map_code};
    ghost use Rattle.summary_law.specs.Places.{IsIndex, part_map};

    ghost Value = { Map K S };

    ghost coded = { btree_map_code K.code S.code };

    ghost view = { λ m. part_map m.index m.parts.items };

    ghost invariant = { λ m. IsIndex K.cmp m.index m.parts.items };
}

impl<K: Ord + Copy + Hash, S: Summary> ByKey<K, S> {
    /// Where its memory comes from.
    pub fn allocator(&self) -> Global {
        self.alloc
    }

    /// The summary of the key's items, or `None` if it has none.
    pub fn get(&self, key: K) -> Option<&S>
        ensures { option_copied result ≡ get K.cmp self.now key }
    {
        match self.index.get(&key) {
            Some(place) => Some(&self.parts[*place].1),
            None => None,
        }
    }

    /// Adds the first item of a key.
    // Apart from `add`, whose every call would otherwise clear room for an empty summary.
    #[cold]
    #[inline(never)]
    fn add_first(&mut self, key: K, inner: S::Item) -> Result<(), AllocError>
        requires missing { get K.cmp self.old key ≡ None }
        requires fits { CanAdd (SumsByKey K.cmp S.sums) (EachFits (eq_by_cmp K.cmp) S.fits)
            self.old (key, inner) }
        ensures { OnOk result (Adds (SumsByKey K.cmp S.sums) (EachFits (eq_by_cmp K.cmp) S.fits)
            self.old (key, inner) self.new) }
    {
        let mut part = S::empty(self.alloc);
        part.add(inner)?;
        self.insert(key, part)
    }

    /// Puts in the summary of a key that has none.
    fn insert(&mut self, key: K, part: S) -> Result<(), AllocError>
        requires { get K.cmp self.old key ≡ None }
        ensures { OnOk result (IsPut K.cmp self.old key part self.new) }
    {
        let place = self.parts.len();
        make_room(&mut self.parts)?;
        self.guesses.make_room(self.alloc, self.parts.as_slice())?;
        self.index.insert(key, place)?;
        self.parts.push_reserved((key, part));
        self.guesses.learn(&key, place);
        Ok(())
    }

    /// Joins what comes later of a key.
    fn merge(&mut self, key: K, part: S) -> Result<(), AllocError>
        requires { CanMerge K.cmp S.sums S.fits self.old key part }
        ensures { OnOk result (Merges K.cmp S.sums S.fits self.old key part self.new) }
    {
        let alloc = self.alloc;
        match place_of(&self.index, self.parts.as_slice(), &mut self.guesses, key) {
            Some(place) => {
                let slot = &mut self.parts[place].1;
                let mine = mem::replace(slot, S::empty(alloc));
                *slot = mine.join(part)?;
                Ok(())
            }
            None => self.insert(key, part),
        }
    }
}

/// Makes room for one more. Most lists have one part alone.
fn make_room<T>(parts: &mut Vec<T>) -> Result<(), AllocError>
    ensures items { parts.new.items ≡ parts.old.items }
    ensures room { OnOk result (length parts.new.items + 1 ≤ vec_capacity parts.new) }
{
    if parts.is_empty() {
        parts.reserve_exact(1)
    } else {
        parts.reserve(1)
    }
}

/// The place of the key's part. If the guess is right, nothing is looked up.
#[inline(always)]
fn place_of<K: Ord + Copy + Hash, S>(
    index: &BTreeMap<K, usize>,
    parts: &[(K, S)],
    guesses: &mut Guesses,
    key: K,
) -> Option<usize>
    requires { IsIndex K.cmp index.now parts.now }
    ensures { result ≡ get K.cmp index.now key }
{
    let guess = guesses.at(&key);
    match parts.get(guess) {
        Some((there, _part)) if *there == key => Some(guess),
        _ => looked_up(index, guesses, key),
    }
}

/// The place of a key that was not guessed. The next guess at the key is right.
#[inline(never)]
fn looked_up<K: Ord + Copy + Hash>(
    index: &BTreeMap<K, usize>,
    guesses: &mut Guesses,
    key: K,
) -> Option<usize>
    ensures { result ≡ get K.cmp index.now key }
{
    let place = *index.get(&key)?;
    guesses.learn(&key, place);
    Some(place)
}

/// An `add` takes no look-up if the guess is right, and otherwise at most two. A `join` takes at most
/// two for each key of the later value.
impl<K: Ord + Copy + Hash, S: Summary> Summary for ByKey<K, S> {
    type Item = (K, S::Item);

    ghost fits = { EachFits (eq_by_cmp K.cmp) S.fits };

    ghost sums = { λ v items. SumsByKey K.cmp S.sums v items };

    fn empty(alloc: Global) -> ByKey<K, S> {
        ByKey {
            index: BTreeMap::new(alloc),
            parts: Vec::new(alloc),
            guesses: Guesses::new(alloc),
            alloc,
        }
    }

    fn add(&mut self, item: (K, S::Item)) -> Result<(), AllocError> {
        let (key, inner) = item;
        match place_of(&self.index, self.parts.as_slice(), &mut self.guesses, key) {
            Some(place) => self.parts[place].1.add(inner),
            None => self.add_first(key, inner),
        }
    }

    fn join(self, later: ByKey<K, S>) -> Result<ByKey<K, S>, AllocError> {
        let mut joined = self;
        let ByKey { parts, .. } = later;
        for (key, part) in parts {
            joined.merge(key, part)?;
        }
        Ok(joined)
    }

    ghost fits_halves = { each_fits_halves (eq_by_cmp K.cmp) S.fits S.fits_halves };
}

/// The parts that are left, in rising order of their keys.
#[derive(Drop)]
pub struct Parts<'a, K, S> {
    places: btree_map::Iter<'a, K, usize>,
    parts: &'a [(K, S)],
}

impl<'a, K, S> Model for Parts<'a, K, S> {
    ghost use Rattle.std.specs.Prelude.{List};
    ghost use Rattle.summary_law.specs.Places.{ArePlaces, parts_at};

    ghost Value = { List (K × S) };

    ghost view = { λ a. parts_at a.parts.now a.places };

    ghost invariant = { λ a. ArePlaces a.parts.now a.places };
}

impl<'a, K, S> Iterator for Parts<'a, K, S> {
    type Item = (&'a K, &'a S);

    ghost next_gives = { TakesFirst deref_pair };

    ghost remaining = { λ s. at_most (length s) };

    fn next(&mut self) -> Option<(&'a K, &'a S)> {
        match self.places.next() {
            Some((key, place)) => Some((key, &self.parts[*place].1)),
            None => None,
        }
    }
}

impl<'a, K: Ord + Copy + Hash, S: Summary> IntoIterator for &'a ByKey<K, S> {
    type Item = (&'a K, &'a S);

    type IntoIter = Parts<'a, K, S>;

    ghost into_iter_gives = { λ m r. (r ≡ m.now.entries) × IsOrdered K.cmp m.now };

    fn into_iter(self) -> Parts<'a, K, S> {
        Parts {
            places: self.index.iter(),
            parts: self.parts.as_slice(),
        }
    }
}
