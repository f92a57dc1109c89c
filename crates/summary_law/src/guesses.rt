//! Guesses at the places of keys.

use std::alloc::{AllocError, Global};
use std::hash::{BuildHasher, BuildHasherDefault, FoldHasher, Hash};

/// How many keys have a place before the table has slots. The guess is then the first place.
const FEW: usize = 4;

/// A guess at the place of each key, by the key's slot. Keys that share a slot share their guess, so
/// whoever looks there compares the key. The table takes at most 8 bytes for each key.
#[derive(Drop)]
pub struct Guesses {
    slots: Vec<u32>,
}

impl Guesses {
    pub(crate) fn new(alloc: Global) -> Guesses {
        Guesses {
            slots: Vec::new(alloc),
        }
    }

    // The number of slots is a power of two.
    #[inline(always)]
    fn slot_of<K: Hash>(&self, key: &K) -> usize {
        let hasher: BuildHasherDefault<FoldHasher> = BuildHasherDefault::new();
        hasher.hash_one(key) as usize & self.slots.len().wrapping_sub(1)
    }

    /// A guess at the key's place.
    #[inline(always)]
    pub(crate) fn at<K: Hash>(&self, key: &K) -> usize {
        if self.slots.is_empty() {
            return 0;
        }
        match self.slots.as_slice().get(self.slot_of(key)) {
            Some(place) => *place as usize,
            None => 0,
        }
    }

    /// From now on the guess at this key is its place. A place from 2^32 on is not guessed.
    pub(crate) fn learn<K: Hash>(&mut self, key: &K, place: usize) {
        let slot = self.slot_of(key);
        if let Ok(place) = u32::try_from(place) {
            if let Some(guess) = self.slots.as_mut_slice().get_mut(slot) {
                *guess = place;
            }
        }
    }

    /// Makes room for the guess at one more key, after those of these parts.
    pub(crate) fn make_room<K: Hash, S>(
        &mut self,
        alloc: Global,
        parts: &[(K, S)],
    ) -> Result<(), AllocError> {
        if parts.len() < FEW || parts.len() < self.slots.len() {
            return Ok(());
        }
        let many = self.slots.len().saturating_mul(2).max(2 * FEW);
        self.slots = vec![in alloc; 0u32; many]?;
        for (place, (key, _part)) in parts.iter().enumerate() {
            self.learn(key, place);
        }
        Ok(())
    }
}
