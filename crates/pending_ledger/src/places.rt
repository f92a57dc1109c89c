//! A list of places that keeps its first place in the value itself.

ghost use Rattle.std.specs.Prelude.{◌≡◌, [], ◌∷◌, ◌++◌, IfOk, OnOk};

use std::alloc::{AllocError, Global};
use std::marker::Model;

/// Places in order. A list of one allocates nothing: most keys have one open at a time.
#[derive(Drop)]
pub struct Places {
    first: Option<u64>,
    // Those after the first.
    others: Vec<u64>,
}

impl Model for Places {
    ghost use Rattle.std.specs.Prelude.{◌≡◌, ℕ, List, [], ◌++◌, IfNone, option_to_list};

    ghost Value = { List ℕ };

    ghost view = { λ places. option_to_list places.first ++ places.others.items };

    ghost invariant = { λ places. IfNone places.first (places.others.items ≡ []) };
}

impl Places {
    /// No place.
    pub fn new(alloc: Global) -> Places
        ensures { result ≡ [] }
    {
        Places {
            first: None,
            others: Vec::new(alloc),
        }
    }

    /// Where its memory comes from.
    pub fn allocator(&self) -> Global {
        *self.others.allocator()
    }

    /// Appends a place.
    pub fn push(&mut self, place: u64) -> Result<(), AllocError>
        ensures { OnOk result (self.new ≡ self.old ++ place ∷ []) }
    {
        match self.first {
            Some(_) => self.others.push(place)?,
            None => self.first = Some(place),
        }
        Ok(())
    }

    /// Appends the places to `list`.
    pub fn push_to(&self, list: &mut Vec<u64>) -> Result<(), AllocError>
        ensures { OnOk result (list.new.items ≡ list.old.items ++ self.now) }
    {
        if let Some(first) = self.first {
            list.push(first)?;
        }
        list.extend_from_slice(self.others.as_slice())
    }

    /// The places followed by the later ones.
    pub fn join(self, later: Places) -> Result<Places, AllocError>
        ensures { IfOk result (λ joined. joined ≡ self ++ later) }
    {
        let mut joined = self;
        if joined.first.is_none() {
            return Ok(later);
        }
        later.push_to(&mut joined.others)?;
        Ok(joined)
    }
}
