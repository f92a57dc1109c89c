//! The sends that a delivery may have come from, while the messages are gone through in order.

ghost use Rattle.std.specs.Prelude.{◌≡◌, ◌≤◌, ◌⊎◌, ◌++◌, ◌+◌, map, false, IsTrue, IfOk, IfSome, OnOk};
ghost use Rattle.std.specs.Bool.{OnTrue};
ghost use Rattle.std.specs.BTreeSet.{contains};
ghost use Rattle.listing_tables.specs.Certainty.{IsListOf};
ghost use Rattle.listing_tables.specs.Doubts.{CountsCame, CountsDoubt, CountsLeaving, CountsLeft};
ghost use Rattle.listing_tables.specs.Waiting.{AllWait, Entry, HasNone, OthersWait, OthersWaitBut};
ghost use Rattle.listing_tables.specs.Waiting.{all_looks, doubt_of, entry_cmp, entry_of, in_doubt};
ghost use Rattle.listing_tables.specs.Waiting.{look_at, sends_in, waits};

use crate::meanings::Meanings;
use crate::messages::{Message, Sent};
use crate::numbered::{narrow, one_fewer, one_more};
use indexmap::IndexMap;
use listing_fields::{ListingError, Outcome};
use std::alloc::Global;
use std::collections::BTreeSet;

/// How many waiting sends are looked at for a delivery.
const LOOKED_AT: usize = 64;

/// Sends by their key, their list, and their index.
type Sends = BTreeSet<(u64, u32, u32)>;

/// A send that waits. Its list is 0, or 1 more than the index of the node to which it is known to
/// go.
#[derive(Clone, Copy)]
pub(crate) struct Listed {
    pub key: u64,
    pub list: u32,
    pub index: u32,
}

/// A send that is looked at, and whether it is taken by guess.
#[derive(Clone, Copy)]
pub(crate) struct Look {
    pub listed: Listed,
    pub guessed: bool,
}

/// Of a key, how many sends are in doubt, and how many of them came at least.
#[derive(Clone, Copy)]
pub(crate) struct Doubt {
    sends: u32,
    came: u32,
}

/// The sends that wait for their delivery.
#[derive(Drop)]
pub(crate) struct Waiting {
    /// Those that no delivery has taken.
    untaken: Sends,
    /// Those that a delivery has taken by guess. Another one may still be theirs.
    guessed: Sends,
    /// Those of which some came, but not which: by key, index and list.
    doubted: Sends,
    doubts: IndexMap<u64, Doubt>,
}

impl Waiting {
    pub(crate) fn new(alloc: Global) -> Waiting
        ensures { HasNone result }
    {
        Waiting {
            untaken: BTreeSet::new(alloc),
            guessed: BTreeSet::new(alloc),
            doubted: BTreeSet::new(alloc),
            doubts: IndexMap::new(alloc),
        }
    }

    /// Begins with none.
    pub(crate) fn clear(&mut self)
        ensures { HasNone self.new }
    {
        self.untaken.clear();
        self.guessed.clear();
        self.doubted.clear();
        self.doubts.clear();
    }

    pub(crate) fn add(&mut self, send: Listed) -> Outcome
        ensures added { OnOk result (IsTrue (waits self.new (entry_of send))) }
        ensures kept { OnOk result (AllWait self.old self.new) }
        ensures doubted { self.new.doubted ≡ self.old.doubted }
        ensures doubts { self.new.doubts ≡ self.old.doubts }
    {
        self.untaken.insert((send.key, send.list, send.index))?;
        Ok(())
    }

    /// Looks at those of this list and of list 0, as long as there is room, and first at those that
    /// no guess has taken. Returns whether these are all.
    pub(crate) fn look(
        &self,
        key: u64,
        list: u32,
        looked: &mut Vec<Look>,
    ) -> Result<bool, ListingError>
        ensures { IfOk result (λ all. OnTrue all (looked.new.items ≡ all_looks self.now key list)) }
    {
        looked.clear();
        let known = look_in(&self.untaken, key, list, false, looked)?;
        let unknown = look_in(&self.untaken, key, 0, false, looked)?;
        let guessed = look_in(&self.guessed, key, list, true, looked)?;
        let doubtful = look_in(&self.guessed, key, 0, true, looked)?;
        Ok(known && unknown && guessed && doubtful)
    }

    fn remove(&mut self, send: Listed)
        ensures waits { (other : Entry) → IsTrue (waits self.old other) →
            IsTrue (waits self.new other) ⊎ (other ≡ entry_of send) }
        ensures doubted { self.new.doubted ≡ self.old.doubted }
        ensures doubts { self.new.doubts ≡ self.old.doubts }
        ensures gone { waits self.new (entry_of send) ≡ false }
        ensures fewer { (other : Entry) → IsTrue (waits self.new other) →
            IsTrue (waits self.old other) }
    {
        let at = (send.key, send.list, send.index);
        self.untaken.remove(&at);
        self.guessed.remove(&at);
    }

    /// Takes out a send whose delivery is found.
    pub(crate) fn take(&mut self, send: Listed) -> Outcome
        ensures others { OnOk result (OthersWaitBut (entry_of send) self.old self.new) }
        ensures gone { OnOk result (waits self.new (entry_of send) ≡ false) }
        ensures counted { OnOk result (CountsLeaving self.old send 0 self.new) }
    {
        self.remove(send);
        self.leave(send, 0)
    }

    /// Takes out a send whose call is closed, so that it can't be delivered any more.
    pub(crate) fn close(&mut self, send: Listed) -> Outcome
        ensures others { OnOk result (OthersWaitBut (entry_of send) self.old self.new) }
        ensures gone { OnOk result (waits self.new (entry_of send) ≡ false) }
        ensures counted { OnOk result (CountsLeaving self.old send 1 self.new) }
    {
        self.remove(send);
        self.leave(send, 1)
    }

    /// Takes a send out of those in doubt. So many of what came may have been it, if any came.
    fn leave(&mut self, send: Listed, came: u32) -> Outcome
        requires { came ≤ 1 }
        ensures others { OnOk result (OthersWait self.old self.new) }
        ensures fewer { OnOk result ((other : Entry) → IsTrue (waits self.new other) →
            IsTrue (waits self.old other)) }
        ensures counted { OnOk result (CountsLeaving self.old send came self.new) }
    {
        if self.doubted.remove(&(send.key, send.index, send.list)) {
            let doubt = self.doubt_of(send.key);
            let left = Doubt {
                sends: one_fewer(doubt.sends)?,
                came: doubt.came.saturating_sub(came),
            };
            self.doubts.insert(send.key, left)?;
        }
        self.forget(send.key);
        Ok(())
    }

    /// A delivery takes a send by guess.
    pub(crate) fn guess(&mut self, send: Listed) -> Outcome
        ensures kept { OnOk result (AllWait self.old self.new) }
        ensures doubted { self.new.doubted ≡ self.old.doubted }
        ensures doubts { self.new.doubts ≡ self.old.doubts }
    {
        let at = (send.key, send.list, send.index);
        if self.untaken.remove(&at) {
            self.guessed.insert(at)?;
        }
        Ok(())
    }

    /// Puts a send among those in doubt.
    pub(crate) fn doubt(&mut self, send: Listed) -> Outcome
        ensures kept { OnOk result (AllWait self.old self.new) }
        ensures counted { OnOk result (CountsDoubt self.old send self.new) }
    {
        let is_new = self.doubted.insert((send.key, send.index, send.list))?;
        if !is_new {
            return Ok(());
        }
        let doubt = self.doubt_of(send.key);
        let sends = one_more(doubt.sends)?;
        self.doubts.insert(send.key, Doubt { sends, ..doubt })?;
        Ok(())
    }

    /// Notes that one of the sends of a key that are in doubt came.
    pub(crate) fn came(&mut self, key: u64) -> Outcome
        ensures others { OnOk result (OthersWait self.old self.new) }
        ensures counted { OnOk result (CountsCame self.old key self.new) }
    {
        let doubt = self.doubt_of(key);
        let came = one_more(doubt.came)?;
        self.doubts.insert(key, Doubt { came, ..doubt })?;
        self.forget(key);
        Ok(())
    }

    fn doubt_of(&self, key: u64) -> Doubt
        ensures { result ≡ doubt_of self.now key }
    {
        match self.doubts.get(&key) {
            Some(doubt) => *doubt,
            None => Doubt { sends: 0, came: 0 },
        }
    }

    /// If all sends of a key that are in doubt came, none of them waits any more.
    fn forget(&mut self, key: u64)
        ensures others { (other : Entry) → IsTrue (waits self.old other) →
            IsTrue (waits self.new other)
            ⊎ ((other.0 ≡ key) × IsTrue (in_doubt self.old other)
            × ((doubt_of self.old key).sends ≤ (doubt_of self.old key).came)) }
        ensures fewer { (other : Entry) → IsTrue (waits self.new other) →
            IsTrue (waits self.old other) }
        ensures counted { CountsLeft (doubt_of self.old key).sends (doubt_of self.old key).came key
            self.new }
    {
        let doubt = self.doubt_of(key);
        if doubt.came < doubt.sends {
            return;
        }
        self.doubts.swap_remove(&key);
        for _ in 0..doubt.sends {
            let Some(send) = self.first_doubted(key) else {
                return;
            };
            self.doubted.remove(&(send.key, send.index, send.list));
            self.remove(send);
        }
    }

    fn first_doubted(&self, key: u64) -> Option<Listed>
        ensures { IfSome result (λ send.
            (send.key ≡ key) × IsTrue (in_doubt self.now (entry_of send))) }
    {
        let (at, index, list) = *self.doubted.range((key, 0, 0)..).next()?;
        if at != key {
            return None;
        }
        Some(Listed { key, list, index })
    }
}

/// The list of the sends that are known to go to a node.
pub(crate) fn list_of(node: u32) -> Result<u32, ListingError>
    ensures { IfOk result (λ list. list ≡ node + 1) }
{
    narrow(u64::from(node) + 1)
}

/// A send as it waits.
pub(crate) fn as_it_waits(
    meanings: &Meanings,
    index: u32,
    send: &Message,
    sent: &Sent,
) -> Result<Listed, ListingError>
    ensures named { IfOk result (λ listed. (listed.key ≡ send.now.key) × (listed.index ≡ index)) }
    ensures list { IfOk result (λ listed.
        IsListOf meanings.now sent.now.generation send.now.gaps listed.list) }
{
    let node = match sent.generation {
        Some(generation) => meanings.node_of(generation, send.gaps)?,
        None => None,
    };
    let list = match node {
        Some(node) => list_of(node)?,
        None => 0,
    };
    Ok(Listed {
        key: send.key,
        list,
        index,
    })
}

/// Looks at those of a list, as long as there is room. Returns whether these are all.
fn look_in(
    sends: &Sends,
    key: u64,
    list: u32,
    guessed: bool,
    looked: &mut Vec<Look>,
) -> Result<bool, ListingError>
    ensures { IfOk result (λ all. OnTrue all (looked.new.items ≡
        looked.old.items ++ map (look_at guessed) (sends_in sends.now key list))) }
{
    for send in sends.range((key, list, 0)..=(key, list, u32::MAX)) {
        if looked.len() >= LOOKED_AT {
            return Ok(false);
        }
        let (key, list, index) = *send;
        let listed = Listed { key, list, index };
        looked.push(Look { listed, guessed })?;
    }
    Ok(true)
}
