//! The sends that a delivery may have come from, and which of them it may be.

ghost use Rattle.std.specs.Prelude.{◌≡◌, ◌<◌, ◌≤◌, true, [], length, IfOk, IfSome, OnOk};
ghost use Rattle.std.specs.Bool.{OnFalse, OnTrue};
ghost use Rattle.listing_tables.specs.Certainty.{Adds, AreOfOneGeneration, ComesAfter, IsIn};
ghost use Rattle.listing_tables.specs.Certainty.{IsOnlyFit, IsOutOfQuestion};
ghost use Rattle.listing_tables.specs.Guesses.{IsGuess, IsGuessOf, IsNoLater, MayBeGuessed};
ghost use Rattle.listing_tables.specs.Guesses.{call_order};
ghost use Rattle.listing_tables.specs.OneHandle.{KeepsNext};
ghost use Rattle.listing_tables.specs.OneHandle.{IsFirstFresh, IsFirstOf};
ghost use Rattle.listing_tables.specs.declared.fitting.Fit.{Fit};

use crate::messages::{Sent, Settled};
use crate::numbered::narrow;
use crate::spans::Utid;
use crate::waiting::{Listed, Look};
use listing_fields::{ListingError, Outcome};
use std::alloc::Global;

/// To which node a send went: to that of a delivery, or to another one or none.
#[derive(Clone, Copy, PartialEq, Eq)]
pub(crate) enum Meant {
    This,
    Unknown,
    Other,
}

impl Meant {
    ghost use Rattle.listing_tables.specs.Guesses.{meant_order};

    /// In which order sends are guessed: those first that go to the node of the delivery.
    fn order(self) -> u8
        ensures { result ≡ meant_order self }
    {
        match self {
            Meant::This => 0,
            Meant::Unknown => 1,
            Meant::Other => 2,
        }
    }
}

/// A send that a delivery may have come from.
#[derive(Clone, Copy)]
pub(crate) struct Fit {
    pub listed: Listed,
    /// Whether another delivery took it by guess.
    pub guessed: bool,
    /// Whether it certainly has not come before.
    pub fresh: bool,
    /// To which node it went, as far as that is known, were no frame missing.
    pub meant: Meant,
    pub sent: Sent,
    pub place: u32,
    pub gaps: u32,
    pub utid: Utid,
    /// The place of the closer of its call.
    pub closer: Option<u32>,
}

/// The sends that fit a delivery best.
#[derive(Drop)]
pub(crate) struct Fitting {
    /// The sends that were looked at.
    pub looked: Vec<Look>,
    pub list: Vec<Fit>,
    /// The rank of each of them.
    pub rank: u8,
    /// Whether all that wait were looked at.
    pub is_whole: bool,
}

impl Fitting {
    pub(crate) fn new(alloc: Global) -> Fitting
        ensures looked { result.looked.items ≡ [] }
        ensures list { result.list.items ≡ [] }
        ensures rank { result.rank ≡ 255 }
        ensures whole { result.is_whole ≡ true }
    {
        Fitting {
            looked: Vec::new(alloc),
            list: Vec::new(alloc),
            rank: u8::MAX,
            is_whole: true,
        }
    }

    /// Begins with none.
    pub(crate) fn begin(&mut self)
        ensures { self.new.list.items ≡ [] }
    {
        self.list.clear();
        self.rank = u8::MAX;
        self.is_whole = true;
    }

    pub(crate) fn add(&mut self, rank: u8, fit: Fit) -> Outcome
        ensures { OnOk result (Adds self.old rank fit self.new) }
    {
        if rank > self.rank {
            return Ok(());
        }
        self.leave_worse(rank);
        self.list.push(fit)?;
        Ok(())
    }

    /// Leaves out those that rank behind this rank.
    fn leave_worse(&mut self, rank: u8)
        ensures worse { rank < self.old.rank → (self.new.list.items ≡ []) × (self.new.rank ≡ rank) }
        ensures kept { self.old.rank ≤ rank →
            (self.new.list.items ≡ self.old.list.items) × (self.new.rank ≡ self.old.rank) }
        ensures looked { self.new.looked ≡ self.old.looked }
        ensures whole { self.new.is_whole ≡ self.old.is_whole }
    {
        if rank < self.rank {
            self.list.clear();
            self.rank = rank;
        }
    }

    pub(crate) fn first(&self) -> Option<Fit>
        ensures { IfSome result (IsIn self.now.list.items) }
    {
        self.list.as_slice().first().copied()
    }

    /// The only one, if there is one only. Of oneway sends it is the first one that has certainly
    /// not come before, if all others come after it: the driver delivers what is sent to a node in
    /// the order in which it took it.
    pub(crate) fn only(&self, oneway: bool) -> Option<Fit>
        ensures { IfSome result (λ fit. IsOnlyFit oneway self.now fit) }
    {
        let only = self.next(oneway)?;
        if !are_out_of_question(self.list.as_slice(), &only, oneway) {
            return None;
        }
        Some(only)
    }

    fn next(&self, oneway: bool) -> Option<Fit>
        ensures { IfSome result (IsIn self.now.list.items) }
    {
        if oneway && let Some(fit) = self.first_fresh() {
            return Some(fit);
        }
        self.first()
    }

    /// Whether all of them were sent by one generation.
    pub(crate) fn are_alike(&self) -> bool
        ensures { OnTrue result (AreOfOneGeneration self.now) }
    {
        let Some(first) = self.first() else {
            return false;
        };
        if !are_all_of(self.list.as_slice(), first.sent.generation) {
            return false;
        }
        true
    }

    /// Of oneway sends of one generation leaves those that may be the next of them to come.
    pub(crate) fn keep_next(&mut self)
        ensures next { KeepsNext self.old.list.items self.new.list.items }
        ensures same { self.new ≡ record self.old { list = self.new.list } }
    {
        let Some(first) = self.first_fresh() else {
            return;
        };
        self.list.retain(|fit| !is_after(fit, &first));
    }

    /// The first one, in the order in which they are sent, that has certainly not come before.
    fn first_fresh(&self) -> Option<Fit>
        ensures { IsFirstFresh self.now.list.items result }
    {
        let mut first: Option<Fit> = None;
        for fit in &self.list {
            first = first_of(first, *fit);
        }
        first
    }

    /// The one that is taken by guess, if there is one. Those come first that are known to go to
    /// the node; then the first of oneway sends, and of calls the one that is closed first.
    pub(crate) fn best(&self, oneway: bool) -> Option<Fit>
        ensures { IsGuess oneway self.now.list.items result }
    {
        let mut best: Option<Fit> = None;
        for fit in &self.list {
            best = best_of(best, *fit, oneway);
        }
        best
    }

    /// How many they are: no more than were looked at.
    pub(crate) fn count(&self) -> Result<u32, ListingError>
        ensures { IfOk result (λ count. count ≡ length self.now.list.items) }
    {
        narrow(self.list.len() as u64)
    }
}

/// The first one of those that have certainly not come before: the first one so far, or this one.
fn first_of(first: Option<Fit>, fit: Fit) -> Option<Fit>
    ensures { IsFirstOf first fit result }
{
    if !fit.fresh {
        return first;
    }
    match first {
        Some(it) if it.listed.index <= fit.listed.index => first,
        _ => Some(fit),
    }
}

/// Whether all of these sends were sent by this generation.
fn are_all_of(fits: &[Fit], generation: Option<u32>) -> bool
    ensures { OnTrue result ((fit : Fit) → IsIn fits.now fit → fit.sent.generation ≡ generation) }
{
    for fit in fits {
        if fit.sent.generation != generation {
            return false;
        }
    }
    true
}

/// Whether each of these sends is no other one than this one, or comes after it.
fn are_out_of_question(fits: &[Fit], only: &Fit, oneway: bool) -> bool
    ensures { OnTrue result ((fit : Fit) →
        IsIn fits.now fit → IsOutOfQuestion oneway only.now fit) }
{
    for fit in fits {
        if !is_out_of_question(fit, only, oneway) {
            return false;
        }
    }
    true
}

/// Whether a send is no other one than this one, or comes after it.
fn is_out_of_question(fit: &Fit, only: &Fit, oneway: bool) -> bool
    ensures { OnTrue result (IsOutOfQuestion oneway only.now fit.now) }
{
    fit.listed.index == only.listed.index || (oneway && is_after(fit, only))
}

/// Whether the driver certainly took a send after another one, which is fresh, and so comes before
/// it.
fn is_after(fit: &Fit, first: &Fit) -> bool
    ensures after { OnTrue result (ComesAfter first.now fit.now) }
    ensures other { OnFalse result (ComesAfter first.now fit.now → ⊥) }
{
    if !first.fresh
        || fit.sent.generation != first.sent.generation
        || fit.sent.updates
        || fit.listed.index <= first.listed.index
    {
        return false;
    }
    match first.sent.settled {
        Settled::Confirmed(place) if place < fit.place => true,
        _ => fit.utid.index == first.utid.index,
    }
}

/// The send that is guessed: the one so far, or this one.
fn best_of(best: Option<Fit>, fit: Fit, oneway: bool) -> Option<Fit>
    ensures { IsGuessOf oneway best fit result }
{
    if !may_be_guessed(&fit) {
        return best;
    }
    let Some(it) = best else {
        return Some(fit);
    };
    if is_better(&fit, &it, oneway) {
        return Some(fit);
    }
    best
}

/// Whether a send may be guessed: no guess took it, and it is not known to go elsewhere.
fn may_be_guessed(fit: &Fit) -> bool
    ensures may { OnTrue result (MayBeGuessed fit.now) }
    ensures not { OnFalse result (MayBeGuessed fit.now → ⊥) }
{
    !fit.guessed && fit.meant != Meant::Other
}

/// Whether a send is guessed rather than another one.
fn is_better(fit: &Fit, other: &Fit, oneway: bool) -> bool
    ensures better { OnTrue result (IsNoLater oneway fit.now other.now) }
    ensures worse { OnFalse result (IsNoLater oneway other.now fit.now) }
{
    let (first, second) = (fit.meant.order(), other.meant.order());
    if first != second {
        return first < second;
    }
    let (one, two) = (
        call_order(oneway, fit.closer),
        call_order(oneway, other.closer),
    );
    if one != two {
        return one < two;
    }
    fit.listed.index < other.listed.index
}

/// In which order calls are guessed that have these closers: an open call comes last. Of oneway
/// sends the closer says nothing.
fn call_order(oneway: bool, closer: Option<u32>) -> u64
    ensures { result ≡ call_order oneway closer }
{
    match closer {
        _ if oneway => 0,
        Some(place) => u64::from(place),
        None => 1 << 32,
    }
}
