//! Which node each generation means.

ghost use Rattle.std.specs.Prelude.{◌≡◌, [], IfOk, IfSome, OnOk};
ghost use Rattle.std.specs.Bool.{OnFalse, OnTrue};
ghost use Rattle.std.specs.BTreeSet.{IsEmpty};
ghost use Rattle.listing_tables.specs.Certainty.{BeginsBefore, HasOtherHandle, MeansNode};
ghost use Rattle.listing_tables.specs.Learning.{IsPastGap, MeansFirst, known_of_two};
ghost use Rattle.listing_tables.specs.Meanings.{BeginsEach, LearnsKnown, LearnsNode, LearnsSame};
ghost use Rattle.listing_tables.specs.Meanings.{MakesAllKnown, MakesKnown};
ghost use Rattle.listing_tables.specs.Meanings.{SpreadsAll, SpreadsEach, SpreadsOne};

use crate::generations::Generations;
use crate::numbered::Numbered;
use crate::seen::Seen;
use listing_fields::{ListingError, Outcome};
use std::alloc::Global;
use std::collections::BTreeSet;

/// How many generations of a process that mean one node are looked at.
const LOOKED_AT: usize = 16;

/// How often all pairs of generations that mean the same are gone through at most.
const SPREADS: u32 = 16;

/// What is known of the node that a generation means.
#[derive(Clone, Copy, PartialEq, Eq)]
enum Known {
    Nothing,
    /// The index of the node.
    One(u32),
    Several,
}

/// What a generation is known to mean on this walk, and what it will be on the next one.
#[derive(Clone, Copy)]
struct Meaning {
    /// How many gaps in the sequences come before its begin. After a further one it may mean
    /// another node, as what ended it may be missing.
    gaps: u32,
    known: Known,
    learnt: Known,
}

/// What all generations mean, by their indices.
#[derive(Drop)]
pub(crate) struct Meanings {
    list: Numbered<Meaning>,
    /// Two generations that mean the same node.
    same: Numbered<(u32, u32)>,
    /// The generations that are known to mean a node: the process, the node, and the generation.
    held: BTreeSet<(u32, u32, u32)>,
}

impl Meanings {
    pub(crate) fn new(alloc: Global) -> Meanings
        ensures list { result.list.all.items ≡ [] }
        ensures same { result.same.all.items ≡ [] }
        ensures held { IsEmpty result.held }
    {
        Meanings {
            list: Numbered::new(alloc),
            same: Numbered::new(alloc),
            held: BTreeSet::new(alloc),
        }
    }

    /// Nothing is known yet of these generations.
    pub(crate) fn begin(&mut self, generations: &Generations, seen: &Seen) -> Outcome
        ensures begins { OnOk result (BeginsEach seen.now self.old.list.all.items
            self.new.list.all.items generations.now.list.all.items) }
        ensures same { self.new.same ≡ self.old.same }
    {
        for generation in &generations.list.all {
            self.list.push(Meaning {
                gaps: seen.gaps_before(generation.begin)?,
                known: Known::Nothing,
                learnt: Known::Nothing,
            })?;
        }
        Ok(())
    }

    /// The node that a generation is known to mean after so many gaps.
    pub(crate) fn node_of(&self, generation: u32, gaps: u32) -> Result<Option<u32>, ListingError>
        ensures { IfOk result (λ found. IfSome found (λ node.
            MeansNode self.now generation gaps node)) }
    {
        let meaning = self.list.at(generation)?;
        match meaning.known {
            Known::One(node) if meaning.gaps == gaps => Ok(Some(node)),
            _ => Ok(None),
        }
    }

    /// The node that a generation is known to mean from its begin up to the next gap.
    pub(crate) fn first_node_of(&self, generation: u32) -> Result<Option<u32>, ListingError>
        ensures { IfOk result (λ found. IfSome found (MeansFirst self.now generation)) }
    {
        match self.list.at(generation)?.known {
            Known::One(node) => Ok(Some(node)),
            _ => Ok(None),
        }
    }

    /// Notes that a generation means a node after so many gaps, for the next walk.
    pub(crate) fn learn(&mut self, generation: u32, gaps: u32, node: u32) -> Outcome
        ensures past { IsPastGap self.old generation gaps → self.new ≡ self.old }
        ensures learnt { OnOk result (LearnsNode self.old self.new generation gaps node) }
    {
        if self.list.at(generation)?.gaps != gaps {
            return Ok(());
        }
        self.join(generation, Known::One(node))?;
        Ok(())
    }

    /// Notes that two generations mean the same node, each after so many gaps.
    pub(crate) fn learn_same(&mut self, one: (u32, u32), other: (u32, u32)) -> Outcome
        ensures first { IsPastGap self.old one.0 one.1 → self.new ≡ self.old }
        ensures second { IsPastGap self.old other.0 other.1 → self.new ≡ self.old }
        ensures list { self.new.list ≡ self.old.list }
        ensures noted { OnOk result (LearnsSame self.old self.new one other) }
    {
        if self.list.at(one.0)?.gaps == one.1 && self.list.at(other.0)?.gaps == other.1 {
            self.same.push((one.0, other.0))?;
        }
        Ok(())
    }

    /// Notes one thing more of a generation. Returns whether something else is noted of it now.
    fn join(&mut self, generation: u32, other: Known) -> Result<bool, ListingError>
        ensures same { self.new.same ≡ self.old.same }
        ensures learnt { OnOk result (LearnsKnown self.old.list.all.items self.new.list.all.items
            generation other) }
        ensures more { IfOk result (λ more. OnFalse more (
            self.new.list.all.items ≡ self.old.list.all.items)) }
    {
        let meaning = self.list.at(generation)?;
        let learnt = joined(meaning.learnt, other);
        self.list.set(generation, Meaning { learnt, ..meaning })?;
        if meaning.learnt == learnt {
            return Ok(false);
        }
        Ok(true)
    }

    /// Makes known what was learnt. Returns whether that is more than before.
    pub(crate) fn settle(&mut self, generations: &Generations) -> Result<bool, ListingError>
        ensures { IfOk result (MakesAllKnown self.old.list.all.items self.new.list.all.items
            self.old.same.all.items) }
    {
        self.spread()?;
        let mut is_more = false;
        for index in 0..self.list.next()? {
            is_more |= self.settle_one(index, generations)?;
        }
        Ok(is_more)
    }

    /// What one of two generations means that mean the same, the other means too. Objects are handed
    /// on from process to process, so what is learnt of one generation is learnt of many.
    fn spread(&mut self) -> Outcome
        ensures { OnOk result (SpreadsAll self.old.list.all.items self.new.list.all.items
            self.old.same.all.items) }
    {
        for _ in 0..SPREADS {
            if !self.spread_once()? {
                return Ok(());
            }
        }
        Ok(())
    }

    /// Goes through the pairs once, in the order in which they were noted: most objects are handed on
    /// in that order. Returns whether more is noted now.
    fn spread_once(&mut self) -> Result<bool, ListingError>
        ensures spread { OnOk result (SpreadsEach self.old.list.all.items self.new.list.all.items
            self.old.same.all.items) }
        ensures more { IfOk result (λ more. OnFalse more (
            self.new.list.all.items ≡ self.old.list.all.items)) }
        ensures same { self.new.same ≡ self.old.same }
    {
        let mut noted = false;
        for at in 0..self.same.next()? {
            let (one, other) = self.same.at(at)?;
            noted |= self.spread_one(one, other)?;
        }
        Ok(noted)
    }

    /// What one of these two generations means, the other means too. Returns whether more is noted now.
    fn spread_one(&mut self, one: u32, other: u32) -> Result<bool, ListingError>
        ensures spread { OnOk result (SpreadsOne self.old.list.all.items self.new.list.all.items
            one other) }
        ensures more { IfOk result (λ more. OnFalse more (
            self.new.list.all.items ≡ self.old.list.all.items)) }
        ensures same { self.new.same ≡ self.old.same }
    {
        let learnt = self.list.at(one)?.learnt;
        let onward = self.join(other, learnt)?;
        let learnt = self.list.at(other)?.learnt;
        let back = self.join(one, learnt)?;
        Ok(onward || back)
    }

    /// Makes known what was learnt of a generation. Returns whether that is something else.
    fn settle_one(&mut self, index: u32, generations: &Generations) -> Result<bool, ListingError>
        ensures known { OnOk result (MakesKnown self.old.list.all.items self.new.list.all.items
            index) }
        ensures more { IfOk result (λ more. OnFalse more (
            self.new.list.all.items ≡ self.old.list.all.items)) }
    {
        let meaning = self.list.at(index)?;
        let known = meaning.learnt;
        self.list.set(index, Meaning { known, ..meaning })?;
        if meaning.known == known {
            return Ok(false);
        }
        if let Known::One(node) = known {
            let upid = generations.list.at(index)?.upid;
            self.held.insert((upid.index, node, index))?;
        }
        Ok(true)
    }

    /// Whether the process of a generation has another one at that time that is known to mean this
    /// node after so many gaps. Then this one means another node: a process has one handle of a
    /// node at a time.
    pub(crate) fn has_other(
        &self,
        generation: u32,
        gaps: u32,
        node: u32,
        generations: &Generations,
    ) -> Result<bool, ListingError>
        ensures { IfOk result (λ has. OnTrue has (
            HasOtherHandle generations.now self.now generation gaps node)) }
    {
        if self.list.at(generation)?.gaps != gaps {
            return Ok(false);
        }
        let upid = generations.list.at(generation)?.upid.index;
        self.is_held(generation, upid, gaps, node, generations)
    }

    /// Whether the process with this index, that of a generation, has another handle that means the
    /// node after so many gaps.
    fn is_held(
        &self,
        generation: u32,
        upid: u32,
        gaps: u32,
        node: u32,
        generations: &Generations,
    ) -> Result<bool, ListingError>
        ensures { IfOk result (λ has. OnTrue has (
            HasOtherHandle generations.now self.now generation gaps node)) }
    {
        for (process, at, index) in self.held.range((upid, node, 0)..).take(LOOKED_AT) {
            if *process != upid || *at != node {
                break;
            }
            if self.is_other(generation, gaps, node, *index, generations)? {
                return Ok(true);
            }
        }
        Ok(false)
    }

    /// Whether the generation at this index is such another one.
    fn is_other(
        &self,
        generation: u32,
        gaps: u32,
        node: u32,
        index: u32,
        generations: &Generations,
    ) -> Result<bool, ListingError>
        ensures { IfOk result (λ other. OnTrue other (
            HasOtherHandle generations.now self.now generation gaps node)) }
    {
        let row = generations.list.at(generation)?;
        let other = generations.list.at(index)?;
        let meant = self.node_of(index, gaps)?;
        Ok(
            index != generation
                && other.upid.index == row.upid.index
                && meant == Some(node)
                && is_before(row.begin, other.end)
                && is_before(other.begin, row.end),
        )
    }
}

/// Whether a generation begins before one with this end ends.
fn is_before(begin: u32, end: Option<u32>) -> bool
    ensures { OnTrue result (BeginsBefore begin end) }
{
    match end {
        Some(end) => begin < end,
        None => true,
    }
}

/// What is known of a generation of which two things are known.
fn joined(one: Known, other: Known) -> Known
    ensures { result ≡ known_of_two one other }
{
    match (one, other) {
        (Known::Nothing, known) => known,
        (known, Known::Nothing) => known,
        (Known::One(node), Known::One(same)) if node == same => one,
        _ => Known::Several,
    }
}
