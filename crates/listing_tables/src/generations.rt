//! The generations of handles: the spans in which a handle of a process means one object.

ghost use Rattle.std.specs.Prelude.{◌≡◌, ◌↔◌, [], None, IsTrue, IfOk, OnOk};
ghost use Rattle.event_core.specs.Handles.{handle_effect};
ghost use Rattle.handle_ledger.specs.Handles.{handle_count_change};
ghost use Rattle.listing_tables.specs.Generations.{CountsEffect, EndsByEffect, EndsIfEmpty};
ghost use Rattle.listing_tables.specs.Generations.{GenerationSum, GivenByEffect, HeldByEffect};
ghost use Rattle.listing_tables.specs.Generations.{HoldsOneFewer, HoldsOneMore, IsEmpty};
ghost use Rattle.listing_tables.specs.Generations.{IsGenerationOf, IsNew, IsSame, KeepsGiven};
ghost use Rattle.listing_tables.specs.Generations.{KeepsHeld, KeepsTaken, TakesOneMore};
ghost use Rattle.listing_tables.specs.Columns.{WritesRows};
ghost use Rattle.listing_tables.specs.Generations.{generation_columns, generation_rows, taken_by};
ghost use Rattle.listing_tables.specs.declared.generations.Effect.TheVariants.{Holds, Takes};

use crate::numbered::{Numbered, one_fewer, one_more};
use crate::rows::{Column, RowWriter, columns};
use crate::spans::Upid;
use binder_code::Kind;
use event_core::{HandleChange, Strength};
use indexmap::IndexMap;
use listing_fields::{ListingError, Outcome};
use std::alloc::Global;
use std::io::Write;

/// What a record does to a handle that it names.
#[derive(Clone, Copy)]
pub(crate) enum Effect {
    Names,
    /// The process takes a reference, or lets go of one.
    Takes(Strength, HandleChange),
    /// A delivery has an object of it, and so holds a reference.
    Holds(Strength),
}

impl Effect {
    ghost use Rattle.listing_tables.specs.Naming.{gives, held_by};

    /// What a record of this kind does.
    pub(crate) fn of(kind: Kind) -> Effect
        ensures takes { taken_by result ≡ handle_effect kind }
        ensures holds { held_by result ≡ None }
    {
        match kind {
            Kind::BcAcquire => Effect::Takes(Strength::Strong, HandleChange::Raise),
            Kind::BcRelease => Effect::Takes(Strength::Strong, HandleChange::Lower),
            Kind::BcIncrefs => Effect::Takes(Strength::Weak, HandleChange::Raise),
            Kind::BcDecrefs => Effect::Takes(Strength::Weak, HandleChange::Lower),
            _ => Effect::Names,
        }
    }

    /// Whether it gives the process a reference.
    fn gives(self) -> bool
        ensures { result ≡ gives self }
    {
        matches!(
            self,
            Effect::Takes(_, HandleChange::Raise) | Effect::Holds(_)
        )
    }
}

/// What a process takes of a generation by one strength.
#[derive(Clone, Copy)]
pub(crate) struct Taken {
    /// How often it takes a reference, and how often it lets go of one.
    pub raised: u32,
    pub lowered: u32,
    /// How many references it has. The driver ignores a record that lets go of none.
    pub left: u32,
}

impl Taken {
    fn after(self, change: HandleChange) -> Result<Taken, ListingError>
        ensures { IfOk result (TakesOneMore self (handle_count_change change)) }
    {
        match change {
            HandleChange::Raise => Ok(Taken {
                raised: one_more(self.raised)?,
                left: one_more(self.left)?,
                ..self
            }),
            // One that lets go of no reference takes none off.
            HandleChange::Lower => Ok(Taken {
                lowered: one_more(self.lowered)?,
                left: self.left.saturating_sub(1),
                ..self
            }),
        }
    }
}

/// A generation of a handle.
#[derive(Clone, Copy)]
pub(crate) struct Generation {
    pub upid: Upid,
    pub handle: u32,
    pub number: u32,
    pub begin: u32,
    pub end: Option<u32>,
    pub given_by: Option<u32>,
    pub held_since: Option<u32>,
    pub strong: Taken,
    pub weak: Taken,
    pub held_strong: u32,
    pub held_weak: u32,
}

impl Generation {
    /// The one that begins at this place, before what the record there does.
    fn new(upid: Upid, handle: u32, number: u32, place: u32) -> Generation
        ensures named { IsGenerationOf upid handle number place result }
        ensures counts { GenerationSum result [] }
        ensures unknown { IsNew result }
    {
        let none = Taken {
            raised: 0,
            lowered: 0,
            left: 0,
        };
        Generation {
            upid,
            handle,
            number,
            begin: place,
            end: None,
            given_by: None,
            held_since: None,
            strong: none,
            weak: none,
            held_strong: 0,
            held_weak: 0,
        }
    }

    /// Counts what the record at this place does.
    fn apply(&mut self, effect: Effect, place: u32) -> Outcome
        ensures counts { OnOk result (CountsEffect self.old effect self.new) }
        ensures ends { OnOk result (EndsByEffect self.old effect place self.new) }
        ensures same { IsSame self.old self.new }
        ensures held { OnOk result (HeldByEffect self.old effect self.new) }
        ensures given { OnOk result (GivenByEffect self.old effect place self.new) }
    {
        match effect {
            Effect::Names => Ok(()),
            Effect::Takes(strength, change) => self.take(strength, change, place),
            Effect::Holds(strength) => self.hold(strength, place),
        }
    }

    /// Takes a record by which the process takes a reference or lets go of one.
    fn take(&mut self, strength: Strength, change: HandleChange, place: u32) -> Outcome
        ensures counts { OnOk result (CountsEffect self.old (Takes strength change) self.new) }
        ensures ends { OnOk result (EndsIfEmpty self.old place self.new) }
        ensures same { IsSame self.old self.new }
        ensures held { KeepsHeld self.old self.new }
        ensures given { OnOk result (
            GivenByEffect self.old (Takes strength change) place self.new) }
    {
        self.count(strength, change)?;
        self.held_since = if self.strong.left == 0 {
            None
        } else {
            self.held_since.or(Some(place))
        };
        self.end_if_empty(place);
        Ok(())
    }

    fn count(&mut self, strength: Strength, change: HandleChange) -> Outcome
        ensures counts { OnOk result (CountsEffect self.old (Takes strength change) self.new) }
        ensures kept { self.new.end ≡ self.old.end }
        ensures same { IsSame self.old self.new }
        ensures held { KeepsHeld self.old self.new }
        ensures given { KeepsGiven self.old self.new }
    {
        match strength {
            Strength::Strong => self.strong = self.strong.after(change)?,
            Strength::Weak => self.weak = self.weak.after(change)?,
        }
        Ok(())
    }

    /// Takes a delivery that holds a reference.
    fn hold(&mut self, strength: Strength, place: u32) -> Outcome
        ensures taken { KeepsTaken self.old self.new }
        ensures kept { self.new.end ≡ self.old.end }
        ensures same { IsSame self.old self.new }
        ensures held { OnOk result (HoldsOneMore strength self.old self.new) }
        ensures given { OnOk result (GivenByEffect self.old (Holds strength) place self.new) }
    {
        match strength {
            Strength::Strong => self.held_strong = one_more(self.held_strong)?,
            Strength::Weak => self.held_weak = one_more(self.held_weak)?,
        }
        self.given_by = self.given_by.or(Some(place));
        Ok(())
    }

    /// Takes back a reference that a delivery held.
    fn let_go(&mut self, strength: Strength, place: u32) -> Outcome
        ensures ends { OnOk result (EndsIfEmpty self.old place self.new) }
        ensures same { IsSame self.old self.new }
        ensures taken { KeepsTaken self.old self.new }
        ensures held { OnOk result (HoldsOneFewer strength self.old self.new) }
        ensures given { OnOk result (KeepsGiven self.old self.new) }
    {
        match strength {
            Strength::Strong => self.held_strong = one_fewer(self.held_strong)?,
            Strength::Weak => self.held_weak = one_fewer(self.held_weak)?,
        }
        self.end_if_empty(place);
        Ok(())
    }

    /// Ends here if it is empty.
    fn end_if_empty(&mut self, place: u32)
        ensures kept { self.new ≡ record self.old { end = self.new.end } }
        ensures ends { EndsIfEmpty self.old place self.new }
    {
        if self.end.is_none() && self.is_empty() {
            self.end = Some(place);
        }
    }

    /// Whether nothing of it is held, and its handle is not 0: that is always the context manager.
    fn is_empty(&self) -> bool
        ensures { IsTrue result ↔ IsEmpty self.now }
    {
        self.handle != 0
            && self.strong.left == 0
            && self.weak.left == 0
            && self.held_strong == 0
            && self.held_weak == 0
    }

    /// Its row in the table generation, where it has this number among all.
    fn columns(&self, number: u64) -> [Column<'static>; 16]
        ensures { result ≡ generation_columns number self.now }
    {
        columns! {
            id: number,
            upid: self.upid,
            handle: self.handle,
            n: self.number,
            begin: self.begin,
            end: self.end,
            given_by: self.given_by,
            held_since: self.held_since,
            acquired: self.strong.raised,
            released: self.strong.lowered,
            increfs: self.weak.raised,
            decrefs: self.weak.lowered,
            strong: self.strong.left,
            weak: self.weak.left,
            held_strong: self.held_strong,
            held_weak: self.held_weak,
        }
    }
}

/// What an object refers to by a handle: the index of a generation.
#[derive(Clone, Copy)]
pub(crate) struct Reference {
    pub generation: u32,
    pub strength: Strength,
}

/// All generations so far.
#[derive(Drop)]
pub(crate) struct Generations {
    pub list: Numbered<Generation>,
    /// For each process and handle, the index of the latest generation.
    latest: IndexMap<(Upid, u32), u32>,
}

impl Generations {
    ghost use Rattle.listing_tables.specs.Naming.{Begins, FindsNamed, HasNone, LetsGo, NamesOne};

    pub(crate) fn new(alloc: Global) -> Generations
        ensures list { result.list.all.items ≡ [] }
        ensures latest { HasNone result }
    {
        Generations {
            list: Numbered::new(alloc),
            latest: IndexMap::new(alloc),
        }
    }

    /// Takes a record that names a handle. Returns the index of the generation, and how many strong
    /// references the process had of it and has now.
    pub(crate) fn name(
        &mut self,
        upid: Upid,
        handle: u32,
        effect: Effect,
        place: u32,
    ) -> Result<(u32, u32, u32), ListingError>
        ensures { IfOk result (NamesOne self.old upid handle effect place self.new) }
    {
        let index = self.named(upid, handle, effect, place)?;
        let before = self.list.at(index)?;
        let mut generation = before;
        generation.apply(effect, place)?;
        self.list.set(index, generation)?;
        Ok((index, before.strong.left, generation.strong.left))
    }

    /// The index of the generation that a record names: the latest one of the handle, or one that
    /// begins with the record.
    fn named(
        &mut self,
        upid: Upid,
        handle: u32,
        effect: Effect,
        place: u32,
    ) -> Result<u32, ListingError>
        ensures { IfOk result (FindsNamed self.old upid handle effect place self.new) }
    {
        let Some(index) = self.latest.get(&(upid, handle)).copied() else {
            return self.begin(upid, handle, 1, place);
        };
        let latest = self.list.at(index)?;
        if latest.end.is_none() {
            return Ok(index);
        }
        if !effect.gives() {
            return Ok(index);
        }
        let number = one_more(latest.number)?;
        self.begin(upid, handle, number, place)
    }

    /// Begins the generation of a handle that has this number there, and returns the index.
    fn begin(
        &mut self,
        upid: Upid,
        handle: u32,
        number: u32,
        place: u32,
    ) -> Result<u32, ListingError>
        ensures { IfOk result (Begins self.old upid handle number place self.new) }
    {
        let generation = Generation::new(upid, handle, number, place);
        let index = self.list.next()?;
        self.list.push(generation)?;
        self.latest.insert((upid, handle), index)?;
        Ok(index)
    }

    /// Takes back a reference that a delivery held.
    pub(crate) fn let_go(&mut self, reference: Reference, place: u32) -> Outcome
        ensures { OnOk result (LetsGo self.old self.new reference place) }
    {
        let before = self.list.at(reference.generation)?;
        let mut generation = before;
        generation.let_go(reference.strength, place)?;
        self.list.set(reference.generation, generation)
    }

    /// Writes the rows of the table generation.
    pub(crate) fn write<W: Write + Drop>(&self, rows: &mut RowWriter<W>) -> Outcome
        ensures { OnOk result (WritesRows rows.old rows.new
            (generation_rows self.now.list.all.items)) }
    {
        for index in 0..self.list.next()? {
            let generation = self.list.at(index)?;
            rows.push(&generation.columns(u64::from(index) + 1))?;
        }
        Ok(())
    }
}
