//! What processes know of nodes: the generations of their handles, and the objects of messages.

use crate::generations::{Effect, Generations, Reference};
use crate::handed::{HandedOver, Node, Object};
use crate::levels::{Levels, Resource};
use crate::numbered::narrow;
use crate::origin::Origin;
use binder_code::Kind;
use event_core::Strength;
use listing_fields::{EachObject, ListingError, Outcome};
use object_view::Sort;
use std::alloc::Global;
use transaction_view::Entry;

/// The generations of all handles, and all objects that are handed over.
#[derive(Drop)]
pub(crate) struct Handles {
    pub generations: Generations,
    pub handed: HandedOver,
}

impl Handles {
    pub(crate) fn new(alloc: Global) -> Handles {
        Handles {
            generations: Generations::new(alloc),
            handed: HandedOver::new(alloc),
        }
    }

    /// Takes a record of this kind that names a handle, and returns the index of its generation.
    pub(crate) fn name(
        &mut self,
        origin: Origin,
        kind: Kind,
        handle: u32,
        levels: &mut Levels,
    ) -> Result<u32, ListingError> {
        let upid = origin.upid;
        let effect = Effect::of(kind);
        let (index, before, now) = self.generations.name(upid, handle, effect, origin.place)?;
        if before < now {
            levels.raise(upid, Resource::References, 1)?;
        } else if now < before {
            levels.lower(upid, Resource::References, 1)?;
        }
        Ok(index)
    }

    /// Takes the objects of a message. A delivery holds a reference by each handle.
    pub(crate) fn take_objects(
        &mut self,
        origin: Origin,
        message: u32,
        entry: Entry<'_>,
        delivered: bool,
    ) -> Outcome {
        for attached in EachObject::of(entry) {
            let number = narrow(attached.index)?;
            let Ok(object) = attached.found else {
                break;
            };
            if let (Some(ptr), Some(cookie)) = (object.binder(), object.cookie()) {
                let upid = origin.upid;
                self.take_own(message, number, Node { upid, ptr, cookie })?;
            }
            if let Some(handle) = object.handle() {
                let strength = strength_of(object.sort);
                let reference = self.refer(origin, handle, strength, delivered)?;
                self.handed.push(message, number, Object::Of(reference))?;
            }
        }
        Ok(())
    }

    /// Takes the object of this number that is a node of the process itself.
    fn take_own(&mut self, message: u32, number: u32, node: Node) -> Outcome {
        let index = self.handed.index_of(node)?;
        self.handed.push(message, number, Object::Own(index))
    }

    /// The reference that a message makes by a handle. That of a delivery is held.
    fn refer(
        &mut self,
        origin: Origin,
        handle: u32,
        strength: Strength,
        delivered: bool,
    ) -> Result<Reference, ListingError> {
        let effect = if delivered {
            Effect::Holds(strength)
        } else {
            Effect::Names
        };
        let (generation, _, _) = self
            .generations
            .name(origin.upid, handle, effect, origin.place)?;
        Ok(Reference {
            generation,
            strength,
        })
    }

    /// Takes back the references that a delivery holds, at the place where its buffer is freed.
    pub(crate) fn let_go(&mut self, delivery: u32, place: u32) -> Outcome {
        for handed in self.handed.objects_of(delivery) {
            if let Object::Of(reference) = handed.object {
                self.generations.let_go(reference, place)?;
            }
        }
        Ok(())
    }
}

/// How a handle of this sort holds its node.
fn strength_of(sort: Sort) -> Strength {
    match sort {
        Sort::WeakHandle => Strength::Weak,
        _ => Strength::Strong,
    }
}
