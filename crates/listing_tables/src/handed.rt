//! The objects that transactions and replies hand over, and the nodes that messages name.

ghost use Rattle.std.specs.Prelude.{◌≡◌, IfOk, IfSome};
ghost use Rattle.listing_tables.specs.Certainty.{IsIn};
ghost use Rattle.listing_tables.specs.Decisions.{index_of_node};

use crate::generations::Reference;
use crate::numbered::narrow;
use crate::spans::Upid;
use indexmap::IndexSet;
use listing_fields::{ListingError, Outcome};
use std::alloc::Global;

/// A node, as its process knows it.
#[derive(Clone, Copy, PartialEq, Eq, Hash)]
pub(crate) struct Node {
    pub upid: Upid,
    pub ptr: u64,
    pub cookie: u64,
}

/// What an object is to the process that sends it, or that gets it.
#[derive(Clone, Copy)]
pub(crate) enum Object {
    /// A node of its own, by its index.
    Own(u32),
    /// What a generation of one of its handles means.
    Of(Reference),
}

/// An object of a message: the index of the message, and the number of the object in it.
#[derive(Clone, Copy)]
pub(crate) struct Handed {
    pub message: u32,
    pub number: u32,
    pub object: Object,
}

/// All objects that are handed over, in the order of their messages, and all nodes.
#[derive(Drop)]
pub(crate) struct HandedOver {
    list: Vec<Handed>,
    nodes: IndexSet<Node>,
}

impl HandedOver {
    pub(crate) fn new(alloc: Global) -> HandedOver {
        HandedOver {
            list: Vec::new(alloc),
            nodes: IndexSet::new(alloc),
        }
    }

    /// The index of a node.
    pub(crate) fn index_of(&mut self, node: Node) -> Result<u32, ListingError>
        ensures { IfOk result (λ index. index ≡ index_of_node self.old node) }
    {
        let (index, _) = self.nodes.insert_full(node)?;
        narrow(index as u64)
    }

    /// Takes an object of a message, after all of the messages before it.
    pub(crate) fn push(&mut self, message: u32, number: u32, object: Object) -> Outcome {
        self.list.push(Handed {
            message,
            number,
            object,
        })?;
        Ok(())
    }

    /// The objects of a message.
    pub(crate) fn objects_of(&self, message: u32) -> &[Handed] {
        let all = self.list.as_slice();
        let objects = &all[all.partition_point(|it| it.message < message)..];
        let count = objects.partition_point(|it| it.message == message);
        &objects[..count]
    }
}

/// The object with this number among these objects of a message.
pub(crate) fn numbered(objects: &[Handed], number: u32) -> Option<Handed>
    ensures is { IfSome result (IsIn objects.now) }
    ensures numbered { IfSome result (λ found. found.number ≡ number) }
{
    let at = objects.partition_point(|it| it.number < number);
    let object = objects.get(at)?;
    if object.number == number {
        return Some(*object);
    }
    None
}
