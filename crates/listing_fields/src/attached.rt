//! The objects of an attachment, each with its number and its offset.

ghost use Rattle.std.specs.Prelude.{◌+◌, ◌<◌, ◌^◌, length};

use capture_frame::u64_at;
use object_view::{BadObject, Object, Objects};
use transaction_view::Entry;

/// The length of an offset, in bytes.
const OFFSET: usize = 8;

/// An object of an attachment, good or bad.
#[derive(Clone, Copy)]
pub struct Attached<'c> {
    /// Its number in the list of offsets, from 0.
    pub index: u64,
    /// Its offset in the data, in bytes.
    pub offset: u64,
    pub found: Result<Object<'c>, BadObject>,
}

/// Goes through the objects of an attachment in order, up to the first bad one, which comes last.
#[derive(Drop)]
pub struct EachObject<'c> {
    objects: Objects<'c>,
    /// The list of offsets, from the next object's on.
    rest: &'c [u8],
    index: u64,
    ghost fits: { index + length rest.now < 2 ^ 64 },
}

impl<'c> EachObject<'c> {
    pub fn of(entry: Entry<'c>) -> EachObject<'c> {
        EachObject {
            objects: Objects::of(entry),
            rest: entry.offsets,
            index: 0,
        }
    }
}

impl<'c> Iterator for EachObject<'c> {
    ghost use Rattle.std.specs.Iterator.{at_most};

    type Item = Attached<'c>;

    ghost remaining = { λ s. at_most (length s.rest.now) };

    fn next(&mut self) -> Option<Attached<'c>> {
        let rest = self.rest;
        if rest.is_empty() {
            return None;
        }
        let found = self.objects.next_object()?;
        let attached = Attached {
            index: self.index,
            offset: first_offset(rest),
            found,
        };
        self.index += 1;
        self.rest = without_first(rest);
        Some(attached)
    }
}

/// The first offset of a list; 0 if the list is shorter than an offset.
fn first_offset(list: &[u8]) -> u64 {
    if list.len() < OFFSET {
        return 0;
    }
    u64_at(list, 0)
}

/// The offsets after the first one; none if the list is shorter than an offset.
fn without_first(list: &[u8]) -> &[u8]
    requires { 0 < length list.now }
    ensures { length result.now < length list.now }
{
    if list.len() < OFFSET {
        return &[];
    }
    &list[OFFSET..]
}

/// The offset of an object in the data, good or bad.
pub fn offset_of(attached: Attached<'_>) -> u64 {
    match attached.found {
        Ok(_) => attached.offset,
        Err(bad) => bad.offset,
    }
}
