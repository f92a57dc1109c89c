//! The reader of an attachment's objects.

ghost use Rattle.std.specs.Prelude.{◌≡◌, ◌≤◌, length, IfOk, IfErr};
ghost use Rattle.object_view.specs.Objects.{object_at, first_offset};
ghost use Rattle.object_view.specs.Reading.{object_text};

use crate::bad_object::{BadObject, Cause};
use crate::object::Object;
use crate::sort::Sort;
use std::marker::Model;
use transaction_view::{Entry, u32_at, u64_at};

/// The length of an offset, in bytes.
const OFFSET: usize = 8;

/// The length of the number that names an object's sort, in bytes.
const SORT: usize = 4;

/// Where a reader is: before the offset with the number `index`, with `end` where the object before
/// ends in the data; or ended, after a bad object.
#[derive(Clone, Copy)]
enum State {
    At { index: usize, end: usize },
    Ended,
}

/// Reads the objects of an attachment in the order of its offsets, up to the first bad one. A
/// reader that has ended gives `None`.
#[derive(Drop)]
pub struct Objects<'c> {
    body: &'c [u8],
    offsets: &'c [u8],
    state: State,
}

impl<'c> Model for Objects<'c> {
    ghost use Rattle.object_view.specs.Objects as objects;

    ghost Value = { objects.Objects };

    ghost use Rattle.object_view.specs.State.{ahead, IsWithin};

    ghost view = { λ r. ahead r.body.now r.offsets.now r.state };

    ghost invariant = { λ r. IsWithin r.body.now r.offsets.now r.state };
}

impl<'c> Objects<'c> {
    ghost use Rattle.object_view.specs.Objects.{objects_of};
    ghost use Rattle.object_view.specs.Reading.{Steps};

    /// A reader before the first offset of the attachment's list.
    pub fn of(entry: Entry<'c>) -> Objects<'c>
        ensures { result ≡ objects_of entry.entry.body.now entry.entry.offsets.now }
    {
        Objects {
            body: entry.body,
            offsets: entry.offsets,
            state: State::At { index: 0, end: 0 },
        }
    }

    /// The next object, as a view of the data's bytes; or the bad one, once, by the first cause
    /// that applies; or `None`, at the end of the list and after a bad object.
    pub fn next_object(&mut self) -> Option<Result<Object<'c>, BadObject>>
        ensures { Steps self.old result self.new }
    {
        let State::At { index, end } = self.state else {
            return None;
        };
        if self.offsets.len() % OFFSET != 0 {
            self.state = State::Ended;
            return Some(Err(BadObject {
                index: 0,
                offset: 0,
                cause: Cause::ListLength,
            }));
        }
        let rest = &self.offsets[OFFSET * index..];
        if rest.is_empty() {
            return None;
        }
        let offset = first_offset(rest);
        match object_at(self.body, offset, end) {
            Ok(object) => {
                self.state = State::At {
                    index: index + 1,
                    end: offset as usize + object.bytes.len(),
                };
                Some(Ok(object))
            }
            Err(cause) => {
                self.state = State::Ended;
                Some(Err(BadObject {
                    index: index as u64,
                    offset,
                    cause,
                }))
            }
        }
    }
}

/// The first offset of a list.
fn first_offset(list: &[u8]) -> u64
    requires { 8 ≤ length list.now }
    ensures { result ≡ first_offset list.now }
{
    u64_at(list, 0)
}

/// The object that begins at an offset of the data, after one that ends at `end`; or the first
/// cause that applies.
fn object_at(body: &[u8], offset: u64, end: usize) -> Result<Object<'_>, Cause>
    ensures found { IfOk result
        (λ found. object_at body.now end offset ≡ Ok (object_text offset found)) }
    ensures fails { IfErr result (λ cause. object_at body.now end offset ≡ Err cause) }
{
    if offset % 4 != 0 {
        return Err(Cause::Misaligned);
    }
    if offset < end as u64 {
        return Err(Cause::Overlap);
    }
    if offset > body.len() as u64 {
        return Err(Cause::Short);
    }
    let rest = &body[offset as usize..];
    if rest.len() < SORT {
        return Err(Cause::Short);
    }
    let Some(sort) = Sort::of(u32_at(body, offset as usize)) else {
        return Err(Cause::UnknownSort);
    };
    if rest.len() < sort.length() {
        return Err(Cause::Short);
    }
    let (bytes, _) = rest.split_at(sort.length());
    Ok(Object { sort, bytes })
}
