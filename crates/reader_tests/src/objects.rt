//! An object of each sort, by its bytes.

use crate::expect::{holds, same};
use object_view::{Object, Objects, Sort, held_step};
use std::process::Abort;
use transaction_view::Entry;

/// One object of each sort: the four bytes that name the sort, then 0xa0, 0xa1 and so on.
const BINDER: &[u8] = b"\x85\x2a\x62\x73\
    \xa0\xa1\xa2\xa3\xa4\xa5\xa6\xa7\xa8\xa9\xaa\xab\xac\xad\xae\xaf\xb0\xb1\xb2\xb3";

const WEAK_BINDER: &[u8] = b"\x85\x2a\x62\x77\
    \xa0\xa1\xa2\xa3\xa4\xa5\xa6\xa7\xa8\xa9\xaa\xab\xac\xad\xae\xaf\xb0\xb1\xb2\xb3";

const HANDLE: &[u8] = b"\x85\x2a\x68\x73\
    \xa0\xa1\xa2\xa3\xa4\xa5\xa6\xa7\xa8\xa9\xaa\xab\xac\xad\xae\xaf\xb0\xb1\xb2\xb3";

const WEAK_HANDLE: &[u8] = b"\x85\x2a\x68\x77\
    \xa0\xa1\xa2\xa3\xa4\xa5\xa6\xa7\xa8\xa9\xaa\xab\xac\xad\xae\xaf\xb0\xb1\xb2\xb3";

const FD: &[u8] = b"\x85\x2a\x64\x66\
    \xa0\xa1\xa2\xa3\xa4\xa5\xa6\xa7\xa8\xa9\xaa\xab\xac\xad\xae\xaf\xb0\xb1\xb2\xb3";

const FDA: &[u8] = b"\x85\x61\x64\x66\
    \xa0\xa1\xa2\xa3\xa4\xa5\xa6\xa7\xa8\xa9\xaa\xab\xac\xad\xae\xaf\xb0\xb1\xb2\xb3\
    \xb4\xb5\xb6\xb7\xb8\xb9\xba\xbb";

const PTR: &[u8] = b"\x85\x2a\x74\x70\
    \xa0\xa1\xa2\xa3\xa4\xa5\xa6\xa7\xa8\xa9\xaa\xab\xac\xad\xae\xaf\xb0\xb1\xb2\xb3\
    \xb4\xb5\xb6\xb7\xb8\xb9\xba\xbb\xbc\xbd\xbe\xbf\xc0\xc1\xc2\xc3";

const SORTS: &[(&[u8], Sort)] = &[
    (BINDER, Sort::Binder),
    (WEAK_BINDER, Sort::WeakBinder),
    (HANDLE, Sort::Handle),
    (WEAK_HANDLE, Sort::WeakHandle),
    (FD, Sort::Fd),
    (FDA, Sort::Fda),
    (PTR, Sort::Ptr),
];

/// Offset 0.
const FIRST: &[u8] = b"\0\0\0\0\0\0\0\0";

fn reader_of<'c>(rt: &impl Abort, body: &'c [u8], offsets: &'c [u8]) -> Objects<'c> {
    holds(rt, body.len() < 4096 && offsets.len() < 4096);
    Objects::of(Entry {
        place: 116,
        owner: 48,
        body,
        offsets,
    })
}

/// The object at the start of the data; its reader is gone.
fn first_object<'c>(rt: &impl Abort, body: &'c [u8]) -> Object<'c> {
    let mut reader = reader_of(rt, body, FIRST);
    let object = reader.next_object().and_then(Result::ok);
    object.expect(rt, "no object")
}

fn expect_sort(rt: &impl Abort, (bytes, sort): (&[u8], Sort)) {
    let object = first_object(rt, bytes);
    same(rt, object.sort, sort);
    same(rt, object.bytes, bytes);
}

#[test]
fn reads_an_object_of_each_sort(rt: HostRuntime) {
    for row in SORTS {
        expect_sort(&rt, *row);
    }
}

#[test]
fn reads_the_fields(rt: HostRuntime) {
    let binder = first_object(&rt, BINDER);
    same(&rt, binder.flags(), Some(0xa3a2_a1a0));
    same(&rt, binder.binder(), Some(0xabaa_a9a8_a7a6_a5a4));
    same(&rt, binder.cookie(), Some(0xb3b2_b1b0_afae_adac));
    same(&rt, first_object(&rt, HANDLE).handle(), Some(0xa7a6_a5a4));
    same(&rt, first_object(&rt, FD).fd(), Some(0xa7a6_a5a4));
    let array = first_object(&rt, FDA);
    same(&rt, array.num_fds(), Some(0xabaa_a9a8_a7a6_a5a4));
    same(&rt, array.parent(), Some(0xb3b2_b1b0_afae_adac));
    same(&rt, array.parent_offset(), Some(0xbbba_b9b8_b7b6_b5b4));
    let buffer = first_object(&rt, PTR);
    same(&rt, buffer.buffer(), Some(0xabaa_a9a8_a7a6_a5a4));
    same(&rt, buffer.length(), Some(0xb3b2_b1b0_afae_adac));
    same(&rt, buffer.parent(), Some(0xbbba_b9b8_b7b6_b5b4));
    same(&rt, buffer.parent_offset(), Some(0xc3c2_c1c0_bfbe_bdbc));
}

#[test]
fn tells_the_reference_that_an_object_carries(rt: HostRuntime) {
    same(
        &rt,
        held_step(first_object(&rt, HANDLE)),
        Some((0xa7a6_a5a4, false)),
    );
    same(
        &rt,
        held_step(first_object(&rt, WEAK_HANDLE)),
        Some((0xa7a6_a5a4, true)),
    );
    same(&rt, held_step(first_object(&rt, BINDER)), None);
    same(&rt, held_step(first_object(&rt, FD)), None);
}
