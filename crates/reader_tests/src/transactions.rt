//! Transactions and attachment entries by their bytes.

use crate::expect::{holds, same};
use capture_frame::{Direction, Frame};
use record_view::{Record, Records};
use std::process::Abort;
use std::test::Fail;
use transaction_view::{Attachments, Entry, Transaction, check_frame};

// ---- transactions

/// A `BC_TRANSACTION_SG` whose payload's bytes are 0x80, 0x81 and so on.
const NUMBERED: &[u8] = b"\x11\x63\x48\x40\
    \x80\x81\x82\x83\x84\x85\x86\x87\x88\x89\x8a\x8b\x8c\x8d\x8e\x8f\
    \x90\x91\x92\x93\x94\x95\x96\x97\x98\x99\x9a\x9b\x9c\x9d\x9e\x9f\
    \xa0\xa1\xa2\xa3\xa4\xa5\xa6\xa7\xa8\xa9\xaa\xab\xac\xad\xae\xaf\
    \xb0\xb1\xb2\xb3\xb4\xb5\xb6\xb7\xb8\xb9\xba\xbb\xbc\xbd\xbe\xbf\
    \xc0\xc1\xc2\xc3\xc4\xc5\xc6\xc7";

/// Two transactions of four body bytes and eight offset bytes, at 0 and 76, each followed by a
/// record that carries no transaction: 152 bytes.
const TRANSACTIONS: &[u8] = b"\
    \0\x63\x40\x40\0\0\0\0\0\0\0\0\0\0\0\0\0\0\0\0\0\0\0\0\0\0\0\0\0\0\0\0\0\0\0\0\
    \x04\0\0\0\0\0\0\0\x08\0\0\0\0\0\0\0\0\0\0\0\0\0\0\0\0\0\0\0\0\0\0\0\
    \x05\x63\x04\x40\x05\0\0\0\
    \0\x63\x40\x40\0\0\0\0\0\0\0\0\0\0\0\0\0\0\0\0\0\0\0\0\0\0\0\0\0\0\0\0\0\0\0\0\
    \x04\0\0\0\0\0\0\0\x08\0\0\0\0\0\0\0\0\0\0\0\0\0\0\0\0\0\0\0\0\0\0\0\
    \x05\x63\x04\x40\x05\0\0\0";

/// A record of a number that the header does not list, and as long as a transaction.
const OPAQUE: &[u8] = b"\
    \xff\x63\x40\x40\0\0\0\0\0\0\0\0\0\0\0\0\0\0\0\0\0\0\0\0\0\0\0\0\0\0\0\0\0\0\0\0\
    \0\0\0\0\0\0\0\0\0\0\0\0\0\0\0\0\0\0\0\0\0\0\0\0\0\0\0\0\0\0\0\0";

/// A write at 16, so that its records begin at 48.
fn frame_of<'c>(rt: &impl Abort, commands: &'c [u8], attachments: &'c [u8]) -> Frame<'c> {
    holds(rt, commands.len() < 4096 && attachments.len() < 4096);
    Frame {
        place: 16,
        sequence: 1,
        device: 4,
        process: 2,
        thread: 3,
        direction: Direction::Write,
        commands,
        attachments,
    }
}

fn first_record(rt: &impl Abort, commands: &'static [u8]) -> Record<'static> {
    let mut records = Records::of(frame_of(rt, commands, b""));
    records
        .next_record()
        .unwrap_or(None)
        .expect(rt, "no record")
}

#[test]
fn reads_each_field(rt: HostRuntime) {
    let carrier = first_record(&rt, NUMBERED);
    let transaction = Transaction::of(carrier).expect(&rt, "no transaction");
    same(&rt, transaction.carrier.place, 48);
    same(&rt, transaction.target_handle(), 0x8382_8180);
    same(&rt, transaction.target_ptr(), 0x8786_8584_8382_8180);
    same(&rt, transaction.cookie(), 0x8f8e_8d8c_8b8a_8988);
    same(&rt, transaction.code(), 0x9392_9190);
    same(&rt, transaction.flags(), 0x9796_9594);
    same(&rt, transaction.sender_pid(), -0x6465_6668);
    same(&rt, transaction.sender_euid(), 0x9f9e_9d9c);
    same(&rt, transaction.data_size(), 0xa7a6_a5a4_a3a2_a1a0);
    same(&rt, transaction.offsets_size(), 0xafae_adac_abaa_a9a8);
    same(&rt, transaction.buffer(), 0xb7b6_b5b4_b3b2_b1b0);
    same(&rt, transaction.offsets(), 0xbfbe_bdbc_bbba_b9b8);
    same(&rt, transaction.extra(), Some(0xc7c6_c5c4_c3c2_c1c0));
}

#[test]
fn tells_transactions_from_others(rt: HostRuntime) {
    let plain = Transaction::of(first_record(&rt, TRANSACTIONS)).expect(&rt, "no transaction");
    same(&rt, plain.extra(), None);
    holds(&rt, Transaction::of(first_record(&rt, OPAQUE)).is_none());
}

// ---- entries

/// An entry for each of the two transactions.
const ENTRIES: &[u8] = b"\0\0\0\0\x04\0\0\0\x08\0\0\0body\0\0\0\0\0\0\0\0\
    \x4c\0\0\0\x04\0\0\0\x08\0\0\0text\x01\0\0\0\0\0\0\0";

/// A reader of the frame's entries; None if one of its records has a fault.
fn reader_of(frame: Frame<'_>) -> Option<Attachments<'_>> {
    let records_alone = Frame {
        place: frame.place,
        sequence: frame.sequence,
        device: frame.device,
        process: frame.process,
        thread: frame.thread,
        direction: frame.direction,
        commands: frame.commands,
        attachments: b"",
    };
    if check_frame(records_alone).is_some() {
        return None;
    }
    Some(Attachments::of(frame))
}

fn expect_entry(
    rt: &impl Abort,
    reader: &mut Attachments<'_>,
    places: (u64, u64),
    body: &[u8],
    offsets: &[u8],
) -> Result<(), Fail> {
    let entry = reader.next_entry()?.ok_or("an entry is missing")?;
    same(rt, (entry.place, entry.owner), places);
    same(rt, entry.body, body);
    same(rt, entry.offsets, offsets);
    Ok(())
}

#[test]
fn reads_entry_by_entry(rt: HostRuntime) -> Result<(), Fail> {
    let frame = frame_of(&rt, TRANSACTIONS, ENTRIES);
    same(&rt, check_frame(frame), None);
    let mut reader = reader_of(frame).ok_or("a record fails")?;
    expect_entry(&rt, &mut reader, (200, 48), b"body", b"\0\0\0\0\0\0\0\0")?;
    expect_entry(&rt, &mut reader, (224, 124), b"text", b"\x01\0\0\0\0\0\0\0")?;
    for _ in 0..2 {
        holds(&rt, reader.next_entry()?.is_none());
    }
    Ok(())
}

fn first_entry(frame: Frame<'_>) -> Result<Option<Entry<'_>>, Fail> {
    let mut reader = reader_of(frame).ok_or("a record fails")?;
    Ok(reader.next_entry()?)
}

#[test]
fn leaves_an_entry_that_outlives_its_reader(rt: HostRuntime) -> Result<(), Fail> {
    let frame = frame_of(&rt, TRANSACTIONS, ENTRIES);
    let entry = first_entry(frame)?.ok_or("no entry")?;
    same(&rt, entry.body, b"body".as_slice());
    Ok(())
}
