//! The tables frame, record and object, which are written while the walk goes on.

ghost use Rattle.std.specs.Prelude.{◌≡◌, ◌∷◌, [], length, IfSome, OnOk};
ghost use Rattle.capture_frame.specs.Envelope.{placed_frame};
ghost use Rattle.record_view.specs.Records.{records_of};
ghost use Rattle.listing_fields.specs.Content.{record_of_item};
ghost use Rattle.listing_tables.specs.Columns.{AddsRows};
ghost use Rattle.listing_tables.specs.Walk.{BeginsWith, HasNames, HasStatus, IsFrameRow};
ghost use Rattle.listing_tables.specs.Walk.{record_begin};

use crate::names::Names;
use crate::rows::{Column, RowWriter, columns, signed};
use crate::spans::Utid;
use binder_code::Kind;
use capture_frame::{Direction, Frame, u32_at};
use listing_fields::{
    Attached, EachObject, Item, Named, Outcome, direction_number, is_unnamed, number_of, offset_of,
};
use object_view::Object;
use record_view::Record;
use std::io::Write;
use transaction_view::Transaction;

/// TF_STATUS_CODE.
const STATUS_CODE: u32 = 0x08;

/// The row of a frame with this many records.
pub(crate) fn frame_columns(frame: Frame<'_>, utid: Utid, records: u64) -> [Column<'static>; 7]
    requires { records ≡ length (records_of (placed_frame frame)).units }
    ensures { IsFrameRow (placed_frame frame.entry) result }
{
    columns! {
        seq: frame.sequence,
        place: frame.place,
        utid: utid,
        direction: u64::from(direction_number(frame.direction)),
        command_length: frame.commands.len() as u64,
        attachment_length: frame.attachments.len() as u64,
        records: records,
    }
}

/// Writes the row of a record, and takes in what the record names.
pub(crate) fn write_record<W: Write + Drop>(
    rows: &mut RowWriter<W>,
    names: &mut Names,
    frame: Frame<'_>,
    utid: Utid,
    item: Item<'_>,
    named: Named,
) -> Outcome
    ensures { OnOk result (AddsRows BeginsWith rows.old rows.new
        (record_begin (placed_frame frame.entry) (record_of_item item.entry) ∷ [])) }
{
    let interface = names.interface(item)?;
    let service = names.service(item)?;
    let columns = record_columns(frame, utid, item, named, interface, service);
    rows.push(&columns)
}

/// The row of a record, which names the interface and the service of these numbers.
pub(crate) fn record_columns(
    frame: Frame<'_>,
    utid: Utid,
    item: Item<'_>,
    named: Named,
    interface: Option<u64>,
    service: Option<u64>,
) -> [Column<'static>; 21]
    ensures begins { BeginsWith
        (record_begin (placed_frame frame.entry) (record_of_item item.entry)) result }
    ensures names { HasNames named result }
{
    let record = item.record;
    let sent = Transaction::of(record);
    columns! {
        place: record.place,
        seq: frame.sequence,
        utid: utid,
        kind: kind_number(record, frame.direction),
        handle: named.handle,
        ptr: named.ptr,
        cookie: named.cookie,
        address: named.address,
        code: sent.map(|it| it.code()),
        flags: sent.map(|it| it.flags()),
        sender_pid: sent.map(|it| signed(it.sender_pid())),
        sender_euid: sent.map(|it| it.sender_euid()),
        data_size: sent.map(|it| it.data_size()),
        offsets_size: sent.map(|it| it.offsets_size()),
        offsets: sent.map(|it| it.offsets()),
        extra: sent.and_then(|it| it.extra()),
        attachment: item.entry.map(|entry| entry.place),
        status: status_of(item),
        value: number_of(record),
        interface: interface,
        service: service,
    }
}

/// The number that a BR_REPLY with TF_STATUS_CODE has in place of data.
fn status_of(item: Item<'_>) -> Option<u64>
    ensures { IfSome result (λ status. HasStatus item.entry) }
{
    if !matches!(item.record.kind, Kind::BrReply) {
        return None;
    }
    let reply = Transaction::of(item.record)?;
    if reply.flags() & STATUS_CODE == 0 || reply.data_size() != 4 {
        return None;
    }
    let data = item.entry?.body;
    if data.len() < 4 {
        return None;
    }
    Some(signed(u32_at(data, 0).cast_signed()))
}

/// The number of a kind in docs/COMMANDS.md, and 256 more for a return. A transaction with a
/// security context has 514, and an unnamed record has 255 in a write and 511 in a read.
fn kind_number(record: Record<'_>, direction: Direction) -> u64 {
    let number = match record.kind {
        Kind::BrTransactionSecCtx => 258,
        _ if is_unnamed(record) => 255,
        _ => u64::from(record.code.number()),
    };
    match direction {
        Direction::Write => number,
        Direction::Read => number + 256,
    }
}

/// Writes a row for each object of a record's attachment, up to the first bad one.
pub(crate) fn write_objects<W: Write + Drop>(rows: &mut RowWriter<W>, item: Item<'_>) -> Outcome {
    let Some(entry) = item.entry else {
        return Ok(());
    };
    for attached in EachObject::of(entry) {
        rows.push(&object_columns(item.record.place, attached))?;
    }
    Ok(())
}

pub(crate) fn object_columns(place: u64, attached: Attached<'_>) -> [Column<'static>; 15] {
    let (idx, offset, bad) = match attached.found {
        Ok(_) => (attached.index, offset_of(attached), None),
        Err(bad) => (
            bad.index,
            bad.offset,
            Some((bad.cause as u64).saturating_add(1)),
        ),
    };
    let good = attached.found.ok();
    columns! {
        place: place,
        idx: idx,
        offset: offset,
        sort: good.map(sort_number),
        flags: good.and_then(|it| it.flags()),
        binder: good.and_then(|it| it.binder()),
        handle: good.and_then(|it| it.handle()),
        fd: good.and_then(|it| it.fd()),
        cookie: good.and_then(|it| it.cookie()),
        num_fds: good.and_then(|it| it.num_fds()),
        buffer: good.and_then(|it| it.buffer()),
        length: good.and_then(|it| it.length()),
        parent: good.and_then(|it| it.parent()),
        parent_offset: good.and_then(|it| it.parent_offset()),
        bad: bad,
    }
}

/// The four bytes that name the sort.
fn sort_number(object: Object<'_>) -> u32 {
    if object.bytes.len() < 4 {
        return 0;
    }
    u32_at(object.bytes, 0)
}
