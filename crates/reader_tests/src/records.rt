//! Records by their bytes.

use crate::expect::{holds, same};
use binder_code::{Code, Kind};
use capture_frame::{Direction, Fault, Frame};
use record_view::{Record, Records};
use std::process::Abort;
use std::test::Fail;

/// `BC_ACQUIRE` of handle 5, `BC_ENTER_LOOPER`, and a command whose number, 255, the header does
/// not list.
const COMMANDS: &[u8] = b"\x05\x63\x04\x40\x05\0\0\0\x0c\x63\0\0\xff\x63\x03\x40end";

const PLACES: &[(u64, Kind, u32, &[u8])] = &[
    (132, Kind::BcAcquire, 0x4004_6305, b"\x05\0\0\0"),
    (140, Kind::BcEnterLooper, 0x0000_630c, b""),
    (144, Kind::Opaque, 0x4003_63ff, b"end"),
];

/// A frame at 100, so that its records begin at 132.
fn frame_of(direction: Direction, commands: &[u8]) -> Frame<'_> {
    Frame {
        place: 100,
        sequence: 1,
        device: 4,
        process: 2,
        thread: 3,
        direction,
        commands,
        attachments: b"",
    }
}

fn expect_record(
    rt: &impl Abort,
    reader: &mut Records<'_>,
    (place, kind, code, payload): (u64, Kind, u32, &[u8]),
) -> Result<(), Fail> {
    let record = reader.next_record()?.ok_or("a record is missing")?;
    same(rt, record.place, place);
    same(rt, record.kind, kind);
    same(rt, record.code, Code(code));
    same(rt, record.payload, payload);
    Ok(())
}

#[test]
fn reads_record_by_record(rt: HostRuntime) -> Result<(), Fail> {
    let mut reader = Records::of(frame_of(Direction::Write, COMMANDS));
    for row in PLACES {
        expect_record(&rt, &mut reader, *row)?;
    }
    for _ in 0..2 {
        holds(&rt, reader.next_record()?.is_none());
    }
    Ok(())
}

fn first_return(commands: &[u8]) -> Result<Option<Record<'_>>, Fault> {
    let mut reader = Records::of(frame_of(Direction::Read, commands));
    reader.next_record()
}

#[test]
fn leaves_a_record_that_outlives_its_reader(rt: HostRuntime) -> Result<(), Fail> {
    let record = first_return(b"\x04\x72\x04\x80\x01\0\0\0")?.ok_or("no record")?;
    same(&rt, record.kind, Kind::BrAcquireResult);
    same(&rt, record.payload, b"\x01\0\0\0".as_slice());
    Ok(())
}
