//! Code words that the header's macros make, and words next to them.

use crate::expect::{holds, same};
use binder_code::{
    Code, CodeFault, Kind, Line, Protocol, TransactionFlags, kind, laws, unknown_bits,
};
use bitflags::Flags;
use std::process::Abort;

/// A code word of each shape that is listed, and words next to them.
const ROWS: &[(Protocol, u32, Result<Kind, CodeFault>)] = &[
    (Protocol::Command, 0x4040_6300, Ok(Kind::BcTransaction)),
    (Protocol::Command, 0x4004_6305, Ok(Kind::BcAcquire)),
    (Protocol::Command, 0x0000_630b, Ok(Kind::BcRegisterLooper)),
    (Protocol::Command, 0x4048_6312, Ok(Kind::BcReplySg)),
    (Protocol::Return, 0x8040_7202, Ok(Kind::BrTransaction)),
    (Protocol::Return, 0x8048_7202, Ok(Kind::BrTransactionSecCtx)),
    (
        Protocol::Return,
        0x0000_7214,
        Ok(Kind::BrTransactionPendingFrozen),
    ),
    (Protocol::Return, 0x4040_6300, Err(CodeFault::Direction)),
    (Protocol::Command, 0x8040_7202, Err(CodeFault::Direction)),
    (Protocol::Command, 0x8040_6300, Err(CodeFault::Direction)),
    (Protocol::Command, 0x4000_630b, Err(CodeFault::Direction)),
    (Protocol::Command, 0x0040_6300, Err(CodeFault::Direction)),
    (Protocol::Command, 0x4028_6300, Err(CodeFault::Size)),
    (Protocol::Return, 0x8028_7202, Err(CodeFault::Size)),
    (Protocol::Command, 0x4004_630b, Err(CodeFault::Size)),
    (Protocol::Command, 0x4010_6313, Ok(Kind::Opaque)),
    (Protocol::Return, 0x0000_72ff, Ok(Kind::Opaque)),
];

fn expect_kind(rt: &impl Abort, protocol: Protocol, word: u32, judged: Result<Kind, CodeFault>) {
    assert_eq!(rt; kind(protocol, Code(word)), judged, "at {word:#x}");
}

#[test]
fn judges_code_words(rt: HostRuntime) {
    for (protocol, word, judged) in ROWS {
        expect_kind(&rt, *protocol, *word, *judged);
    }
    laws::code_words();
}

#[test]
fn names_kinds(rt: HostRuntime) {
    same(&rt, Kind::BcTransaction.name(), "BC_TRANSACTION");
    same(
        &rt,
        Kind::BrClearDeathNotificationDone.name(),
        "BR_CLEAR_DEATH_NOTIFICATION_DONE",
    );
    same(&rt, Kind::Opaque.name(), "OPAQUE");
}

fn expect_line(rt: &impl Abort, place: usize, line: &Line) {
    same(rt, line.kind.place(), place);
    same(rt, line.kind.word(), Some(line.word));
    same(rt, line.kind.name(), line.name);
}

#[test]
fn lists_kinds(rt: HostRuntime) {
    for (place, line) in Line::all().iter().enumerate() {
        expect_line(&rt, place, line);
    }
    same(&rt, Kind::Opaque.place(), 41);
    same(&rt, Kind::Opaque.word(), None);
}

#[test]
fn reads_the_fields_of_a_code(rt: HostRuntime) {
    let code = Code(0x80ab_72cd);
    same(&rt, code.number(), 0xcd);
    same(&rt, code.letter(), b'r');
    same(&rt, code.size(), 0xab);
    same(&rt, code.direction(), 2);
}

#[test]
fn parts_the_flags(rt: HostRuntime) {
    same(&rt, TransactionFlags::all().bits(), 0x7d);
    same(&rt, unknown_bits(0x7d), 0);
    same(&rt, unknown_bits(0xffff_ff93), 0xffff_ff82);
    holds(&rt, TransactionFlags::from_bits(0x11).is_some());
    holds(&rt, TransactionFlags::from_bits(0x02).is_none());
    let flags = TransactionFlags::from_bits_truncate(0xffff_ff93);
    same(&rt, flags.bits(), 0x11);
    holds(&rt, flags.contains(TransactionFlags::TF_ONE_WAY));
    same(&rt, TransactionFlags::from_bits_retain(0x02).bits(), 0x02);
}
