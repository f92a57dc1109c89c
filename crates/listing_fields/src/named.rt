//! What a record names by itself, read without the names of its fields.

use crate::newer::{NewerKind, newer_kind};
use binder_code::Kind;
use capture_frame::{u32_at, u64_at};
use record_view::Record;

/// What a record names by itself: a handle, a node, a cookie, and the address of a buffer.
#[derive(Clone, Copy)]
pub struct Named {
    pub handle: Option<u32>,
    pub ptr: Option<u64>,
    pub cookie: Option<u64>,
    pub address: Option<u64>,
}

const NOTHING: Named = Named {
    handle: None,
    ptr: None,
    cookie: None,
    address: None,
};

/// What a record names by itself. The target of a reply means nothing.
pub fn named_of(record: Record<'_>) -> Named {
    let bytes = record.payload;
    match record.kind {
        Kind::BcTransaction | Kind::BcTransactionSg => Named {
            handle: word_at(bytes, 0),
            address: long_at(bytes, 48),
            ..NOTHING
        },
        Kind::BrTransaction | Kind::BrTransactionSecCtx => Named {
            address: long_at(bytes, 48),
            ..node_at(bytes, 0)
        },
        Kind::BcReply | Kind::BcReplySg | Kind::BrReply => Named {
            address: long_at(bytes, 48),
            ..NOTHING
        },
        Kind::BcFreeBuffer => Named {
            address: long_at(bytes, 0),
            ..NOTHING
        },
        _ => reference_of(record),
    }
}

/// What a record names that is about a reference, a death or a node.
fn reference_of(record: Record<'_>) -> Named {
    let bytes = record.payload;
    match record.kind {
        Kind::BcIncrefs | Kind::BcAcquire | Kind::BcRelease | Kind::BcDecrefs => Named {
            handle: word_at(bytes, 0),
            ..NOTHING
        },
        Kind::BcAttemptAcquire => Named {
            handle: word_at(bytes, 4),
            ..NOTHING
        },
        Kind::BcRequestDeathNotification | Kind::BcClearDeathNotification => watch_at(bytes),
        Kind::BcDeadBinderDone | Kind::BrDeadBinder | Kind::BrClearDeathNotificationDone => {
            cookie_at(bytes)
        }
        Kind::BcIncrefsDone
        | Kind::BcAcquireDone
        | Kind::BrIncrefs
        | Kind::BrAcquire
        | Kind::BrRelease
        | Kind::BrDecrefs => node_at(bytes, 0),
        Kind::BrAttemptAcquire => node_at(bytes, 8),
        Kind::Opaque => newer_reference_of(record),
        _ => NOTHING,
    }
}

/// What an opaque record names, if a newer header lists it.
fn newer_reference_of(record: Record<'_>) -> Named {
    match newer_kind(record) {
        Some(NewerKind::BcRequestFreezeNotification | NewerKind::BcClearFreezeNotification) =>
            watch_at(record.payload),
        Some(_) => cookie_at(record.payload),
        None => NOTHING,
    }
}

/// An error, a result or a priority, with its sign in 64 bits; `is_frozen` of BR_FROZEN_BINDER; or
/// the code word of an unnamed record.
pub fn number_of(record: Record<'_>) -> Option<u64> {
    match record.kind {
        Kind::Opaque => opaque_number(record),
        Kind::BcAcquireResult
        | Kind::BrAcquireResult
        | Kind::BrError
        | Kind::BcAttemptAcquire
        | Kind::BrAttemptAcquire => {
            let word = word_at(record.payload, 0)?;
            Some(i64::from(word.cast_signed()).cast_unsigned())
        }
        _ => None,
    }
}

fn opaque_number(record: Record<'_>) -> Option<u64> {
    match newer_kind(record) {
        Some(NewerKind::BrFrozenBinder) => word_at(record.payload, 8).map(u64::from),
        Some(_) => None,
        None => Some(u64::from(record.code.0)),
    }
}

/// The handle and the cookie that are watched.
fn watch_at(bytes: &[u8]) -> Named {
    Named {
        handle: word_at(bytes, 0),
        cookie: long_at(bytes, 4),
        ..NOTHING
    }
}

/// The cookie that begins the bytes.
fn cookie_at(bytes: &[u8]) -> Named {
    Named {
        cookie: long_at(bytes, 0),
        ..NOTHING
    }
}

/// The ptr and the cookie that begin here.
fn node_at(bytes: &[u8], offset: usize) -> Named {
    Named {
        ptr: long_at(bytes, offset),
        cookie: long_at(bytes, offset.saturating_add(8)),
        ..NOTHING
    }
}

fn word_at(bytes: &[u8], offset: usize) -> Option<u32> {
    let rest = bytes.get(offset..)?;
    if rest.len() < 4 {
        return None;
    }
    Some(u32_at(rest, 0))
}

fn long_at(bytes: &[u8], offset: usize) -> Option<u64> {
    let rest = bytes.get(offset..)?;
    if rest.len() < 8 {
        return None;
    }
    Some(u64_at(rest, 0))
}
