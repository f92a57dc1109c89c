//! Commands and returns of a `linux/android/binder.h` that is newer than the auditor's: the freeze
//! notifications of Linux 6.12. The auditor's header does not list their numbers, so their records
//! are opaque to it.

use binder_code::Kind;
use record_view::Record;

/// A command or return that is newer than the auditor's header.
#[derive(Clone, Copy)]
pub(crate) enum NewerKind {
    BcRequestFreezeNotification,
    BcClearFreezeNotification,
    BcFreezeNotificationDone,
    BrFrozenBinder,
    BrClearFreezeNotificationDone,
}

/// The kind of a record that is newer than the auditor's header; `None` of any other record. The code
/// words are those that the macros of that header compute.
pub(crate) fn newer_kind(record: Record<'_>) -> Option<NewerKind> {
    if record.kind != Kind::Opaque {
        return None;
    }
    match record.code.0 {
        0x400c6313 => Some(NewerKind::BcRequestFreezeNotification),
        0x400c6314 => Some(NewerKind::BcClearFreezeNotification),
        0x40086315 => Some(NewerKind::BcFreezeNotificationDone),
        0x80107215 => Some(NewerKind::BrFrozenBinder),
        0x80087216 => Some(NewerKind::BrClearFreezeNotificationDone),
        _ => None,
    }
}

/// Whether a record has no name.
pub fn is_unnamed(record: Record<'_>) -> bool {
    record.kind == Kind::Opaque && newer_kind(record).is_none()
}
