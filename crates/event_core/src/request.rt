//! Requests for a death notification: the driver then reports when what a handle refers to dies.

ghost use Rattle.std.specs.Prelude.{◌≡◌, ◌≤◌, length};
ghost use Rattle.event_core.specs.Requests.{request_item, request_key};

use crate::event::Event;
use binder_code::Kind;
use capture_frame::{u32_at, u64_at};

/// A handle and the cookie that its process chose, `struct binder_handle_cookie` of
/// `linux/android/binder.h`, which is packed.
#[derive(Clone, Copy, PartialEq, Eq, PartialOrd, Ord)]
pub struct RequestKey {
    pub handle: u32,
    pub cookie: u64,
}

impl RequestKey {
    /// The handle and the cookie of a payload of 12 bytes.
    pub(crate) fn of(payload: &[u8]) -> RequestKey
        requires { 12 ≤ length payload.now }
        ensures { result ≡ request_key payload.now }
    {
        RequestKey {
            handle: u32_at(payload, 0),
            cookie: u64_at(payload, 4),
        }
    }
}

/// What a record does to the requests of its process.
#[derive(Clone, Copy)]
pub enum RequestChange {
    /// The process makes one.
    Request(RequestKey),
    /// The process takes back those of this handle and cookie.
    Clear(RequestKey),
    /// The driver reports a death. The record names no handle, so every request of this cookie
    /// counts as answered.
    Dead { cookie: u64 },
}

/// A change of the requests of a process, with the place of the record that makes it.
#[derive(Clone, Copy)]
pub struct RequestItem {
    /// Where the record begins in the capture, in bytes.
    pub place: u64,
    pub change: RequestChange,
}

/// The change that a BC_REQUEST_DEATH_NOTIFICATION, BC_CLEAR_DEATH_NOTIFICATION or BR_DEAD_BINDER
/// makes; None for every other event.
pub fn request_step(event: Event<'_>) -> Option<RequestItem>
    ensures { result ≡ request_item event.entry.place event.entry.kind event.entry.payload.now }
{
    let change = match event.kind {
        Kind::BcRequestDeathNotification => RequestChange::Request(RequestKey::of(event.payload)),
        Kind::BcClearDeathNotification => RequestChange::Clear(RequestKey::of(event.payload)),
        Kind::BrDeadBinder => RequestChange::Dead {
            cookie: u64_at(event.payload, 0),
        },
        _ => return None,
    };
    Some(RequestItem {
        place: event.place,
        change,
    })
}
