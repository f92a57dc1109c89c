//! Buffers that the driver delivers to a process, and that the process frees.

ghost use Rattle.std.specs.Prelude.{◌≡◌};
ghost use Rattle.event_core.specs.Buffers.{buffer_item, buffer_pending};

use crate::event::Event;
use crate::pending::{KeyEvent, PendingChange};
use binder_code::Kind;
use capture_frame::u64_at;

/// What a record does to the buffer at an address of its process.
#[derive(Clone, Copy)]
pub enum BufferItem {
    /// The driver delivers a transaction or a reply in it.
    Delivery {
        /// Where the record begins in the capture, in bytes.
        place: u64,
        address: u64,
        /// How many bytes of data are delivered.
        data_size: u64,
        kind: Kind,
    },
    /// The process frees it.
    Free {
        /// Where the record begins in the capture, in bytes.
        place: u64,
        address: u64,
    },
}

impl BufferItem {
    /// Its address, and the same as an open or a close of it.
    pub fn pending(self) -> (u64, KeyEvent)
        ensures { result ≡ buffer_pending self }
    {
        let (address, place, change) = match self {
            BufferItem::Delivery { place, address, .. } => (address, place, PendingChange::Open),
            BufferItem::Free { place, address } => (address, place, PendingChange::Close),
        };
        (address, KeyEvent { place, change })
    }
}

/// The delivery of a BR_TRANSACTION, BR_TRANSACTION_SEC_CTX or BR_REPLY, or the free of a
/// BC_FREE_BUFFER; None for every other event.
pub fn buffer_step(event: Event<'_>) -> Option<BufferItem>
    ensures { result ≡ buffer_item event.entry.place event.entry.kind event.entry.payload.now }
{
    match event.kind {
        Kind::BrTransaction | Kind::BrTransactionSecCtx | Kind::BrReply => {
            let transaction = event.fields();
            Some(BufferItem::Delivery {
                place: event.place,
                address: transaction.buffer(),
                data_size: transaction.data_size(),
                kind: event.kind,
            })
        }
        Kind::BcFreeBuffer => Some(BufferItem::Free {
            place: event.place,
            address: u64_at(event.payload, 0),
        }),
        _ => None,
    }
}
