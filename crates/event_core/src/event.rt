ghost use Rattle.std.specs.Prelude.{◌≡◌, ◌↔◌, ◌+◌, ◌<◌, ◌^◌, length, IsTrue, IsSome, Ok};
ghost use Rattle.std.specs.Option.{ForSome};
ghost use Rattle.binder_code.specs.Commands.{kind_of, protocol_of_word, row_of};
ghost use Rattle.transaction_view.specs.Transaction.{has_transaction_data};

use binder_code::{Code, Kind};
use capture_frame::{Process, Thread};
use transaction_view::{Entry, Transaction};

/// A record of a capture, with the process and the thread that wrote or read it. The payload and
/// the attachment are the capture's own bytes. All places in the record fit 64 bits (`fits`).
#[derive(Clone, Copy)]
pub struct Event<'c> {
    /// Where the record's code begins in the capture, in bytes.
    pub place: u64,
    /// The Binder device of its frame.
    pub device: u32,
    /// The process of its frame.
    pub process: u32,
    /// The thread of its frame.
    pub thread: u32,
    /// What the code word means.
    pub kind: Kind,
    /// The code word as read. Opaque records differ in it.
    pub code: Code,
    /// The bytes after the code.
    pub payload: &'c [u8],
    /// The fields of a transaction or a reply; None for every other record.
    pub transaction: Option<Transaction<'c>>,
    /// Its attachment, where the capture has one.
    pub entry: Option<Entry<'c>>,
    ghost fits: { place + 4 + length payload.now < 2 ^ 64 },
    // The kind is what the code means, in the protocol that its letter names.
    ghost by_code: { kind_of (protocol_of_word code.0) code.0 ≡ Ok kind },
    // The payload of a listed kind is as long as the header says.
    ghost sized: { ForSome (row_of kind) (λ row. length payload.now ≡ row.size) },
    // Exactly the seven kinds of transactions and replies have the fields, and they are this
    // record's.
    ghost carries: { IsSome transaction ↔ IsTrue (has_transaction_data kind) },
    ghost same_place: { ForSome transaction (λ found. found.carrier.place ≡ place) },
    ghost same_kind: { ForSome transaction (λ found. found.carrier.kind ≡ kind) },
    ghost same_code: { ForSome transaction (λ found. found.carrier.code.0 ≡ code.0) },
    ghost same_payload: { ForSome transaction (λ found. found.carrier.payload.now ≡ payload.now) },
    // The attachment is this record's.
    ghost owned: { ForSome entry (λ found. found.owner ≡ place) },
}

impl<'c> Event<'c> {
    ghost use Rattle.event_core.specs.Events.{process_of, thread_of};
    ghost use Rattle.event_core.specs.Reading.{event_text};

    /// The process that wrote or read it.
    pub fn of_process(self) -> Process
        ensures { result ≡ process_of (event_text self.entry) }
    {
        Process {
            device: self.device,
            number: self.process,
        }
    }

    /// The thread that wrote or read it.
    pub fn of_thread(self) -> Thread
        ensures { result ≡ thread_of (event_text self.entry) }
    {
        Thread {
            process: self.of_process(),
            number: self.thread,
        }
    }

    /// The fields that a transaction or a reply has.
    pub(crate) fn fields(self) -> Transaction<'c>
        requires { IsTrue (has_transaction_data self.kind) }
        ensures { result.carrier.payload.now ≡ self.entry.payload.now }
    {
        self.transaction.unwrap()
    }
}
