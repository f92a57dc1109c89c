//! What the walk makes of the records, of which the tables from call on are written.

ghost use Rattle.std.specs.Prelude.{◌≡◌, ◌++◌, ◌∷◌, [], length, OnOk};
ghost use Rattle.listing_tables.specs.Settling.{SettlesFirst, message_at, messages_in, queues_of};
ghost use Rattle.listing_tables.specs.Settling.{TakesSaid, said_by};

use crate::buffers::{Buffer, Buffers};
use crate::handed::Node;
use crate::handles::Handles;
use crate::keys::key_of;
use crate::levels::{Levels, Resource};
use crate::messages::{Detail, Message, Messages, Path, Sent, Settled, unknown_path};
use crate::origin::Origin;
use crate::seen::Seen;
use crate::sends::Sends;
use crate::spans::{Owner, Upid, Utid};
use crate::steps::is_oneway;
use binder_code::Kind;
use capture_frame::Frame;
use listing_fields::{Item, ListingError, Named, Outcome};
use std::alloc::Global;
use transaction_view::{Entry, Transaction};

/// TF_UPDATE_TXN.
const UPDATES: u32 = 0x40;

/// What has come of the records so far.
#[derive(Drop)]
pub(crate) struct Traffic {
    pub messages: Messages,
    sends: Sends,
    pub buffers: Buffers,
    pub handles: Handles,
    pub levels: Levels,
    pub seen: Seen,
}

impl Traffic {
    /// Nothing yet.
    pub(crate) fn new(alloc: Global) -> Traffic {
        Traffic {
            messages: Messages::new(alloc),
            sends: Sends::new(alloc),
            buffers: Buffers::new(alloc),
            handles: Handles::new(alloc),
            levels: Levels::new(alloc),
            seen: Seen::new(alloc),
        }
    }

    /// Takes a frame, before its records.
    pub(crate) fn add_frame(&mut self, frame: Frame<'_>, owner: Owner) -> Outcome {
        self.levels.go_to(frame.sequence);
        self.seen.add_frame(frame, owner)?;
        self.sends.add_frame(owner.utid)
    }

    /// Takes a record, and what it names.
    pub(crate) fn add_item(&mut self, origin: Origin, item: Item<'_>, named: Named) -> Outcome {
        let kind = item.record.kind;
        let generation = self.generation_of(origin, kind, named.handle)?;
        let Some(transaction) = Transaction::of(item.record) else {
            return self.settle(origin, kind, named);
        };
        let oneway = is_oneway(item.record);
        let detail = match kind {
            Kind::BrTransaction | Kind::BrTransactionSecCtx | Kind::BrReply => {
                self.deliver(origin, transaction, item.entry, oneway)?
            }
            _ => self.send(origin, transaction, item.entry, generation)?,
        };
        let key = key_of(transaction, item.entry, origin.device)?;
        self.add_message(origin, kind, oneway, key, detail)
    }

    /// The index of the generation of the handle that a record names, if it names one.
    fn generation_of(
        &mut self,
        origin: Origin,
        kind: Kind,
        handle: Option<u32>,
    ) -> Result<Option<u32>, ListingError> {
        match handle {
            Some(handle) => Ok(Some(self.handles.name(origin, kind, handle, &mut self.levels)?)),
            None => Ok(None),
        }
    }

    fn add_message(
        &mut self,
        origin: Origin,
        kind: Kind,
        oneway: bool,
        key: u64,
        detail: Detail,
    ) -> Outcome
        ensures added { OnOk result (messages_in self.new ≡ messages_in self.old
            ++ message_at origin (length self.old.seen.gaps.items) kind oneway key detail ∷ []) }
        ensures sends { self.new.sends ≡ self.old.sends }
    {
        self.messages.list.push(Message {
            sequence: origin.sequence,
            key,
            place: origin.place,
            utid: origin.utid,
            gaps: self.seen.gaps()?,
            kind,
            oneway,
            call: None,
            partner: None,
            detail,
        })?;
        Ok(())
    }

    /// What is known of a send, which waits to be confirmed.
    fn send(
        &mut self,
        origin: Origin,
        transaction: Transaction<'_>,
        entry: Option<Entry<'_>>,
        generation: Option<u32>,
    ) -> Result<Detail, ListingError> {
        let index = self.messages.list.next()?;
        if let Some(entry) = entry {
            self.handles.take_objects(origin, index, entry, false)?;
        }
        self.sends.add(origin.utid, index)?;
        Ok(Detail::Sent(sent_of(origin, transaction, generation)))
    }

    /// What is known of a delivery.
    fn deliver(
        &mut self,
        origin: Origin,
        transaction: Transaction<'_>,
        entry: Option<Entry<'_>>,
        oneway: bool,
    ) -> Result<Detail, ListingError> {
        let index = self.messages.list.next()?;
        if let Some(entry) = entry {
            self.handles.take_objects(origin, index, entry, true)?;
        }
        self.hold(origin.upid, transaction.data_size())?;
        let path = path_of(origin.upid, transaction, oneway);
        let buffer = Buffer {
            place: origin.place,
            delivery: index,
            sender: transaction.sender_pid(),
            size: transaction.data_size(),
            freed: None,
            freed_in: 0,
            path: self.messages.index_of(path)?,
            held: 0,
            earlier: None,
        };
        let key = (origin.upid.index, transaction.buffer());
        Ok(Detail::Delivered(self.buffers.deliver(key, buffer)?))
    }

    /// A process holds one more buffer, of this size.
    fn hold(&mut self, upid: Upid, size: u64) -> Outcome {
        self.levels.raise(upid, Resource::Buffers, 1)?;
        self.levels.raise(upid, Resource::Bytes, size)
    }

    /// Takes a record that confirms a send, refuses one, or frees a buffer, or that shows whether
    /// sends may be missing.
    fn settle(&mut self, origin: Origin, kind: Kind, named: Named) -> Outcome
        ensures { OnOk result (
            TakesSaid self.old origin kind self.new (said_by kind origin.place)) }
    {
        let Some(settled) = said_by(kind, origin.place) else {
            return self.take_other(origin, kind, named);
        };
        self.settle_first(origin.utid, settled)?;
        match settled {
            Settled::Refused(_) => self.add_message(origin, kind, false, 0, Detail::Failed),
            Settled::Waiting | Settled::Confirmed(_) => Ok(()),
        }
    }

    /// Takes a record that frees a buffer, or that shows whether sends may be missing.
    fn take_other(&mut self, origin: Origin, kind: Kind, named: Named) -> Outcome
        ensures messages { self.new.messages ≡ self.old.messages }
        ensures sends { self.new.sends ≡ self.old.sends }
    {
        match kind {
            Kind::BcFreeBuffer => match named.address {
                Some(address) => self.free(origin, address),
                None => Ok(()),
            },
            Kind::BrIncrefs | Kind::BrAcquire => self.refer(origin, named),
            Kind::BcEnterLooper | Kind::BcRegisterLooper => {
                self.seen.take_calls(origin.utid, origin.place)
            }
            _ => Ok(()),
        }
    }

    /// Takes a record by which the driver tells of references to a node.
    fn refer(&mut self, origin: Origin, named: Named) -> Outcome
        ensures messages { self.new.messages ≡ self.old.messages }
        ensures sends { self.new.sends ≡ self.old.sends }
    {
        let (Some(ptr), Some(cookie)) = (named.ptr, named.cookie) else {
            return Ok(());
        };
        let upid = origin.upid;
        let node = self.handles.handed.index_of(Node { upid, ptr, cookie })?;
        self.seen.refer(origin.utid, node, origin.place)
    }

    /// Settles the first send of a thread that waits for it, if one does.
    fn settle_first(&mut self, utid: Utid, settled: Settled) -> Outcome
        ensures settled { OnOk result (SettlesFirst self.old utid.index settled
            (queues_of self.new.sends) (messages_in self.new)) }
        ensures seen { self.new.seen ≡ self.old.seen }
    {
        match self.sends.take_first(utid)? {
            Some(send) => self.messages.settle(send, settled),
            None => Ok(()),
        }
    }

    /// Frees all buffers at an address of a process that are not freed.
    fn free(&mut self, origin: Origin, address: u64) -> Outcome
        ensures messages { self.new.messages ≡ self.old.messages }
        ensures sends { self.new.sends ≡ self.old.sends }
    {
        let key = (origin.upid.index, address);
        let first = self.buffers.freed.next()?;
        self.buffers.free(key, origin.place, origin.sequence)?;
        for at in first..self.buffers.freed.next()? {
            self.let_go(at, origin)?;
        }
        Ok(())
    }

    /// Lets go of what a buffer held: the one with this number among the freed ones.
    fn let_go(&mut self, at: u32, origin: Origin) -> Outcome
        ensures messages { self.new.messages ≡ self.old.messages }
        ensures sends { self.new.sends ≡ self.old.sends }
    {
        let buffer = self.buffers.freed_at(at)?;
        self.handles.let_go(buffer.delivery, origin.place)?;
        self.levels.lower(origin.upid, Resource::Buffers, 1)?;
        self.levels.lower(origin.upid, Resource::Bytes, buffer.size)
    }
}

/// A send that waits to be confirmed.
fn sent_of(origin: Origin, transaction: Transaction<'_>, generation: Option<u32>) -> Sent {
    Sent {
        process: origin.process,
        code: transaction.code(),
        handle: transaction.target_handle(),
        settled: Settled::Waiting,
        generation,
        updates: transaction.flags() & UPDATES != 0,
        fits: 0,
        certain: false,
    }
}

/// The path of a delivery. That of a reply is the path of replies to unknown calls, until the calls
/// are found.
fn path_of(upid: Upid, transaction: Transaction<'_>, oneway: bool) -> Path {
    match transaction.carrier.kind {
        Kind::BrReply => unknown_path(upid),
        _ => Path {
            upid,
            sort: u8::from(oneway),
            code: transaction.code(),
            target: transaction.target_ptr(),
            cookie: transaction.cookie(),
        },
    }
}

/// What a record of this kind, at this place, says to the first send of its thread that waits.
fn said_by(kind: Kind, place: u32) -> Option<Settled>
    ensures { result ≡ said_by kind place }
{
    match kind {
        Kind::BrDeadReply | Kind::BrFailedReply | Kind::BrFrozenReply => {
            Some(Settled::Refused(place))
        }
        Kind::BrTransactionComplete
        | Kind::BrOnewaySpamSuspect
        | Kind::BrTransactionPendingFrozen => Some(Settled::Confirmed(place)),
        _ => None,
    }
}
