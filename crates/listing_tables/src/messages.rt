//! What threads send and get: the records that open and close calls, and what became of them.

ghost use Rattle.std.specs.Prelude.{◌≡◌, ◌∷◌, [], option_map, Some, IfOk, OnOk};
ghost use Rattle.std.specs.Bool.{OnFalse, OnTrue};
ghost use Rattle.listing_tables.specs.Columns.{AddsRows, WritesRows, number_at};
ghost use Rattle.listing_tables.specs.Messages.{IsCallRow, buffer_row, call_columns, closed_after};
ghost use Rattle.listing_tables.specs.Messages.{confirmed_by, delivery_columns, delivery_row, delivery_rows};
ghost use Rattle.listing_tables.specs.Messages.{freed_after, if_known, is_answer, place_for, place_of_message, refused_by, send_columns};
ghost use Rattle.listing_tables.specs.Messages.{send_row, send_rows};
ghost use Rattle.listing_tables.specs.Numbered.{thing_at};
ghost use Rattle.listing_tables.specs.Changes.{Changes, Couples, IsSendAt, Rates};
ghost use Rattle.listing_tables.specs.Changes.{sent_as, settled_as, with_detail, with_partner};
ghost use Rattle.listing_tables.specs.Certainty.{AreAlike};
ghost use Rattle.listing_tables.specs.Decisions.{LeadsTo};

use crate::buffers::{Buffer, Buffers};
use crate::calls::{Call, Closer, verdict_number};
use crate::handed::Node;
use crate::numbered::{Numbered, byte_of, difference, narrow};
use crate::rows::{Column, RowWriter, columns};
use crate::spans::{Upid, Utid};
use binder_code::Kind;
use indexmap::IndexSet;
use listing_fields::{ListingError, Outcome};
use std::alloc::Global;
use std::io::Write;

/// A transaction or a reply that a thread sends or gets, or an error reply.
#[derive(Clone, Copy)]
pub(crate) struct Message {
    pub sequence: u64,
    /// By it the delivery of a send is recognised.
    pub key: u64,
    pub place: u32,
    pub utid: Utid,
    /// How many gaps in the sequences come before it.
    pub gaps: u32,
    pub kind: Kind,
    /// Whether it is a transaction with TF_ONE_WAY.
    pub oneway: bool,
    /// The index of the call that it opens or closes.
    pub call: Option<u32>,
    /// The index of the delivery of a send, or of the send of a delivery.
    pub partner: Option<u32>,
    pub detail: Detail,
}

/// What is known of a send, or of a delivery.
#[derive(Clone, Copy)]
pub(crate) enum Detail {
    Sent(Sent),
    /// The index of the buffer that a delivery brings.
    Delivered(u32),
    /// It is an error reply.
    Failed,
}

/// What is known of a send.
#[derive(Clone, Copy)]
pub(crate) struct Sent {
    /// The number of its process in the frames.
    pub process: u32,
    pub code: u32,
    pub handle: u32,
    pub settled: Settled,
    /// The index of the generation of its target.
    pub generation: Option<u32>,
    /// Whether it may take the place of one before it: TF_UPDATE_TXN.
    pub updates: bool,
    /// How many sends fit its delivery, and whether this one is certain.
    pub fits: u8,
    pub certain: bool,
}

/// What the driver said to a send, with the place of the record that says it.
#[derive(Clone, Copy)]
pub(crate) enum Settled {
    Waiting,
    Confirmed(u32),
    Refused(u32),
}

/// What deliveries have in common that came the same way.
#[derive(Clone, Copy, PartialEq, Eq, Hash)]
pub(crate) struct Path {
    pub upid: Upid,
    /// 0 a call, 1 a oneway transaction, 2 the reply to a known call, 3 another reply.
    pub sort: u8,
    pub code: u32,
    /// The ptr of the target; for a reply to a known call the handle of that call.
    pub target: u64,
    pub cookie: u64,
}

/// The path of replies to unknown calls.
pub(crate) fn unknown_path(upid: Upid) -> Path {
    Path {
        upid,
        sort: 3,
        code: 0,
        target: 0,
        cookie: 0,
    }
}

/// All messages, in the order of their places.
#[derive(Drop)]
pub(crate) struct Messages {
    pub list: Numbered<Message>,
    paths: IndexSet<Path>,
}

impl Messages {
    pub(crate) fn new(alloc: Global) -> Messages {
        Messages {
            list: Numbered::new(alloc),
            paths: IndexSet::new(alloc),
        }
    }

    /// The index of a path.
    pub(crate) fn index_of(&mut self, path: Path) -> Result<u32, ListingError> {
        let (index, _) = self.paths.insert_full(path)?;
        narrow(index as u64)
    }

    /// The node that transactions of this path go to. It is not for replies.
    pub(crate) fn node_of(&self, path: u32) -> Result<Node, ListingError>
        ensures { IfOk result (LeadsTo self.now path) }
    {
        match self.paths.get_index(path as usize) {
            Some(path) => Ok(Node {
                upid: path.upid,
                ptr: path.target,
                cookie: path.cookie,
            }),
            None => Err(ListingError::TooLarge),
        }
    }

    /// The send at this index.
    pub(crate) fn sent(&self, index: u32) -> Result<Sent, ListingError>
        ensures { IfOk result (IsSendAt self.now.list.all.items index) }
    {
        let message = self.list.at(index)?;
        match message.detail {
            Detail::Sent(sent) => Ok(sent),
            _ => Err(ListingError::TooLarge),
        }
    }

    fn set(&mut self, index: u32, sent: Sent) -> Outcome
        ensures { OnOk result (Changes self.old.list.all.items self.new.list.all.items index
            (with_detail (sent_as sent))) }
    {
        let message = self.list.at(index)?;
        let detail = Detail::Sent(sent);
        self.list.set(index, Message { detail, ..message })
    }

    /// Notes what the driver said to a send.
    pub(crate) fn settle(&mut self, index: u32, settled: Settled) -> Outcome
        ensures { OnOk result (Changes self.old.list.all.items self.new.list.all.items index
            (with_detail (settled_as settled))) }
    {
        let sent = self.sent(index)?;
        self.set(index, Sent { settled, ..sent })
    }

    /// Notes how many sends fit the delivery of a send, and whether this one is certain.
    pub(crate) fn rate(&mut self, index: u32, fits: u32, certain: bool) -> Outcome
        ensures { OnOk result (
            Rates self.old.list.all.items self.new.list.all.items index fits certain) }
    {
        let sent = self.sent(index)?;
        let count = byte_of(fits)?;
        let rated = Sent {
            fits: count,
            certain,
            ..sent
        };
        self.set(index, rated)
    }

    /// Makes a send and a delivery partners.
    pub(crate) fn couple(&mut self, send: u32, delivery: u32) -> Outcome
        ensures { OnOk result (
            Couples self.old.list.all.items self.new.list.all.items send delivery) }
    {
        self.set_partner(send, delivery)?;
        self.set_partner(delivery, send)
    }

    fn set_partner(&mut self, index: u32, partner: u32) -> Outcome
        ensures { OnOk result (Changes self.old.list.all.items self.new.list.all.items index
            (with_partner partner)) }
    {
        let message = self.list.at(index)?;
        let partner = Some(partner);
        self.list.set(index, Message { partner, ..message })
    }

    /// Whether two messages have the same key.
    pub(crate) fn are_alike(&self, one: Closer, other: Closer) -> Result<bool, ListingError>
        ensures alike { IfOk result (λ alike. OnTrue alike (AreAlike self.now one other)) }
        ensures other { IfOk result (λ alike. OnFalse alike (AreAlike self.now one other → ⊥)) }
    {
        let first = self.list.at(one.message)?;
        let second = self.list.at(other.message)?;
        Ok(first.key == second.key)
    }

    /// The place of the partner of a message, if one is found.
    fn partner_place(&self, message: &Message) -> Result<Option<u32>, ListingError>
        ensures { IfOk result (λ place. place ≡
            place_of_message (thing_at self.now.list.all.items message.now.partner)) }
    {
        match self.list.find(message.partner)? {
            Some(partner) => Ok(Some(partner.place)),
            None => Ok(None),
        }
    }

    /// Writes the rows of the table call.
    pub(crate) fn write_calls<W: Write + Drop>(
        &self,
        calls: &Numbered<Call>,
        rows: &mut RowWriter<W>,
    ) -> Outcome
        ensures { OnOk result (AddsRows (IsCallRow self.now.list.all.items) rows.old rows.new
            calls.now.all.items) }
    {
        for index in 0..calls.next()? {
            let call = calls.at(index)?;
            self.write_call(&call, rows)?;
        }
        Ok(())
    }

    /// Writes the row of a call.
    fn write_call<W: Write + Drop>(&self, call: &Call, rows: &mut RowWriter<W>) -> Outcome
        ensures { OnOk result (AddsRows (IsCallRow self.now.list.all.items) rows.old rows.new
            (call.now ∷ [])) }
    {
        let opener = self.list.at(call.opener)?;
        let duration = self.closed_after(call, opener.sequence)?;
        rows.push(&call_columns(call, &opener, duration))
    }

    /// How many sequences after this one a call is closed.
    fn closed_after(&self, call: &Call, sequence: u64) -> Result<Option<u64>, ListingError>
        ensures { IfOk result (λ duration. duration ≡
            closed_after self.now.list.all.items call.now sequence) }
    {
        match call.closer {
            Some(closer) => {
                let closed = self.list.at(closer.message)?.sequence;
                Ok(Some(difference(closed, sequence)?))
            }
            None => Ok(None),
        }
    }

    /// Writes the rows of the table send.
    pub(crate) fn write_sends<W: Write + Drop>(&self, rows: &mut RowWriter<W>) -> Outcome
        ensures { OnOk result (WritesRows rows.old rows.new (send_rows self.now.list.all.items)) }
    {
        for index in 0..self.list.next()? {
            let message = self.list.at(index)?;
            self.write_send(&message, rows)?;
        }
        Ok(())
    }

    /// Writes the row of a message, if it is a send.
    fn write_send<W: Write + Drop>(&self, message: &Message, rows: &mut RowWriter<W>) -> Outcome
        ensures { OnOk result (WritesRows rows.old rows.new
            (send_row self.now.list.all.items message.now message.now.detail)) }
    {
        match message.detail {
            Detail::Sent(sent) => {
                let partner = self.partner_place(message)?;
                rows.push(&send_columns(message, sent, partner))
            }
            _ => Ok(()),
        }
    }

    /// Writes the rows of the table delivery.
    pub(crate) fn write_deliveries<W: Write + Drop>(
        &self,
        buffers: &Buffers,
        calls: &Numbered<Call>,
        rows: &mut RowWriter<W>,
    ) -> Outcome
        ensures { OnOk result (WritesRows rows.old rows.new
            (delivery_rows self.now.list.all.items buffers.now.list.all.items calls.now.all.items)) }
    {
        for index in 0..self.list.next()? {
            let message = self.list.at(index)?;
            self.write_delivery(&message, buffers, calls, rows)?;
        }
        Ok(())
    }

    /// Writes the row of a message, if it is a delivery.
    fn write_delivery<W: Write + Drop>(
        &self,
        message: &Message,
        buffers: &Buffers,
        calls: &Numbered<Call>,
        rows: &mut RowWriter<W>,
    ) -> Outcome
        ensures { OnOk result (WritesRows rows.old rows.new
            (delivery_row self.now.list.all.items buffers.now.list.all.items calls.now.all.items
            message.now message.now.detail)) }
    {
        match message.detail {
            Detail::Delivered(index) => {
                let buffer = buffers.list.at(index)?;
                self.write_buffer(message, &buffer, calls, rows)
            }
            _ => Ok(()),
        }
    }

    /// Writes the row of a delivery with this buffer.
    fn write_buffer<W: Write + Drop>(
        &self,
        message: &Message,
        buffer: &Buffer,
        calls: &Numbered<Call>,
        rows: &mut RowWriter<W>,
    ) -> Outcome
        ensures { OnOk result (WritesRows rows.old rows.new
            (buffer_row self.now.list.all.items calls.now.all.items message.now (Some buffer.now))) }
    {
        let duration = buffer.freed_after(message.sequence)?;
        let call = place_for(message.kind, calls.find(message.call)?);
        let partner = self.partner_place(message)?;
        rows.push(&delivery_columns(message, buffer, duration, call, partner))
    }
}

fn call_columns(call: &Call, opener: &Message, duration: Option<u64>) -> [Column<'static>; 9]
    ensures { result ≡ call_columns call.now opener.now duration }
{
    columns! {
        place: call.place,
        seq: opener.sequence,
        utid: opener.utid,
        served: u64::from(call.served),
        depth: call.depth,
        parent: call.parent,
        verdict: verdict_number(call.verdict),
        closer: call.end(),
        dur_seq: duration,
    }
}

fn send_columns(message: &Message, sent: Sent, partner: Option<u32>) -> [Column<'static>; 9]
    ensures { result ≡ send_columns message.now sent partner }
{
    columns! {
        place: message.place,
        seq: message.sequence,
        utid: message.utid,
        generation: number_of(sent.generation),
        confirmed: confirmed_by(sent.settled),
        refused: refused_by(sent.settled),
        delivery: partner,
        certain: if_known(partner, u64::from(sent.certain)),
        fits: if_known(partner, u64::from(sent.fits)),
    }
}

/// The number of the generation at an index, if one is known.
fn number_of(generation: Option<u32>) -> Option<u64>
    ensures { result ≡ option_map number_at generation }
{
    match generation {
        Some(index) => Some(u64::from(index) + 1),
        None => None,
    }
}

/// The place of the record that confirms a send.
fn confirmed_by(settled: Settled) -> Option<u32>
    ensures { result ≡ confirmed_by settled }
{
    match settled {
        Settled::Confirmed(place) => Some(place),
        Settled::Waiting | Settled::Refused(_) => None,
    }
}

/// The place of the record that refuses a send.
fn refused_by(settled: Settled) -> Option<u32>
    ensures { result ≡ refused_by settled }
{
    match settled {
        Settled::Refused(place) => Some(place),
        Settled::Waiting | Settled::Confirmed(_) => None,
    }
}

/// This number, if a place is known.
fn if_known(known: Option<u32>, number: u64) -> Option<u64>
    ensures { result ≡ if_known known number }
{
    match known {
        Some(_) => Some(number),
        None => None,
    }
}

fn delivery_columns(
    message: &Message,
    buffer: &Buffer,
    duration: Option<u64>,
    call: Option<u32>,
    partner: Option<u32>,
) -> [Column<'static>; 8]
    requires { duration ≡ freed_after buffer.now message.now.sequence }
    ensures { result ≡ delivery_columns message.now buffer.now call partner }
{
    columns! {
        place: buffer.place,
        seq: message.sequence,
        utid: message.utid,
        freed_by: buffer.freed,
        dur_seq: duration,
        call: call,
        send: partner,
        held: buffer.held,
    }
}

/// The place of a call that a delivery of this kind opens, or that it answers.
fn place_for(kind: Kind, call: Option<Call>) -> Option<u32>
    ensures { result ≡ place_for kind call }
{
    match call {
        Some(call) if is_answer(kind) && !call.is_answered() => None,
        Some(call) => Some(call.place),
        None => None,
    }
}

/// Whether a kind is that of a reply that a thread gets.
fn is_answer(kind: Kind) -> bool
    ensures { result ≡ is_answer kind }
{
    matches!(kind, Kind::BrReply)
}
