//! The marks and the brackets of a thread.

ghost use Rattle.std.specs.Prelude.{◌≡◌};
ghost use Rattle.event_core.specs.Brackets.{is_oneway, mark_of, bracket_of, sent_mark, received_mark, unless_oneway, error_reply};

use crate::event::Event;
use crate::marks::{Bracket, Mark};
use crate::oneway::has_one_way;
use binder_code::Kind;

/// Whether an event is a transaction, sent or received, with TF_ONE_WAY. On a reply the flag says
/// nothing.
pub fn is_oneway(event: Event<'_>) -> bool
    ensures { result ≡ is_oneway event.entry.kind event.entry.payload.now }
{
    match event.kind {
        Kind::BcTransaction
        | Kind::BcTransactionSg
        | Kind::BrTransaction
        | Kind::BrTransactionSecCtx => has_one_way(event.fields()),
        _ => false,
    }
}

/// The mark that an event leaves in its thread; None if it leaves none.
pub fn mark(event: Event<'_>) -> Option<Mark>
    ensures { result ≡
        mark_of event.entry.kind (is_oneway event.entry.kind event.entry.payload.now) }
{
    mark_of(event.kind, is_oneway(event))
}

/// The mark that a record of this kind leaves; `oneway` says whether it is a oneway transaction.
pub fn mark_of(kind: Kind, oneway: bool) -> Option<Mark>
    ensures { result ≡ mark_of kind oneway }
{
    match kind {
        Kind::BcTransaction | Kind::BcTransactionSg => sent_mark(oneway),
        Kind::BrTransaction | Kind::BrTransactionSecCtx => received_mark(oneway),
        Kind::BcReply | Kind::BcReplySg => Some(Mark::SentReply),
        Kind::BrReply
        | Kind::BrTransactionComplete
        | Kind::BrOnewaySpamSuspect
        | Kind::BrTransactionPendingFrozen
        | Kind::BrDeadReply
        | Kind::BrFailedReply
        | Kind::BrFrozenReply => Some(Mark::Other),
        _ => None,
    }
}

/// The mark of a transaction that its thread sends.
fn sent_mark(oneway: bool) -> Option<Mark>
    ensures { result ≡ sent_mark oneway }
{
    if oneway {
        Some(Mark::Oneway)
    } else {
        Some(Mark::Other)
    }
}

/// The mark of a transaction that its thread gets.
fn received_mark(oneway: bool) -> Option<Mark>
    ensures { result ≡ received_mark oneway }
{
    if oneway { None } else { Some(Mark::Other) }
}

/// What an event is among the calls of its thread, where `last` is the latest mark before it.
pub fn bracket(last: Option<Mark>, event: Event<'_>) -> Bracket
    ensures { result ≡
        bracket_of last event.entry.kind (is_oneway event.entry.kind event.entry.payload.now) }
{
    bracket_of(last, event.kind, is_oneway(event))
}

/// What a record of this kind is among the calls of its thread, where `last` is the latest mark
/// before it; `oneway` says whether it is a oneway transaction.
pub fn bracket_of(last: Option<Mark>, kind: Kind, oneway: bool) -> Bracket
    ensures { result ≡ bracket_of last kind oneway }
{
    match kind {
        Kind::BcTransaction | Kind::BcTransactionSg => opener(oneway, Bracket::Call),
        Kind::BrTransaction | Kind::BrTransactionSecCtx => opener(oneway, Bracket::Served),
        Kind::BrReply => Bracket::Reply,
        Kind::BcReply | Kind::BcReplySg => Bracket::Sent,
        Kind::BrDeadReply | Kind::BrFailedReply | Kind::BrFrozenReply => error_reply(last),
        _ => Bracket::Neither,
    }
}

/// The bracket of a transaction: this opener, unless it is a oneway one.
fn opener(oneway: bool, bracket: Bracket) -> Bracket
    ensures { result ≡ unless_oneway bracket oneway }
{
    if oneway { Bracket::Neither } else { bracket }
}

/// The bracket of an error reply: it reports that the thread's last send was refused, or closes a
/// call.
fn error_reply(last: Option<Mark>) -> Bracket
    ensures { result ≡ error_reply last }
{
    match last {
        Some(Mark::Oneway) | Some(Mark::SentReply) => Bracket::Refused,
        Some(Mark::Other) | None => Bracket::Error,
    }
}
