//! Oneway transactions, and how many bytes of data they say that they have.

ghost use Rattle.std.specs.Prelude.{◌≡◌};
ghost use Rattle.event_core.specs.Oneway.{has_one_way, oneway_under, oneway_item};

use crate::event::Event;
use binder_code::Kind;
use transaction_view::Transaction;

/// `TF_ONE_WAY` of a transaction's flags.
const ONE_WAY: u32 = 0x01;

/// What a oneway transaction is counted under: sent, with the handle that it goes to; or received.
#[derive(Clone, Copy, Debug, PartialEq, Eq, PartialOrd, Ord, Hash)]
pub enum OnewayKey {
    Sent(u32),
    Received,
}

/// Whether the flags have TF_ONE_WAY.
pub(crate) fn has_one_way(transaction: Transaction<'_>) -> bool
    ensures { result ≡ has_one_way transaction.entry.carrier.payload.now }
{
    transaction.flags() & ONE_WAY != 0
}

/// This key and how many bytes of data the transaction says that it has, if it is a oneway one.
fn item_of(transaction: Transaction<'_>, key: OnewayKey) -> Option<(OnewayKey, u64)>
    ensures { result ≡ oneway_under key transaction.entry.carrier.payload.now }
{
    if has_one_way(transaction) {
        Some((key, transaction.data_size()))
    } else {
        None
    }
}

/// What a transaction that is sent or received with TF_ONE_WAY is counted under, and its data_size;
/// None for every other event, replies among them.
pub fn oneway_step(event: Event<'_>) -> Option<(OnewayKey, u64)>
    ensures { result ≡ oneway_item event.entry.kind event.entry.payload.now }
{
    match event.kind {
        Kind::BcTransaction | Kind::BcTransactionSg => {
            let transaction = event.fields();
            item_of(transaction, OnewayKey::Sent(transaction.target_handle()))
        }
        Kind::BrTransaction | Kind::BrTransactionSecCtx => {
            item_of(event.fields(), OnewayKey::Received)
        }
        _ => None,
    }
}
