//! Which records concern a ledger of their process.

ghost use Rattle.std.specs.Prelude.{◌≡◌};
ghost use Rattle.process_ledgers.specs.Concerns.{concerns};

use binder_code::Kind;

/// Whether records of the kind can be items of some ledger of their process. Most events concern no
/// ledger, and one look at the kind passes all seven.
#[inline(always)]
pub fn concerns(kind: Kind) -> bool
    ensures { result ≡ concerns kind }
{
    matches!(
        kind,
        Kind::BcTransaction
            | Kind::BcTransactionSg
            | Kind::BcFreeBuffer
            | Kind::BcIncrefs
            | Kind::BcAcquire
            | Kind::BcRelease
            | Kind::BcDecrefs
            | Kind::BcIncrefsDone
            | Kind::BcAcquireDone
            | Kind::BcRequestDeathNotification
            | Kind::BcClearDeathNotification
            | Kind::BcDeadBinderDone
            | Kind::BrTransaction
            | Kind::BrTransactionSecCtx
            | Kind::BrReply
            | Kind::BrIncrefs
            | Kind::BrAcquire
            | Kind::BrRelease
            | Kind::BrDecrefs
            | Kind::BrDeadBinder
            | Kind::BrClearDeathNotificationDone
    )
}
