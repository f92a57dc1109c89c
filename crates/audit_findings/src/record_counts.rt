//! The first numbers of the heads from `buffers` to `clears`.

ghost use Rattle.std.specs.Prelude.{◌≡◌, ◌<◌, ◌^◌, List, length};
ghost use Rattle.event_core.specs.Events.{EventRead};
ghost use Rattle.audit_findings.specs.CodeCounts.{CountWords};
ghost use Rattle.audit_findings.specs.Codes.{code_words};
ghost use Rattle.audit_findings.specs.RecordCounts.{record_counts};

use crate::code_counts::CodeCounts;
use binder_code::Kind;

/// How many records of these kinds there are.
#[derive(Clone, Copy, Debug)]
pub struct RecordCounts {
    /// BR_TRANSACTION, BR_TRANSACTION_SEC_CTX and BR_REPLY: the driver delivers a buffer.
    pub deliveries: u64,
    /// BC_FREE_BUFFER.
    pub frees: u64,
    /// BC_REQUEST_DEATH_NOTIFICATION.
    pub requests: u64,
    /// BR_DEAD_BINDER.
    pub deaths: u64,
    /// BC_CLEAR_DEATH_NOTIFICATION.
    pub clears: u64,
}

/// The counts of the records whose code words are counted.
pub(crate) fn record_counts(codes: &CodeCounts) -> RecordCounts
    requires { (events : List EventRead) × CountWords codes.now (code_words events)
        × (length events < 2 ^ 64) }
    ensures { (events : List EventRead) → CountWords codes.now (code_words events) →
        result ≡ record_counts (code_words events) }
{
    RecordCounts {
        deliveries: codes.count(Kind::BrTransaction)
            + codes.count(Kind::BrTransactionSecCtx)
            + codes.count(Kind::BrReply),
        frees: codes.count(Kind::BcFreeBuffer),
        requests: codes.count(Kind::BcRequestDeathNotification),
        deaths: codes.count(Kind::BrDeadBinder),
        clears: codes.count(Kind::BcClearDeathNotification),
    }
}
