ghost use Rattle.std.specs.Prelude.{◌≡◌, ◌≤◌, length, map, option_map, IsAscii};
ghost use Rattle.std.specs.List.{slice_get};

/// What a record is: one of the 41 commands and returns that the header `linux/android/binder.h` of
/// Linux 6.11 lists (protocol version 8), commands first, by their numbers, or a record whose
/// number it does not list.
#[derive(Clone, Copy, Debug, PartialEq, Eq)]
pub enum Kind {
    BcTransaction,
    BcReply,
    BcAcquireResult,
    BcFreeBuffer,
    BcIncrefs,
    BcAcquire,
    BcRelease,
    BcDecrefs,
    BcIncrefsDone,
    BcAcquireDone,
    BcAttemptAcquire,
    BcRegisterLooper,
    BcEnterLooper,
    BcExitLooper,
    BcRequestDeathNotification,
    BcClearDeathNotification,
    BcDeadBinderDone,
    BcTransactionSg,
    BcReplySg,
    BrError,
    BrOk,
    BrTransaction,
    BrTransactionSecCtx,
    BrReply,
    BrAcquireResult,
    BrDeadReply,
    BrTransactionComplete,
    BrIncrefs,
    BrAcquire,
    BrRelease,
    BrDecrefs,
    BrAttemptAcquire,
    BrNoop,
    BrSpawnLooper,
    BrFinished,
    BrDeadBinder,
    BrClearDeathNotificationDone,
    BrFailedReply,
    BrFrozenReply,
    BrOnewaySpamSuspect,
    BrTransactionPendingFrozen,
    /// A record whose number this header does not list for its protocol, for example one that Linux
    /// 6.12 added.
    Opaque,
}

/// A line of the header's two tables.
#[derive(Clone, Copy)]
pub struct Line {
    /// What a record with the code word is.
    pub kind: Kind,
    /// The code word, as the header's macros compute it.
    pub word: u32,
    /// The header's name, such as `BC_TRANSACTION`.
    pub name: &'static str,
}

// Lines, by their kinds, code words and names.
macro_rules! table {
    ($($kind:ident $word:literal $name:literal)*) => {
        [$(Line { kind: Kind::$kind, word: $word, name: $name }),*]
    };
}

// All lines, in the order of the kinds. The command or return with the number n is the line n of
// its table, or the one after it, since two returns have the number 2.
pub(crate) const LISTED: [Line; 41] = table! {
    BcTransaction 0x40406300 "BC_TRANSACTION"
    BcReply 0x40406301 "BC_REPLY"
    BcAcquireResult 0x40046302 "BC_ACQUIRE_RESULT"
    BcFreeBuffer 0x40086303 "BC_FREE_BUFFER"
    BcIncrefs 0x40046304 "BC_INCREFS"
    BcAcquire 0x40046305 "BC_ACQUIRE"
    BcRelease 0x40046306 "BC_RELEASE"
    BcDecrefs 0x40046307 "BC_DECREFS"
    BcIncrefsDone 0x40106308 "BC_INCREFS_DONE"
    BcAcquireDone 0x40106309 "BC_ACQUIRE_DONE"
    BcAttemptAcquire 0x4008630a "BC_ATTEMPT_ACQUIRE"
    BcRegisterLooper 0x0000630b "BC_REGISTER_LOOPER"
    BcEnterLooper 0x0000630c "BC_ENTER_LOOPER"
    BcExitLooper 0x0000630d "BC_EXIT_LOOPER"
    BcRequestDeathNotification 0x400c630e "BC_REQUEST_DEATH_NOTIFICATION"
    BcClearDeathNotification 0x400c630f "BC_CLEAR_DEATH_NOTIFICATION"
    BcDeadBinderDone 0x40086310 "BC_DEAD_BINDER_DONE"
    BcTransactionSg 0x40486311 "BC_TRANSACTION_SG"
    BcReplySg 0x40486312 "BC_REPLY_SG"
    BrError 0x80047200 "BR_ERROR"
    BrOk 0x00007201 "BR_OK"
    BrTransaction 0x80407202 "BR_TRANSACTION"
    BrTransactionSecCtx 0x80487202 "BR_TRANSACTION_SEC_CTX"
    BrReply 0x80407203 "BR_REPLY"
    BrAcquireResult 0x80047204 "BR_ACQUIRE_RESULT"
    BrDeadReply 0x00007205 "BR_DEAD_REPLY"
    BrTransactionComplete 0x00007206 "BR_TRANSACTION_COMPLETE"
    BrIncrefs 0x80107207 "BR_INCREFS"
    BrAcquire 0x80107208 "BR_ACQUIRE"
    BrRelease 0x80107209 "BR_RELEASE"
    BrDecrefs 0x8010720a "BR_DECREFS"
    BrAttemptAcquire 0x8018720b "BR_ATTEMPT_ACQUIRE"
    BrNoop 0x0000720c "BR_NOOP"
    BrSpawnLooper 0x0000720d "BR_SPAWN_LOOPER"
    BrFinished 0x0000720e "BR_FINISHED"
    BrDeadBinder 0x8008720f "BR_DEAD_BINDER"
    BrClearDeathNotificationDone 0x80087210 "BR_CLEAR_DEATH_NOTIFICATION_DONE"
    BrFailedReply 0x00007211 "BR_FAILED_REPLY"
    BrFrozenReply 0x00007212 "BR_FROZEN_REPLY"
    BrOnewaySpamSuspect 0x00007213 "BR_ONEWAY_SPAM_SUSPECT"
    BrTransactionPendingFrozen 0x00007214 "BR_TRANSACTION_PENDING_FROZEN"
};

impl Line {
    ghost use Rattle.binder_code.specs.Commands.{lines};

    /// The lines of all listed kinds, in the order of the kinds.
    pub fn all() -> &'static [Line]
        ensures kinds { map (λ line. line.kind) result.now ≡ map (λ row. row.kind) lines }
        ensures words { map (λ line. line.word) result.now ≡ map (λ row. row.word) lines }
        ensures names { map (λ line. line.name.now) result.now ≡ map (λ row. row.name) lines }
    {
        &LISTED
    }
}

impl Kind {
    ghost use Rattle.binder_code.specs.Commands.{lines, row_of, name_of};

    /// Where its line is among all lines; after them for a record that the header does not list.
    pub fn place(self) -> usize
        ensures { slice_get lines result ≡ row_of self }
    {
        self as usize
    }

    // The line of a listed kind.
    fn line(self) -> Option<&'static Line>
        ensures word { option_map (λ line. line.now.word) result
            ≡ option_map (λ row. row.word) (row_of self) }
        ensures name { option_map (λ line. line.now.name.now) result
            ≡ option_map (λ row. row.name) (row_of self) }
    {
        Line::all().get(self.place())
    }

    /// The code word of a listed kind.
    pub fn word(self) -> Option<u32>
        ensures { result ≡ option_map (λ row. row.word) (row_of self) }
    {
        match self.line() {
            Some(line) => Some(line.word),
            None => None,
        }
    }

    /// The header's name, such as `BC_TRANSACTION`; `OPAQUE` for a record that the table does not
    /// list.
    pub fn name(self) -> &'static str
        ensures exact { result.now ≡ name_of self }
        ensures short { length result.now ≤ 32 }
        ensures ascii { IsAscii result.now }
    {
        self.table_name()
    }

    // The name alone, without the other clauses of `name`.
    fn table_name(self) -> &'static str
        ensures { result.now ≡ name_of self }
    {
        match self.line() {
            Some(line) => line.name,
            None => "OPAQUE",
        }
    }
}
