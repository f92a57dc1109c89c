//! The processes of some frames, each with its ledgers.

ghost use Rattle.std.specs.Prelude.{◌≡◌};

use capture_frame::Process;
use process_ledgers::ProcessLedgers;
use summary_law::{InOrder, Nothing};

/// The processes of some frames in the order of their first frames, and the ledgers of those with
/// an event that concerns a ledger.
#[derive(Clone, Copy)]
pub(crate) struct Processes<'a, 'c> {
    pub order: &'a InOrder<Process, Nothing>,
    pub own: &'a InOrder<Process, ProcessLedgers<'c>>,
    /// The ledgers of no event, which every other process has.
    pub none: &'a ProcessLedgers<'c>,
}

impl<'a, 'c> Processes<'a, 'c> {
    ghost use Rattle.audit_findings.specs.EachProcess.{ledgers_in};

    /// The ledgers of the process. Mostly nothing is looked up, if the processes are asked for in
    /// their order, the first with the guess 0 and each later one with the guess that the call
    /// before left.
    pub fn ledgers(self, process: Process, guess: &mut usize) -> &'a ProcessLedgers<'c>
        ensures { result.now ≡ ledgers_in self.entry process }
    {
        self.own.own_or(process, self.none, guess)
    }
}
