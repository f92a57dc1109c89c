//! What a worker does with a process.

use audit_findings::{ProcessHandles, SecondLook};
use claim_board::{JobStop, Work};
use std::alloc::Global;

/// A job for each process of a second look: to make its rows. No job has a fault.
#[derive(Drop)]
pub(crate) struct LookWork<'f, 'c> {
    pub look: &'f SecondLook<'f, 'c>,
}

impl<'f, 'c> Work for LookWork<'f, 'c> {
    ghost use Rattle.std.specs.Prelude.{◌≡◌, Some, length, slice_get};
    ghost use Rattle.audit_findings.specs.Handles.{handles_of_each};
    ghost use Rattle.audit_join.specs.Processes.{process_jobs};
    ghost use Rattle.process_ledgers.specs.Processes.{processes_of};

    type Out = ProcessHandles;

    ghost listed = { λ me. process_jobs (length (processes_of me.look.now)) };

    ghost gives = { λ me i rows. slice_get (handles_of_each me.look.now) i ≡ Some rows.items };

    fn jobs(&self) -> u64 {
        self.look.process_count() as u64
    }

    fn start(&self, i: u64) -> u64 {
        i
    }

    fn run(&self, _alloc: Global, i: u64) -> Result<ProcessHandles, JobStop> {
        match self.look.handles(i as usize) {
            Ok(rows) => Ok(rows),
            Err(_) => Err(JobStop::Memory),
        }
    }
}
