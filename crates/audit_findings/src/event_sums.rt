//! The sums of events: of all together, of those of each thread, and of those of each process.

ghost use Rattle.std.specs.Prelude.{◌≡◌, List};
ghost use Rattle.event_core.specs.declared.event.Event.{Event};
ghost use Rattle.audit_findings.specs.Guesses.{guess_in};
ghost use Rattle.audit_findings.specs.Ledgers.{SumsGiven, AreFewGiven, few_given_halves};

use crate::both::both;
use crate::event_ledgers::EventLedgers;
use crate::guesses::Guess;
use crate::thread_ledger::ThreadLedger;
use capture_frame::Process;
use event_core::Event;
use process_ledgers::{ProcessLedgers, concerns};
use std::alloc::{AllocError, Global};
use summary_law::{InOrder, Summary};

/// The sums of events: of all together, of those of each thread, and of those of each process.
#[derive(Drop)]
pub(crate) struct EventSums<'c> {
    pub all: EventLedgers,
    pub threads: ThreadLedger,
    /// The ledgers of each process that has an event which concerns one of them.
    pub processes: InOrder<Process, ProcessLedgers<'c>>,
}

impl<'c> EventSums<'c> {
    /// Where the ledgers of the latest event's process and the calls of its thread are, as far as
    /// it has any; else the guess that was set.
    pub fn guess(&self) -> Guess
        ensures { result ≡ guess_in self.now }
    {
        Guess {
            process: self.processes.guess,
            thread: self.threads.threads.guess,
        }
    }

    /// Sets the guess at where those of the next event are.
    pub fn set_guess(&mut self, guess: Guess)
        ensures set { guess_in self.new ≡ guess }
        ensures same { (events : List Event) → SumsGiven self.old events →
            SumsGiven self.new events }
    {
        self.processes.guess = guess.process;
        self.threads.threads.guess = guess.thread;
    }
}

impl<'c> Summary for EventSums<'c> {
    type Item = Event<'c>;

    ghost fits = { AreFewGiven };

    ghost sums = { SumsGiven };

    fn empty(alloc: Global) -> EventSums<'c> {
        EventSums {
            all: EventLedgers::empty(alloc),
            threads: ThreadLedger::empty(alloc),
            processes: InOrder::empty(alloc),
        }
    }

    fn add(&mut self, item: Event<'c>) -> Result<(), AllocError> {
        self.all.add(item)?;
        self.threads.add(item)?;
        if concerns(item.kind) {
            self.processes.add((item.of_process(), item))?;
        }
        Ok(())
    }

    fn join(self, later: EventSums<'c>) -> Result<EventSums<'c>, AllocError> {
        let all = self.all.join(later.all);
        let threads = self.threads.join(later.threads);
        let processes = self.processes.join(later.processes);
        let (all, threads) = both(all, threads)?;
        let processes = processes?;
        Ok(EventSums {
            all,
            threads,
            processes,
        })
    }

    ghost fits_halves = { few_given_halves };
}
