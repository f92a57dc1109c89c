//! Guesses at where the ledgers of a frame's process and the calls of its thread are.

ghost use Rattle.std.specs.Prelude.{◌≡◌, ◌≤◌, length, OnOk};
ghost use Rattle.audit_findings.specs.Guesses.{guess_of, slot_of};
ghost use Rattle.audit_findings.specs.declared.guesses.TheConstants.{SLOTS};

use capture_frame::Thread;
use std::alloc::{AllocError, Global};

/// A guess at where the ledgers of a process and the calls of a thread of it are: their indices in
/// the two maps.
#[derive(Clone, Copy)]
pub(crate) struct Guess {
    pub process: usize,
    pub thread: usize,
}

/// The guess where nothing is known.
const FIRST: Guess = Guess {
    process: 0,
    thread: 0,
};

/// Where the latest frames of threads found their ledgers. Threads can share a slot, so this is a
/// guess: a map compares the key that it finds there.
#[derive(Drop)]
pub(crate) struct Guesses {
    /// What is kept in each slot; no slots before the first frame.
    slots: Vec<Guess>,
}

/// How many slots there are, of 16 bytes each.
const SLOTS: usize = 1024;

impl Guesses {
    pub fn empty(alloc: Global) -> Self {
        Guesses {
            slots: Vec::new(alloc),
        }
    }

    /// The guess of the thread.
    pub fn of(&self, thread: Thread) -> Guess
        ensures { result ≡ guess_of self.now thread }
    {
        match self.slots.get(slot_of(thread)) {
            Some(guess) => *guess,
            None => FIRST,
        }
    }

    /// Keeps the guess of the thread.
    pub fn keep(&mut self, thread: Thread, guess: Guess) -> Result<(), AllocError>
        ensures { OnOk result (guess_of self.new thread ≡ guess) }
    {
        make_slots(&mut self.slots)?;
        self.slots[slot_of(thread)] = guess;
        Ok(())
    }
}

/// Makes the slots, all at once, if there are none yet.
fn make_slots(slots: &mut Vec<Guess>) -> Result<(), AllocError>
    ensures { OnOk result (SLOTS ≤ length slots.new.items) }
{
    if SLOTS <= slots.len() {
        return Ok(());
    }
    slots.resize(SLOTS, FIRST)
}

/// The slot of the thread. Threads of one process have numbers near to one another, and those of
/// several processes can have the same numbers.
fn slot_of(thread: Thread) -> usize
    ensures { result ≡ slot_of thread }
{
    let process = thread.process;
    (thread.number as usize + 16 * process.number as usize + 256 * process.device as usize) % SLOTS
}
