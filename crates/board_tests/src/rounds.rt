//! How far each job is, as a gate and a work note it.

use claim_board::Gate;
use std::array;
use std::sync::atomic::{AtomicBool, AtomicU64, Ordering};

/// How many jobs are watched.
pub const WATCHED: usize = 10;

const ENTERED: u64 = 1;

const RUN: u64 = 2;

const LEFT: u64 = 3;

/// How far each of the first ten jobs is: each must be entered, run and left once, in this order.
#[derive(Drop)]
pub struct Rounds {
    steps: [AtomicU64; WATCHED],
    out_of_order: AtomicBool,
}

impl Rounds {
    pub fn new() -> Rounds {
        Rounds {
            steps: array::from_fn(|_| AtomicU64::new(0)),
            out_of_order: AtomicBool::new(false),
        }
    }

    // Notes that the job makes this step, which must be its next one.
    fn make(&self, i: u64, step: u64) {
        let Some(steps) = self.steps.get(i as usize) else {
            return;
        };
        if steps.fetch_add(1, Ordering::SeqCst).wrapping_add(1) != step {
            self.out_of_order.store(true, Ordering::SeqCst);
        }
    }

    /// Notes that the job is run.
    pub fn run(&self, i: u64) {
        self.make(i, RUN);
    }

    fn is_at(&self, i: usize, step: u64) -> bool {
        match self.steps.get(i) {
            Some(steps) => steps.load(Ordering::SeqCst) == step,
            None => false,
        }
    }

    /// Whether nothing was done for the job.
    pub fn is_untouched(&self, i: usize) -> bool {
        self.is_at(i, 0)
    }

    /// Whether the job was entered, run and left.
    pub fn is_left(&self, i: usize) -> bool {
        self.is_at(i, LEFT)
    }

    /// Whether no job made a step out of order.
    pub fn are_in_order(&self) -> bool {
        !self.out_of_order.load(Ordering::SeqCst)
    }
}

impl Gate for Rounds {
    fn enter(&self, i: u64) {
        self.make(i, ENTERED);
    }

    fn leave(&self, i: u64) {
        self.make(i, LEFT);
    }
}
