//! A gate that shows that several threads are at work at the same time.

use claim_board::Gate;
use std::array;
use std::sync::atomic::{AtomicBool, Ordering};

/// How often a flag is loaded before a test gives up.
const LIMIT: u64 = 1_000_000_000;

/// Loads the flag until it is set, and says whether it was.
pub fn is_set_in_time(flag: &AtomicBool) -> bool {
    for _ in 0..LIMIT {
        if flag.load(Ordering::SeqCst) {
            return true;
        }
    }
    false
}

/// A gate at which each of the first `N` jobs waits until all of them are entered.
#[derive(Drop)]
pub struct Meeting<const N: usize> {
    flags: [AtomicBool; N],
    late: AtomicBool,
}

impl<const N: usize> Gate for Meeting<N> {
    fn enter(&self, i: u64) {
        let Some(own) = self.flags.get(i as usize) else {
            return;
        };
        own.store(true, Ordering::SeqCst);
        for flag in self.flags.iter() {
            if !is_set_in_time(flag) {
                self.late.store(true, Ordering::SeqCst);
                return;
            }
        }
    }

    fn leave(&self, _i: u64) {}
}

impl<const N: usize> Meeting<N> {
    /// A gate before any job.
    pub fn new() -> Meeting<N> {
        Meeting {
            flags: array::from_fn(|_| AtomicBool::new(false)),
            late: AtomicBool::new(false),
        }
    }

    /// Whether all were entered, and none waited too long.
    pub fn was_held(&self) -> bool {
        self.flags.iter().all(|flag| flag.load(Ordering::SeqCst))
            && !self.late.load(Ordering::SeqCst)
    }
}
