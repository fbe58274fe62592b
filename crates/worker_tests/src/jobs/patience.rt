//! How long the gates of the tests hold a job.

use std::sync::atomic::{AtomicU64, Ordering};
use std::thread;
use std::time::{Clock, Duration};

// A job is held for so many milliseconds at most.
const MOST_TURNS: u64 = 10_000;

/// Holds jobs until what they wait for has come, and keeps whether one went on without it.
#[derive(Drop)]
pub struct Patience<'h, C: Clock> {
    clock: &'h C,
    gave_up: AtomicU64,
}

impl<'h, C: Clock> Patience<'h, C> {
    pub fn new(clock: &'h C) -> Patience<'h, C> {
        Patience {
            clock,
            gave_up: AtomicU64::new(0),
        }
    }

    /// Waits until a count is what is wanted, or more.
    pub fn wait_until(&self, count: &AtomicU64, wanted: u64) {
        for _turn in 0..MOST_TURNS {
            if count.load(Ordering::SeqCst) >= wanted {
                return;
            }
            thread::sleep(self.clock, Duration::from_millis(1));
        }
        self.gave_up.store(1, Ordering::SeqCst);
    }

    /// Whether each wait ended in what it was for.
    pub fn was_kept(&self) -> bool {
        self.gave_up.load(Ordering::SeqCst) == 0
    }
}
