//! A gate of the tests, at which a job is overtaken in each of its tries.

use crate::jobs::patience::Patience;
use si_workers::{Gate, Moment};
use std::sync::atomic::{AtomicU64, Ordering};
use std::time::Clock;

/// Holds each try of job 0 until one job more has ended, and job `n` until job 0 is in its try `n`.
#[derive(Drop)]
pub struct Overtaking<'h, C: Clock> {
    // how often job 0 was begun
    tries: AtomicU64,
    // how many other jobs have ended
    over: AtomicU64,
    patience: Patience<'h, C>,
}

impl<'h, C: Clock> Overtaking<'h, C> {
    pub fn new(clock: &'h C) -> Overtaking<'h, C> {
        Overtaking {
            tries: AtomicU64::new(0),
            over: AtomicU64::new(0),
            patience: Patience::new(clock),
        }
    }

    /// Whether job 0 was begun so often, and each was held until what it was held for had come.
    pub fn was_kept(&self, tries: u64) -> bool {
        self.patience.was_kept() && self.tries.load(Ordering::SeqCst) == tries
    }
}

impl<C: Clock> Gate for Overtaking<'_, C> {
    fn at(&self, job: usize, moment: Moment) {
        match moment {
            Moment::Begun if job == 0 => {
                let before = self.tries.fetch_add(1, Ordering::SeqCst);
                self.patience
                    .wait_until(&self.over, before.saturating_add(1));
            }
            Moment::Begun => self.patience.wait_until(&self.tries, job as u64),
            Moment::Finished if job > 0 => {
                self.over.fetch_add(1, Ordering::SeqCst);
            }
            Moment::Finished | Moment::InRead => {}
        }
    }
}
