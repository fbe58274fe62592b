//! A gate of the tests, at which two jobs meet.

use crate::jobs::patience::Patience;
use si_workers::{Gate, Moment};
use std::sync::atomic::{AtomicU64, Ordering};
use std::time::Clock;

/// A job, and where a worker is with it.
pub type At = (usize, Moment);

/// At the first a job is held until the second has come.
pub type Hold = (At, At);

// Which moments of a job have come: each is 1 from then on.
#[derive(Drop)]
struct Moments {
    begun: AtomicU64,
    in_read: AtomicU64,
    finished: AtomicU64,
}

impl Moments {
    fn none() -> Moments {
        Moments {
            begun: AtomicU64::new(0),
            in_read: AtomicU64::new(0),
            finished: AtomicU64::new(0),
        }
    }

    fn of(&self, moment: Moment) -> &AtomicU64 {
        match moment {
            Moment::Begun => &self.begun,
            Moment::InRead => &self.in_read,
            Moment::Finished => &self.finished,
        }
    }
}

/// Holds jobs 0 and 1 until others have come as far as they have to.
#[derive(Drop)]
pub struct Meeting<'h, C: Clock> {
    holds: &'h [Hold],
    first: Moments,
    second: Moments,
    patience: Patience<'h, C>,
}

impl<'h, C: Clock> Meeting<'h, C> {
    pub fn new(clock: &'h C, holds: &'h [Hold]) -> Meeting<'h, C> {
        Meeting {
            holds,
            first: Moments::none(),
            second: Moments::none(),
            patience: Patience::new(clock),
        }
    }

    fn flag(&self, (job, moment): At) -> &AtomicU64 {
        let came = if job == 0 { &self.first } else { &self.second };
        came.of(moment)
    }

    /// Whether it has come.
    pub fn came(&self, at: At) -> bool {
        self.flag(at).load(Ordering::SeqCst) == 1
    }

    /// Whether each job came to where it was held, and went on because of what it was held for.
    pub fn was_kept(&self) -> bool {
        let holds = self.holds;
        self.patience.was_kept()
            && holds
                .iter()
                .all(|(at, until)| self.came(*at) && self.came(*until))
    }
}

impl<C: Clock> Gate for Meeting<'_, C> {
    fn at(&self, job: usize, moment: Moment) {
        self.flag((job, moment)).store(1, Ordering::SeqCst);
        for (at, until) in self.holds {
            if at.0 == job && at.1 == moment {
                self.patience.wait_until(self.flag(*until), 1);
            }
        }
    }
}
