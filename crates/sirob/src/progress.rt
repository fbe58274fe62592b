//! How many jobs have ended, told while others are under way.

use si_workers::{Gate, Moment};
use std::io::IsTerminal;
use std::rt::{Clock, LibcRuntime};
use std::sync::atomic::{AtomicU64, Ordering};

/// A runtime that knows whether somebody can look on.
pub trait Watched {
    /// Whether the standard error is a terminal.
    fn is_watched(&self) -> bool;
}

impl Watched for LibcRuntime {
    fn is_watched(&self) -> bool {
        self.stderr().is_terminal()
    }
}

/// Tells on a terminal, once a second at most, how many jobs have ended. It holds nobody.
#[derive(Drop)]
pub struct JobProgress<'a, R> {
    rt: &'a R,
    is_watched: bool,
    jobs: usize,
    ended: AtomicU64,
    /// The second by the clock in which this was told last.
    told_in: AtomicU64,
}

fn second_now(rt: &impl Clock) -> u64 {
    match rt.monotonic() {
        Ok(time) => time.as_secs(),
        Err(_) => 0,
    }
}

impl<'a, R: Clock + Eprint + Watched> JobProgress<'a, R> {
    /// Of so many jobs, none has ended yet.
    pub fn new(rt: &'a R, jobs: usize) -> Self {
        JobProgress {
            rt,
            is_watched: rt.is_watched(),
            jobs,
            ended: AtomicU64::new(0),
            told_in: AtomicU64::new(second_now(rt)),
        }
    }

    // Tells how many have ended, unless that was told in this second.
    fn tell(&self, ended: u64) {
        let second = second_now(self.rt);
        let told_in = self.told_in.load(Ordering::SeqCst);
        if second <= told_in {
            return;
        }
        let is_first = self
            .told_in
            .compare_exchange(told_in, second, Ordering::SeqCst, Ordering::SeqCst)
            .is_ok();
        if is_first {
            let jobs = self.jobs;
            let _ = eprintln!(self.rt; "{ended} of {jobs} jobs have ended");
        }
    }
}

impl<R: Clock + Eprint + Watched> Gate for JobProgress<'_, R> {
    fn at(&self, _job: usize, moment: Moment) {
        if !self.is_watched || moment != Moment::Finished {
            return;
        }
        let before = self.ended.fetch_add(1, Ordering::SeqCst);
        self.tell(before.saturating_add(1));
    }
}
