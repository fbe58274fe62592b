//! What an ending of a book, and what is told of a job, note in tallies.

ghost use Rattle.std.specs.Prelude.{if◌then◌else◌};
ghost use Rattle.si_workers.specs.KeptAndTold.{clashes_of, is_abort, is_clash_of, is_clash_on};
ghost use Rattle.si_workers.specs.KeptAndTold.{names, tells_abort};
ghost use Rattle.si_workers.specs.Keys.{call_at, cause_at, clash_at};

use crate::keys::{AbortKey, CallKey, ClashKey};
use crate::tally::Notes;
use crate::told::Tiding;
use history_book::Ending;
use job_list::JobEnd;

// ---- endings of a book

/// A call that aborted, with its cause.
impl<'c> Notes<'c, AbortKey<'c>> for Ending {
    ghost times = { λ e q. if is_abort (call_at q.call) (cause_at q.cause) e then 1 else 0 };

    fn noted(&'c self) -> Option<(AbortKey<'c>, u64)> {
        match self {
            Ending::Aborted { row, cause } => Some((AbortKey::of(CallKey::row(row), *cause), 1)),
            Ending::Committed(_) | Ending::Clashed { .. } => None,
        }
    }
}

/// A call that clashed.
impl<'c> Notes<'c, CallKey<'c>> for Ending {
    ghost times = { λ e q. if is_clash_of (call_at q) e then 1 else 0 };

    fn noted(&'c self) -> Option<(CallKey<'c>, u64)> {
        match self {
            Ending::Clashed { row, clash: _ } => Some((CallKey::row(row), 1)),
            Ending::Committed(_) | Ending::Aborted { .. } => None,
        }
    }
}

/// The same, with its clash.
impl<'c> Notes<'c, ClashKey<'c>> for Ending {
    ghost times = { λ e q. if is_clash_on (call_at q.call) (clash_at q) e then 1 else 0 };

    fn noted(&'c self) -> Option<(ClashKey<'c>, u64)> {
        match self {
            Ending::Clashed { row, clash } => Some((ClashKey::of(CallKey::row(row), *clash), 1)),
            Ending::Committed(_) | Ending::Aborted { .. } => None,
        }
    }
}

// ---- what is told of jobs

/// The commit that a job names.
impl<'c, 'j> Notes<'c, u64> for Tiding<'j> {
    ghost times = { λ t number. if names number t.1 then 1 else 0 };

    fn noted(&'c self) -> Option<(u64, u64)> {
        let outcome = self.outcome()?;
        match &outcome.job_end {
            JobEnd::Committed { number, .. } => Some((*number, 1)),
            JobEnd::Aborted(_) | JobEnd::Clashed(_) | JobEnd::Refused(_) => None,
        }
    }
}

/// The call of a job that aborted, with its cause.
impl<'c> Notes<'c, AbortKey<'c>> for Tiding<'c> {
    ghost times = { λ t q. if tells_abort (call_at q.call) (cause_at q.cause) t then 1 else 0 };

    fn noted(&'c self) -> Option<(AbortKey<'c>, u64)> {
        let outcome = self.outcome()?;
        match &outcome.job_end {
            JobEnd::Aborted(cause) => Some((AbortKey::of(CallKey::job(self.job), *cause), 1)),
            JobEnd::Committed { .. } | JobEnd::Clashed(_) | JobEnd::Refused(_) => None,
        }
    }
}

/// The call of a job, as often as it clashed. Most jobs did not.
impl<'c> Notes<'c, CallKey<'c>> for Tiding<'c> {
    ghost times = { λ t q. clashes_of (call_at q) t };

    fn noted(&'c self) -> Option<(CallKey<'c>, u64)> {
        let outcome = self.outcome()?;
        if outcome.clashes == 0 {
            return None;
        }
        Some((CallKey::job(self.job), outcome.clashes))
    }
}
