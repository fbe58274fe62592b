//! What jobs and a book come to, counted once and looked up.

ghost use Rattle.std.specs.Prelude.{◌≡◌, ◌↔◌, ◌<◌, IsTrue, IfOk};
ghost use Rattle.si_workers.specs.KeptAndTold.{aborts_told, commits_told};
ghost use Rattle.si_workers.specs.Keys.{call_at};
ghost use Rattle.si_workers.specs.Outcomes.{AreAbortsTold, AreClashesTold, IsClashKept};
ghost use Rattle.si_workers.specs.Outcomes.{IsNamedOnce};

use crate::keys::{AbortKey, CallKey, ClashKey};
use crate::tally::{NumberTally, Tally};
use crate::told::Tiding;
use history_book::{Clash, Ending};
use prog_tree::Cause;
use std::alloc::{AllocError, Global};
use std::marker::Model;

/// How often each call ended in each way, by the endings of a book and by what is told of jobs.
#[derive(Drop)]
pub struct Counts<'c> {
    endings: &'c [Ending],
    tidings: &'c [Tiding<'c>],
    // the commits that jobs name
    told_commits: NumberTally,
    kept_aborts: Tally<AbortKey<'c>>,
    told_aborts: Tally<AbortKey<'c>>,
    kept_clashes: Tally<ClashKey<'c>>,
    kept_clashes_of: Tally<CallKey<'c>>,
    told_clashes_of: Tally<CallKey<'c>>,
}

impl<'c> Model for Counts<'c> {
    ghost use Rattle.std.specs.Prelude.{◌<◌, length};
    ghost use Rattle.si_workers.specs.Counts.{Counted};
    ghost use Rattle.si_workers.specs.KeptAndTold.{aborts_kept, aborts_told, clashes_kept};
    ghost use Rattle.si_workers.specs.KeptAndTold.{clashes_on, clashes_told, commits_told};
    ghost use Rattle.si_workers.specs.Keys.{abort_cmp, call_at, call_cmp, cause_at, clash_at};
    ghost use Rattle.si_workers.specs.Keys.{clash_cmp};
    ghost use Rattle.si_workers.specs.Tally.{Tallies, TalliesNumbers, most};

    ghost Value = { Counted };

    ghost view = { λ c. record { endings = c.endings.now; tidings = c.tidings.now } };

    // A u64 tells each count of the endings.
    ghost invariant = { λ c. (length c.endings.now < most)
        × TalliesNumbers (λ number. commits_told number c.tidings.now) c.told_commits
        × Tallies abort_cmp (λ q.
        aborts_kept (call_at q.call) (cause_at q.cause) c.endings.now) c.kept_aborts
        × Tallies abort_cmp (λ q.
        aborts_told (call_at q.call) (cause_at q.cause) c.tidings.now) c.told_aborts
        × Tallies clash_cmp (λ q.
        clashes_on (call_at q.call) (clash_at q) c.endings.now) c.kept_clashes
        × Tallies call_cmp (λ q. clashes_kept (call_at q) c.endings.now) c.kept_clashes_of
        × Tallies call_cmp (λ q. clashes_told (call_at q) c.tidings.now) c.told_clashes_of };
}

impl<'c> Counts<'c> {
    /// Counts what the endings and the tidings come to.
    pub fn of(
        alloc: Global,
        endings: &'c [Ending],
        tidings: &'c [Tiding<'c>],
    ) -> Result<Self, AllocError>
        ensures { IfOk result (λ counts.
            counts ≡ record { endings = endings.now; tidings = tidings.now }) }
    {
        // The endings can be counted, with one more; no commit has a greater number.
        let bound = endings.len() + 1;
        let told_commits = NumberTally::of(alloc, bound, tidings)?;
        let kept_aborts = Tally::of(alloc, endings)?;
        let told_aborts = Tally::of(alloc, tidings)?;
        let kept_clashes = Tally::of(alloc, endings)?;
        let kept_clashes_of = Tally::of(alloc, endings)?;
        let told_clashes_of = Tally::of(alloc, tidings)?;
        Ok(Counts {
            endings,
            tidings,
            told_commits,
            kept_aborts,
            told_aborts,
            kept_clashes,
            kept_clashes_of,
            told_clashes_of,
        })
    }

    /// Whether some job names the commit of a number.
    pub fn is_named(&self, number: u64) -> bool
        ensures { IsTrue result ↔ (0 < commits_told number self.now.tidings) }
    {
        self.told_commits.count(number) > 0
    }

    /// Whether just one job names the commit of a number.
    pub fn is_named_once(&self, number: u64) -> bool
        ensures { IsTrue result ↔ IsNamedOnce self.now.tidings number }
    {
        self.told_commits.count(number) == 1
    }

    /// Whether some job of a call tells an abort by a cause.
    pub fn is_abort_told(&self, call: CallKey<'c>, cause: Cause) -> bool
        ensures { IsTrue result ↔ (0 < aborts_told (call_at call.entry) cause self.now.tidings) }
    {
        self.told_aborts.count(&AbortKey::of(call, cause)) > 0
    }

    /// Whether as many instances of a call aborted by a cause as jobs tell.
    pub fn are_aborts_told(&self, call: CallKey<'c>, cause: Cause) -> bool
        ensures { IsTrue result
            ↔ AreAbortsTold self.now.endings self.now.tidings (call_at call.entry) cause }
    {
        let key = AbortKey::of(call, cause);
        self.kept_aborts.count(&key) == self.told_aborts.count(&key)
    }

    /// Whether an instance of a call clashed so.
    pub fn is_clash_kept(&self, call: CallKey<'c>, clash: Clash) -> bool
        ensures { IsTrue result ↔ IsClashKept self.now.endings (call_at call.entry) clash }
    {
        self.kept_clashes.count(&ClashKey::of(call, clash)) > 0
    }

    /// Whether as many instances of each call clashed as its jobs tell.
    pub fn are_clashes_told(&self) -> bool
        ensures { IsTrue result ↔ AreClashesTold self.now.endings self.now.tidings }
    {
        self.kept_clashes_of.is_same(&self.told_clashes_of)
    }
}
